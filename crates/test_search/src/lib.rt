//! Tests of what a search is made of: the port in memory, the trail, decisions, the analysis of a conflict and watches. They
//! stand above these crates, so that each of these is proved once.
#![tactic(auto)]

#[cfg(test)]
mod analysis;
pub mod deciding;
#[cfg(test)]
mod decisions;
pub mod list_lines;
#[cfg(test)]
mod port;
pub mod sampled;
#[cfg(test)]
mod trail;
#[cfg(test)]
mod watches;
