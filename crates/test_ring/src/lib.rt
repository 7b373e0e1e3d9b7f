//! Tests of whole rings and of a ring's steps, of reduction, of vivification and of probing. They stand above these crates, so
//! that each of these is proved once.
#![tactic(auto)]

pub mod beginning;
#[cfg(test)]
mod crowd_runs;
#[cfg(test)]
mod failed_literals;
#[cfg(test)]
mod hinted;
#[cfg(test)]
mod long_runs;
#[cfg(test)]
mod memory;
pub mod reducing;
#[cfg(test)]
mod reduction;
#[cfg(test)]
mod reuse;
#[cfg(test)]
mod reusing;
#[cfg(test)]
mod runs;
pub mod stepping;
#[cfg(test)]
mod steps;
#[cfg(test)]
mod vivification;
pub mod vivifying;
