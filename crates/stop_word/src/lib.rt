//! The word on which the rings stop: a ring sets its stop there, and all rings look at it. Each call takes one atomic
//! step; none waits for anybody, and none takes memory.
//!
//! The word changes once at most, so that of all rings that try one alone wins.
#![tactic(auto)]

mod stops;

pub use sat_words::Set;
pub use stops::{look, set};
