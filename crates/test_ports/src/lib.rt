//! Small ports, for the tests of what stands on one.
#![tactic(auto)]

mod crowd;
mod port;

pub use crowd::{Crowd, Gift, Poll, third_stop};
pub use port::SamplePort;
