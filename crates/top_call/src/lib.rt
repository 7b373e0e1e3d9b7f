//! The whole call of the program, over any files and streams. `gimsatul` reads the arguments and the input, has the formula
//! decided, writes the proof and the answer, and reports. `main` of the program makes this call on the real ones.
//!
//! `answer_text_to` prints an answer and `put_message` says why there is none. `the_plain_form_is_read` is a law of the forms of
//! input.
#![tactic(auto)]

mod answer;
mod conclude;
mod decide;
mod laws;
mod message;
mod occurring;
mod options;
mod plan;
mod remarks;
mod report;
mod top;
mod words;

pub use answer::answer_text_to;
pub use laws::the_plain_form_is_read;
pub use message::put_message;
pub use remarks::{Remarks, Summary};
pub use report::{CallEnd, Report, RingNumbers, SearchVerdict, Tally};
pub use top::gimsatul;
