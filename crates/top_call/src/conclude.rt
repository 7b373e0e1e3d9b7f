// The verdict that the rings' answer comes to.
ghost use Rattle.std.specs.Prelude.{◌≡◌, ◌<◌, ◌^◌, length};
ghost use Rattle.top_call.specs.Concluded.{IsVerdictOf};

use crate::occurring::without_idle;
use crate::report::{CallEnd, SearchVerdict};
use portfolio_run::Answer;
use sat_words::Assignment;

/// The verdict of an answer, in which a model has no values for variables that don't occur; or the end of a call without one.
pub(crate) fn verdict_of(
    occurring: Assignment,
    vars: u32,
    answer: Answer,
) -> Result<SearchVerdict, CallEnd>
    requires long { length occurring ≡ vars }
    requires few { vars < 2 ^ 28 }
    ensures { IsVerdictOf occurring answer result }
{
    match answer {
        Answer::Sat(model) => Ok(SearchVerdict::Satisfiable(without_idle(occurring, vars, &model))),
        Answer::Unsat => Ok(SearchVerdict::Unsatisfiable),
        Answer::Unknown => Ok(SearchVerdict::Unknown),
        Answer::NoHole(lack) => Err(CallEnd::Room(lack)),
        Answer::ProofFault => Err(CallEnd::ProofFault),
        Answer::Memory => Err(CallEnd::Memory),
    }
}
