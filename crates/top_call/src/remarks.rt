// The remarks before the answer.
ghost use Rattle.std.specs.Prelude.{◌≡◌, ℕ, Bool, option_copied};
ghost use Rattle.top_call.specs.Answer.{satisfied, summary_of, remarks_of};

use crate::report::SearchVerdict;
use sat_words::{Assignment, Formula};

/// The remarks on a formula that was made.
#[derive(Clone, Copy)]
pub struct Summary {
    pub vars: u32,
    pub clauses: u64,
    /// How many of the clauses the model makes true, if there is one.
    pub satisfied: Option<u64>,
}

/// The remarks before the answer.
#[derive(Clone, Copy)]
pub struct Remarks {
    /// Of the formula, if it was made. The values of a model are not printed then.
    pub made: Option<Summary>,
    /// Whether the log was checked, and accepted.
    pub checked: bool,
}

/// How many of the clauses the model makes true.
fn satisfied(model: &Assignment, formula: &Formula) -> u64
    ensures { result ≡ satisfied model.now formula.now.clauses }
{
    let mut count = 0;
    for clause in formula.clauses() {
        if model.clause_true(clause) {
            count += 1;
        }
    }
    count
}

/// The remarks on the formula and the verdict on it.
pub(crate) fn summary_of(formula: &Formula, verdict: &SearchVerdict) -> Summary
    ensures { result ≡ summary_of formula.now verdict.now }
{
    Summary {
        vars: formula.vars(),
        clauses: formula.clauses().len() as u64,
        satisfied: match verdict {
            SearchVerdict::Satisfiable(model) => Some(satisfied(model, formula)),
            SearchVerdict::Unsatisfiable | SearchVerdict::Unknown => None,
        },
    }
}
