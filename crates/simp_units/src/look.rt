// What a clause asks for under the values of the units.
ghost use Rattle.std.specs.Prelude.{◌≡◌, ◌||◌, not};
ghost use Rattle.std.specs.List.{find, list_all};
ghost use Rattle.sat_words.specs.Literal.{opposite, same};
ghost use Rattle.sat_words.specs.Values.{is_true};
ghost use Rattle.simp_units.specs.Demand.{IsLook, IsLookAt};

use drat_text::LineOut;
use sat_words::{Lit, Values};
use simp_base::Work;

/// What a clause asks for.
#[derive(Clone, Copy)]
pub(crate) enum Demand {
    /// All its literals are false.
    Falsified,
    /// All its other literals are false, and this one has no value.
    Forced(Lit),
    /// Nothing.
    Settled,
}

/// The first literal that isn't false.
fn first_open(clause: &[Lit], a: &Values) -> Option<Lit>
    ensures { result ≡ find (λ l. not (is_true a.now (opposite l))) clause.now }
{
    clause.iter().copied().find(|l| !a.is_false(*l))
}

fn others_false(clause: &[Lit], lit: Lit, a: &Values) -> bool
    ensures { result ≡ list_all (λ k. same lit k || is_true a.now (opposite k)) clause.now }
{
    clause.iter().all(|k| lit == *k || a.is_false(*k))
}

fn demand_of(clause: &[Lit], a: &Values) -> Demand
    ensures { IsLook a.now clause.now result }
{
    match first_open(clause, a) {
        None => Demand::Falsified,
        Some(lit) => {
            if a.is_true(lit) {
                Demand::Settled
            } else if others_false(clause, lit, a) {
                Demand::Forced(lit)
            } else {
                Demand::Settled
            }
        }
    }
}

/// What the clause with this number asks for; nothing if it is not alive.
pub(crate) fn look_up<L: LineOut>(work: &Work<L>, values: &Values, number: u64) -> Demand
    ensures { IsLookAt work.now values.now number result }
{
    match work.clause(number) {
        Some(clause) => demand_of(clause.lits(), values),
        None => Demand::Settled,
    }
}
