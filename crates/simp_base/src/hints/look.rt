// What clauses say while hints are looked for.
ghost use Rattle.std.specs.Prelude.{◌≡◌, ◌||◌, not};
ghost use Rattle.std.specs.List.{find, list_all};
ghost use Rattle.sat_words.specs.Literal.{opposite, same};
ghost use Rattle.simp_base.specs.Search.{true_set, IsStatus};

use crate::clause_table::ClauseTable;
use crate::hints::trail::Trail;
use sat_words::Lit;

/// What a clause says.
#[derive(Clone, Copy)]
pub(crate) enum Status {
    /// All its literals are false.
    Falsified,
    /// All its literals are false but this one, which has no truth value.
    Forced(Lit),
    /// A literal is true, or two are not false.
    Settled,
}

/// Whether the literal is a unit or stands on the trail.
pub(crate) fn is_true(clauses: &ClauseTable, trail: &Trail, lit: Lit) -> bool
    ensures { result ≡ true_set clauses.now.clauses trail.now.steps lit }
{
    clauses.unit_number(lit).is_some() || trail.place_of(lit).is_some()
}

/// The first literal that isn't false.
fn first_open(clauses: &ClauseTable, trail: &Trail, lits: &[Lit]) -> Option<Lit>
    ensures { result ≡ find (λ l. not (true_set clauses.now.clauses trail.now.steps (opposite l))) lits.now }
{
    lits.iter()
        .copied()
        .find(|l| !is_true(clauses, trail, l.not()))
}

fn others_false(clauses: &ClauseTable, trail: &Trail, lits: &[Lit], lit: Lit) -> bool
    ensures { result ≡ list_all (λ k. same lit k || true_set clauses.now.clauses trail.now.steps (opposite k)) lits.now }
{
    lits.iter()
        .all(|k| lit == *k || is_true(clauses, trail, k.not()))
}

/// What a clause of these literals says.
pub(crate) fn status_of(clauses: &ClauseTable, trail: &Trail, lits: &[Lit]) -> Status
    ensures { IsStatus (true_set clauses.now.clauses trail.now.steps) lits.now result }
{
    match first_open(clauses, trail, lits) {
        None => Status::Falsified,
        Some(lit) => {
            if is_true(clauses, trail, lit) {
                Status::Settled
            } else if others_false(clauses, trail, lits, lit) {
                Status::Forced(lit)
            } else {
                Status::Settled
            }
        }
    }
}
