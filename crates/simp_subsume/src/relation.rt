// How one clause stands to another.
//
// Both are in order of variable, so that one walk through the other clause finds the literals of the clause one after
// another. It ends if one is passed over.
ghost use Rattle.std.specs.Prelude.{◌≡◌, ◌<◌, ◌≤◌, ◌+◌, ◌^◌, false, length};
ghost use Rattle.sat_words.specs.Clause.{has_opposites, InOrder};
ghost use Rattle.simp_subsume.specs.Walked.{IsStep, all_found};
ghost use Rattle.simp_subsume.specs.Compared.{IsRelation};

use sat_words::Lit;

/// How a clause stands to another one.
#[derive(Clone, Copy)]
pub(crate) enum Relation {
    /// It is not contained in it, neither as it is nor with one literal negated.
    Apart,
    /// Each of its literals is in it.
    Within,
    /// Each of its literals is in it, except for this one, whose negation is.
    Flipped(Lit),
}

/// How far the walk has come.
#[derive(Clone, Copy)]
pub(crate) struct Comparison {
    /// How many literals of the clause were found, or their negations.
    pub(crate) found: usize,
    /// The literal of the clause whose negation was found.
    pub(crate) flipped: Option<Lit>,
}

/// The walk after one more literal of the other clause; none if that is beyond the literal that is looked for, or is a
/// second negation.
fn step(walk: Comparison, wanted: Lit, lit: Lit) -> Option<Comparison>
    requires { walk.found + 1 < 2 ^ 64 }
    ensures { IsStep walk wanted lit result }
{
    if lit.var() < wanted.var() {
        return Some(walk);
    }
    if lit == wanted {
        return Some(Comparison {
            found: walk.found + 1,
            flipped: walk.flipped,
        });
    }
    if lit.var() > wanted.var() {
        return None;
    }
    match walk.flipped {
        Some(_) => None,
        None => Some(Comparison {
            found: walk.found + 1,
            flipped: Some(wanted),
        }),
    }
}

/// How the clause stands to the other one, unless that is a tautology.
pub(crate) fn relation_of(clause: &[Lit], other: &[Lit]) -> Relation
    requires clause_ordered { InOrder clause.now }
    requires other_ordered { InOrder other.now }
    requires no_opposites { has_opposites clause.now ≡ false }
    ensures { IsRelation clause.now other.now result }
{
    let mut walk = Comparison {
        found: 0,
        flipped: None,
    };
    for lit in other {
        if walk.found >= clause.len() {
            return all_found(walk);
        }
        match step(walk, clause[walk.found], *lit) {
            Some(next) => walk = next,
            None => return Relation::Apart,
        }
    }
    if walk.found < clause.len() {
        Relation::Apart
    } else {
        all_found(walk)
    }
}

/// How the clause stands to the other one if all its literals were found.
fn all_found(walk: Comparison) -> Relation
    ensures { result ≡ all_found walk }
{
    match walk.flipped {
        None => Relation::Within,
        Some(lit) => Relation::Flipped(lit),
    }
}
