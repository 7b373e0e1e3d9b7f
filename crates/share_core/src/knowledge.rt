//! Whether clauses follow from what a ring knows.
//! The executable core, which the program never runs: it makes the definitions of specs/ run, for tests.
ghost use Rattle.std.specs.Prelude.{◌≡◌, ◌++◌, ◌∷◌, [], map, IfOk, OnOk};
ghost use Rattle.std.specs.List.{zip};
ghost use Rattle.sat_words.specs.Literal.{Literal};
ghost use Rattle.rup_model.specs.Rup.{rup};
ghost use Rattle.rup_model.specs.Hints.{numbered, hinted};
ghost use Rattle.share_core.specs.declared.stored.ClauseAt.{ClauseAt};

use crate::stored::ClauseAt;
use rup_model::{is_hinted, is_rup};
use sat_words::{Lit, Lits};
use std::alloc::{AllocError, Global};

/// Whether the literals follow by unit propagation from the clauses and the units.
pub(crate) fn is_implied(
    alloc: Global,
    held: &[ClauseAt],
    seen: &[Lit],
    lits: &[Lit],
) -> Result<bool, AllocError>
    ensures { IfOk result (λ yes. yes ≡ rup (map (λ (h : ClauseAt). h.lits) held.now ++ map (λ (l : Literal). l ∷ []) seen.now) lits.now) }
{
    let mut known = Vec::new(alloc);
    for h in held {
        known.push(Lits::from_slice(alloc, h.lits.as_slice())?)?;
    }
    for unit in seen {
        known.push(Lits::from_slice(alloc, &[*unit])?)?;
    }
    is_rup(alloc, known.as_slice(), lits)
}

/// The clauses with their numbers.
fn numbered_clauses(alloc: Global, held: &[ClauseAt]) -> Result<Vec<(u64, Lits)>, AllocError>
    ensures { IfOk result (λ known. known.items ≡ map (λ (h : ClauseAt). (h.number, h.lits)) held.now) }
{
    let mut known = Vec::new(alloc);
    for h in held {
        known.push((h.number, Lits::from_slice(alloc, h.lits.as_slice())?))?;
    }
    Ok(known)
}

/// Puts the units, each with its number, after the clauses.
fn add_units(
    alloc: Global,
    seen: &[Lit],
    numbers: &[u64],
    known: &mut Vec<(u64, Lits)>,
) -> Result<(), AllocError>
    ensures { OnOk result (known.new.items ≡ known.old.items ++ map (λ u. (u.1, u.0 ∷ [])) (zip seen.now numbers.now)) }
{
    let [unit, units @ ..] = seen else {
        return Ok(());
    };
    let [number, more @ ..] = numbers else {
        return Ok(());
    };
    known.push((*number, Lits::from_slice(alloc, &[*unit])?))?;
    add_units(alloc, units, more, known)
}

/// Whether the hints show that the literals follow from the clauses and the units, each under its number.
pub(crate) fn is_shown(
    alloc: Global,
    held: &[ClauseAt],
    seen: &[Lit],
    numbers: &[u64],
    lits: &[Lit],
    hints: &[u64],
) -> Result<bool, AllocError>
    ensures { IfOk result (λ yes. yes ≡ hinted (numbered (map (λ (h : ClauseAt). (h.number, h.lits)) held.now ++ map (λ u. (u.1, u.0 ∷ [])) (zip seen.now numbers.now))) lits.now hints.now) }
{
    let mut known = numbered_clauses(alloc, held)?;
    add_units(alloc, seen, numbers, &mut known)?;
    is_hinted(alloc, known.as_slice(), lits, hints)
}
