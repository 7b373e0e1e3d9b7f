// Unit propagation over a work: each literal that is forced becomes a unit of the work.
//
// Every clause is looked at once. Then the list of units is the queue: for each unit in turn the clauses that hold its
// negation are looked at, and what they force comes to the list's end. A clause needs a look only if one of its
// literals has become false, so that no clause is forced or falsified once the queue is at its end.
ghost use Rattle.std.specs.Prelude.{◌≡◌, ℕ, List, Contains};
ghost use Rattle.sat_words.specs.Literal.{Literal};
ghost use Rattle.simp_base.specs.WorkState.{IsWork};
ghost use Rattle.simp_base.specs.Log.{KeepsLog};
ghost use Rattle.simp_units.specs.Progress.{IsSet, Progress, WasLookedAt, WasVisited, WasSpread, WasPropagated};

use crate::look::{Demand, look_up};
use drat_text::{LineOut, LineStop};
use sat_words::Values;
use simp_base::Work;

/// How propagation ended.
#[derive(Clone, Copy)]
pub(crate) enum Propagation {
    /// A clause is false.
    Conflict,
    /// Nothing more is forced.
    Quiet,
}

/// Looks at the clause with this number, and lists the literal that it forces.
fn look_at<L: LineOut>(
    work: &mut Work<L>,
    values: &mut Values,
    number: u64,
) -> Result<Propagation, LineStop>
    requires set { IsSet work.old values.old }
    ensures looked { WasLookedAt work.old values.old work.new values.new number result }
    ensures log { KeepsLog work.old work.new }
    ensures work { IsWork work.new }
{
    match look_up(work, values, number) {
        Demand::Falsified => Ok(Propagation::Conflict),
        Demand::Settled => Ok(Propagation::Quiet),
        Demand::Forced(lit) => {
            work.unit(lit)?;
            values.set(lit);
            Ok(Propagation::Quiet)
        }
    }
}

/// Looks at the clauses with these numbers, one after another.
fn visit<L: LineOut>(
    work: &mut Work<L>,
    values: &mut Values,
    numbers: &[u64],
) -> Result<Propagation, LineStop>
    requires set { IsSet work.old values.old }
    ensures visited { WasVisited work.old values.old work.new values.new numbers.now result }
    ensures work { IsWork work.new }
{
    for number in numbers {
        match look_at(work, values, *number) {
            Ok(Propagation::Quiet) => {}
            Ok(Propagation::Conflict) => return Ok(Propagation::Conflict),
            Err(stop) => return Err(stop),
        }
    }
    Ok(Propagation::Quiet)
}

/// Looks at the clauses in which a unit is false, unit by unit.
fn spread<L: LineOut>(work: &mut Work<L>, values: &mut Values) -> Result<Propagation, LineStop>
    requires set { IsSet work.old values.old }
    ensures spread { WasSpread work.old values.old work.new values.new result }
    ensures work { IsWork work.new }
{
    for next in 0..usize::MAX {
        if next >= work.units().len() {
            return Ok(Propagation::Quiet);
        }
        let (lit, _) = work.units()[next];
        match work.numbers_with(lit.not()) {
            Err(stop) => return Err(stop),
            Ok(numbers) => match visit(work, values, numbers.as_slice()) {
                Ok(Propagation::Quiet) => {}
                Ok(Propagation::Conflict) => return Ok(Propagation::Conflict),
                Err(stop) => return Err(stop),
            },
        }
    }
    let _count = work.units().len();
    Ok(Propagation::Quiet)
}

/// Propagates the units of the work, from values that are these units. The numbers are those of all clauses.
pub(crate) fn propagate<L: LineOut>(
    work: &mut Work<L>,
    values: &mut Values,
    numbers: &[u64],
) -> Result<Propagation, LineStop>
    requires set { IsSet work.old values.old }
    requires begun { Progress work.old work.old values.old }
    requires each { (n : ℕ) (c : List Literal) → Contains work.old.clauses (n, c) → Contains numbers.now n }
    ensures propagated { WasPropagated work.old work.new values.new result }
    ensures work { IsWork work.new }
{
    match visit(work, values, numbers) {
        Ok(Propagation::Quiet) => spread(work, values),
        Ok(Propagation::Conflict) => Ok(Propagation::Conflict),
        Err(stop) => Err(stop),
    }
}
