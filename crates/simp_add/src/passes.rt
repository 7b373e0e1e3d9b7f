// The run of a simplifier by bounded variable addition.
//
// Two literals of which many clauses differ by them alone get a variable that stands for both: `n` clauses of each become `n`
// clauses of the new one and two that define it (N. Manthey, M. J. H. Heule and A. Biere, "Automated Reencoding of Boolean
// Formulas", HVC 2012). Pairwise constraints that at most one of many literals is true become much shorter so.
ghost use Rattle.std.specs.Prelude.{◌≡◌, ◌<◌, ◌≤◌, ◌+◌, ◌*◌, ◌^◌, ◌⊎◌, false, length, IfOk, OnOk, IfSome, IfNone};
ghost use Rattle.sat_words.specs.Formats.{has_hints};
ghost use Rattle.sat_words.specs.Literal.{IsOn, literal_of};
ghost use Rattle.simp_base.specs.WorkState.{IsWork};
ghost use Rattle.simp_base.specs.Log.{GrowsLog};
ghost use Rattle.simp_add.specs.Counted.{IsClear};
ghost use Rattle.simp_add.specs.Stages.{WasStepped};
ghost use Rattle.simp_add.specs.Ends.{Ends};

use crate::numbers::numbers_of;
use crate::partner::partner_of;
use crate::replacement::replace;
use crate::shared::shared_of;
use crate::tally::Tally;
use drat_text::{LineOut, LineStop};
use sat_words::Lit;
use simp_base::{Run, Work};

/// The greatest variable that a literal may have.
const HIGHEST_VAR: u32 = 1 << 30;

/// How a literal's turn ended.
#[derive(Clone, Copy)]
pub(crate) enum Ending {
    /// It is over.
    Over,
    /// The literal has a partner, and there is no variable left.
    NoVariable,
}

/// Gives the literal its turn.
fn take_turn<L: LineOut>(
    work: &mut Work<L>,
    lit: Lit,
    tally: &mut Tally,
) -> Result<Ending, LineStop>
    requires unspent { work.old.output.spent ≡ false }
    requires going { work.old.ended ≡ false }
    requires plain { has_hints work.old.output.format ≡ false }
    requires work { IsWork work.old }
    requires on { IsOn work.old.vars lit }
    requires wide { length tally.old.counts.items ≡ 2 * (work.old.vars + 1) }
    requires clear { IsClear tally.old.counts.items }
    requires none { length tally.old.touched.items ≡ 0 }
    ensures stepped { WasStepped work.old work.new lit result }
    ensures work { IsWork work.new }
    ensures wide { IfOk result (λ e. e ≡ Ending.Over → length tally.new.counts.items ≡ 2 * (work.new.vars + 1)) }
    ensures clear { OnOk result (IsClear tally.new.counts.items) }
    ensures none { OnOk result (length tally.new.touched.items ≡ 0) }
{
    let numbers = numbers_of(work, lit)?;
    let Some(partner) = partner_of(work, lit, numbers.as_slice(), tally)? else {
        return Ok(Ending::Over);
    };
    let shared = shared_of(work, lit, partner, numbers.as_slice())?;
    if tally.widen().is_err() {
        return Err(LineStop::Memory);
    }
    let Some(fresh) = work.fresh()? else {
        return Ok(Ending::NoVariable);
    };
    match replace(work, fresh, lit, partner, &shared) {
        Ok(()) => Ok(Ending::Over),
        Err(stop) => Err(stop),
    }
}

/// The literal of this code, if it is on the variables up to this one.
fn literal_of(code: u32, vars: u32) -> Option<Lit>
    requires { 2 ≤ code }
    ensures some { IfSome result (λ l. (l ≡ literal_of code) × IsOn vars l) }
    ensures none { IfNone result ((vars < (literal_of code).var) ⊎ (2 ^ 30 < (literal_of code).var)) }
{
    let var = code / 2;
    if var > vars || var > HIGHEST_VAR {
        None
    } else {
        Some(Lit::new(var, code % 2 == 1))
    }
}

/// Looks for a partner of each literal, ascending by code, each looked at once, and those of new variables too: a set of others
/// is common to the two if with either of them it is a clause that is alive. If there are three common sets or more, the
/// clauses of the two with these sets are replaced by those of a new variable. It ends early if there is no variable left.
///
/// The clauses that are added have no hints, so that the proof's format must not have them. It never answers that the clauses are
/// refuted. After an error the work serves only to give the line output back.
pub fn run<L: LineOut>(work: &mut Work<L>) -> Result<Run, LineStop>
    requires unspent { work.old.output.spent ≡ false }
    requires going { work.old.ended ≡ false }
    requires plain { has_hints work.old.output.format ≡ false }
    ensures ends { Ends work.old work.new result }
    ensures log { GrowsLog work.old work.new }
    ensures work { IsWork work.new }
{
    let _clauses = work.clauses();
    let Ok(made) = Tally::new(work.alloc(), work.vars()) else {
        return Err(LineStop::Memory);
    };
    let mut tally = made;
    for code in 2..u32::MAX {
        let Some(lit) = literal_of(code, work.vars()) else {
            return Ok(Run::Done);
        };
        match take_turn(work, lit, &mut tally) {
            Ok(Ending::Over) => {}
            Ok(Ending::NoVariable) => return Ok(Run::Done),
            Err(stop) => return Err(stop),
        }
    }
    Ok(Run::Done)
}
