// Whose end counts, and the answer that it gives.
ghost use Rattle.std.specs.Prelude.{◌≡◌, ◌≤◌, ◌⊎◌, All, length, take, IfNone, IfSome};
ghost use Rattle.std.specs.Option.{option_map};
ghost use Rattle.portfolio_run.specs.Ends.{AreEndsOf, IsWonBy};
ghost use Rattle.portfolio_run.specs.Searched.{answer_of, AllSpent, IsMended, WasWon};
ghost use Rattle.portfolio_run.specs.Seats.{IsAtRest, IsSameTable};

use crate::answer::Answer;
use model_stack::Stack;
use ring_run::{Counts, End};
use sat_words::{Assignment, Formula, Stop};
use share_rule::{Ledger, Pass, Shared};
use stop_word::look;

/// The ring that set the stop.
fn ring_of(stop: Option<Stop>) -> Option<u32>
    ensures { result ≡ option_map (λ s. s.ring) stop }
{
    match stop {
        None => None,
        Some(stop) => Some(stop.ring),
    }
}

/// The ring whose end counts, once all passes are gathered: that which set the stop. If none did, every ring is spent.
fn winner<B: Ledger>(table: &Shared<B>, first: &mut Pass<B>, _ends: &[(End, Counts)]) -> Option<u32>
    requires first { IsAtRest table.now first.old }
    requires many { length _ends.now ≡ first.old.me.0.opening.rings }
    requires ends { AreEndsOf first.old.me.0 _ends.now }
    ensures first { IsAtRest table.now first.new }
    ensures same { IsSameTable first.old.me.0 first.new.me.0 × (first.new.me.0.parts ≡ first.old.me.0.parts) }
    ensures ends { AreEndsOf first.new.me.0 _ends.now }
    ensures spent { IfNone result (All (λ e. e.0 ≡ End.Spent) _ends.now) }
    ensures won { IfSome result (λ ring. IsWonBy first.new.me.0 _ends.now ring) }
{
    let stop = look(table, first);
    ring_of(stop)
}

/// The values of the first variables, as many as there are in `values`, in their place. It takes no memory.
fn cut(values: Assignment, vars: u32, model: &Assignment) -> Assignment
    requires long { length values ≡ vars }
    requires in_range { vars ≤ length model.now }
    ensures { result ≡ take vars model.now }
{
    let mut values = values;
    for taken in 0..vars {
        values.set(taken + 1, model.value(taken + 1));
    }
    values
}

/// The answer of an end: a model is mended by the stack, and then has no values but those of the formula's variables.
/// `values` is the room for them.
fn answer_of(formula: &Formula, stack: &Stack, values: Assignment, end: End) -> Answer
    requires long { length values ≡ formula.now.vars }
    requires mended { IsMended formula.now.vars stack.now end }
    ensures { result ≡ answer_of formula.now.vars stack.now end }
{
    match end {
        End::Sat(model) => {
            let mut model = model;
            stack.extend(&mut model);
            Answer::Sat(cut(values, formula.vars(), &model))
        }
        End::Refuted => Answer::Unsat,
        End::Spent | End::Stopped(_) => Answer::Unknown,
        End::NoHole(lack) => Answer::NoHole(lack),
        End::ProofFault => Answer::ProofFault,
        End::Memory => Answer::Memory,
    }
}

/// The answer, once all passes are gathered. `values` is the room for those of a model.
pub(crate) fn decide<B: Ledger>(
    table: &Shared<B>,
    first: &mut Pass<B>,
    formula: &Formula,
    stack: &Stack,
    values: Assignment,
    ends: Vec<(End, Counts)>,
) -> Answer
    requires first { IsAtRest table.now first.old }
    requires many { length ends.items ≡ first.old.me.0.opening.rings }
    requires ends { AreEndsOf first.old.me.0 ends.items }
    requires long { length values ≡ formula.now.vars }
    requires mended { All (λ e. IsMended formula.now.vars stack.now e.0) ends.items }
    ensures first { IsAtRest table.now first.new }
    ensures same { IsSameTable first.old.me.0 first.new.me.0 × (first.new.me.0.parts ≡ first.old.me.0.parts) }
    ensures ends { AreEndsOf first.new.me.0 ends.items }
    ensures decided { AllSpent ends.items result ⊎ WasWon first.new.me.0 formula.now.vars stack.now ends.items result }
{
    match winner(table, first, ends.as_slice()) {
        None => Answer::Unknown,
        Some(ring) => {
            let mut ends = ends;
            let (end, _) = ends.swap_remove(ring as usize);
            answer_of(formula, stack, values, end)
        }
    }
}
