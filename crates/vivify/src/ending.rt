// How the walk over a clause's literals ends, and the hints that are found there.
ghost use Rattle.std.specs.Prelude.{◌≡◌, ◌<◌, true, length, IsSome, List};
ghost use Rattle.sat_words.specs.Literal.{Literal};
ghost use Rattle.ring_port.specs.PortState.{clause_at, held_at, lits_at};
ghost use Rattle.ring_port.specs.Port.{AreHints};
ghost use Rattle.ring_trail.specs.Reasoned.{IsReasoned};
ghost use Rattle.analyze.specs.HintOrder.{AreInTrailOrder};
ghost use Rattle.vivify.specs.Ending.{CanTrace};

use analyze::Analysis;
use ring_port::Port;
use ring_trail::Trail;
use sat_words::{Cref, Lit};

/// Why no more of a clause's literals is kept.
#[derive(Clone, Copy)]
pub(crate) enum Ending {
    /// Those kept, taken to be false, make another clause false, which is this one.
    Conflict(Cref),
    /// The literal kept last is true if those kept before it are false.
    True(Lit),
    /// All are taken: those left out are false if those kept are.
    Taken,
}

/// Finds hints for what is kept of a clause, on the trail on which the walk over it ended, unless all of it is kept.
pub(crate) fn trace_shorter<P: Port>(
    port: &mut P,
    trail: &Trail,
    analysis: &mut Analysis,
    kept: &[Lit],
    c: Cref,
    ending: Ending,
)
    requires held { IsSome (held_at (P.state port.old) c.address) }
    requires vars { trail.now.vars ≡ analysis.old.vars }
    requires reasoned { IsReasoned (clause_at (P.state port.old)) (P.state port.old).seen trail.now.steps }
    requires can { CanTrace (P.state port.old) trail.now kept.now c ending }
    ensures same { P.state port.new ≡ P.state port.old }
    ensures vars { analysis.new.vars ≡ analysis.old.vars }
    ensures hints { length kept.now < length (lits_at (P.state port.old) c.address) → AreHints (P.state port.old) kept.now analysis.new.hints }
    ensures order { length kept.now < length (lits_at (P.state port.old) c.address) → (P.state port.old).hinted ≡ true
        → (last : List Literal) × AreInTrailOrder (P.state port.old) trail.now.steps last analysis.new.hints }
{
    if kept.len() == port.shape(c).size as usize {
        return;
    }
    trace_ending(port, trail, analysis, kept, c, ending);
}

/// Finds hints for what is kept of a clause.
fn trace_ending<P: Port>(
    port: &mut P,
    trail: &Trail,
    analysis: &mut Analysis,
    kept: &[Lit],
    c: Cref,
    ending: Ending,
)
    requires vars { trail.now.vars ≡ analysis.old.vars }
    requires reasoned { IsReasoned (clause_at (P.state port.old)) (P.state port.old).seen trail.now.steps }
    requires can { CanTrace (P.state port.old) trail.now kept.now c ending }
    ensures same { P.state port.new ≡ P.state port.old }
    ensures vars { analysis.new.vars ≡ analysis.old.vars }
    ensures hints { AreHints (P.state port.old) kept.now analysis.new.hints }
    ensures order { (P.state port.old).hinted ≡ true → (last : List Literal) × AreInTrailOrder (P.state port.old) trail.now.steps last analysis.new.hints }
{
    match ending {
        Ending::Conflict(conflict) => analysis.trace_clause(port, trail, kept, conflict),
        Ending::True(lit) => {
            let Some(place) = trail.place(lit.var()) else {
                // `can`: it is true
                unreachable!();
            };
            analysis.trace_literal(port, trail, kept, place);
        }
        Ending::Taken => analysis.trace_clause(port, trail, kept, c),
    }
}
