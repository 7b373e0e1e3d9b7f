//! The reason side of a lemma: the other literals in the reasons of its literals, one level deep. Their variables are
//! bumped with those of the walk (Liang, Ganesh, Poupart and Czarnecki 2016; CaDiCaL, Biere), since lemmas soon to come are
//! likely to have them. These marks are not the walk's, so minimisation must be done before.
ghost use Rattle.std.specs.Prelude.{◌≡◌, ◌∷◌, [], All};
ghost use Rattle.ring_port.specs.PortState.{clause_at};
ghost use Rattle.ring_trail.specs.TrailData.{IsTrail};
ghost use Rattle.ring_trail.specs.Reasoned.{IsReasoned};
ghost use Rattle.analyze.specs.Marks.{IsMarking};
ghost use Rattle.analyze.specs.ReasonSide.{IsUpTo, HasMarkedReasons};

use crate::marks::Marks;
use crate::walk::mark_clause;
use ring_port::Port;
use ring_trail::Trail;

/// Marks the places of the other literals in the reason of a place, if it has one.
fn mark_reason<P: Port>(
    port: &mut P,
    trail: &Trail,
    place: u32,
    level: u32,
    marks: &mut Marks<bool>,
)
    requires shape { IsTrail trail.now }
    requires reasoned { IsReasoned (clause_at (P.state port.old)) (P.state port.old).seen trail.now.steps }
    requires place { IsUpTo trail.now.steps level place }
    requires marking { IsMarking trail.now.steps trail.now.vars level marks.old }
    ensures same { P.state port.new ≡ P.state port.old }
    ensures marking { IsMarking trail.now.steps trail.now.vars level marks.new }
    ensures marks { HasMarkedReasons (clause_at (P.state port.old)) trail.now.steps marks.old.values marks.new.values (place ∷ []) }
{
    if let Some(reason) = trail.reason_at(place) {
        mark_clause(port, trail, reason, place, level, marks);
    }
}

/// Marks the places of the other literals in the reasons of the lemma's literals: the point's, and those of lower levels.
pub(crate) fn mark_reason_side<P: Port>(
    port: &mut P,
    trail: &Trail,
    point: u32,
    kept_places: &[u32],
    level: u32,
    marks: &mut Marks<bool>,
)
    requires shape { IsTrail trail.now }
    requires reasoned { IsReasoned (clause_at (P.state port.old)) (P.state port.old).seen trail.now.steps }
    requires point { IsUpTo trail.now.steps level point }
    requires lower { All (IsUpTo trail.now.steps level) kept_places.now }
    requires marking { IsMarking trail.now.steps trail.now.vars level marks.old }
    ensures same { P.state port.new ≡ P.state port.old }
    ensures marking { IsMarking trail.now.steps trail.now.vars level marks.new }
    ensures marks { HasMarkedReasons (clause_at (P.state port.old)) trail.now.steps marks.old.values marks.new.values (point ∷ kept_places.now) }
{
    mark_reason(port, trail, point, level, marks);
    for place in kept_places {
        mark_reason(port, trail, *place, level, marks);
    }
}
