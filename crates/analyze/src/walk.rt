//! The walk back from a conflict to its first unique implication point (Marques-Silva and Sakallah 1999). Down along the
//! trail, each marked place of the conflict's level is resolved: those of its reason are marked, until one is left. The
//! walk must mark exactly the places that the conflict leads to.
ghost use Rattle.std.specs.Prelude.{◌≡◌, ◌≤◌, IsSome, false, ◌∷◌, [], length, if◌then◌else◌};
ghost use Rattle.ring_port.specs.PortState.{held_at, lits_at, clause_at};
ghost use Rattle.ring_trail.specs.TrailData.{IsTrail, IsFalseClause};
ghost use Rattle.ring_trail.specs.Reasoned.{IsReasoned};
ghost use Rattle.analyze.specs.Levels.{clause_level};
ghost use Rattle.analyze.specs.MarksData.{all_blank};
ghost use Rattle.analyze.specs.Marks.{IsMarking, IsWalked, CanMark, CanMarkAll, HasMarked};

use crate::marks::Marks;
use ring_port::Port;
use ring_trail::Trail;
use sat_words::{Cref, Lit};

/// The greatest level of a false clause's literals.
pub(crate) fn level_of_clause<P: Port>(port: &mut P, trail: &Trail, c: Cref) -> u32
    requires held { IsSome (held_at (P.state port.old) c.address) }
    requires conflict { IsFalseClause trail.now.steps (lits_at (P.state port.old) c.address) }
    ensures same { P.state port.new ≡ P.state port.old }
    ensures shape { IsTrail trail.now }
    ensures level { result ≡ clause_level trail.now.steps (lits_at (P.state port.old) c.address) }
{
    let _places = trail.len();
    let size = port.head(c).size;
    let mut most: u32 = 0;
    for i in 0..size {
        let lit = port.read_lit(c, i);
        most = most.max(trail.level(lit.var()).unwrap_or(0));
    }
    most
}

/// Marks the literal's place if it is below `bound` and above level 0. Answers whether it is newly marked and of this level.
fn mark(trail: &Trail, lit: Lit, bound: u32, level: u32, marks: &mut Marks<bool>) -> bool
    requires shape { IsTrail trail.now }
    requires can { CanMark trail.now.steps level bound lit }
    requires bound { bound ≤ length trail.now.steps }
    requires marking { IsMarking trail.now.steps trail.now.vars level marks.old }
    ensures marking { IsMarking trail.now.steps trail.now.vars level marks.new }
    ensures marks { HasMarked trail.now.steps level marks.old.values marks.new.values bound (lit ∷ []) (if result then 1 else 0) }
{
    let Some(place) = trail.place(lit.var()) else {
        // `can`: the literal is false, or is the one at the bound
        unreachable!();
    };
    if place >= bound || marks.at(place) {
        return false;
    }
    let at = trail.level_at(place);
    if at == 0 {
        return false;
    }
    marks.mark(place, true);
    at == level
}

/// Marks the places of a clause's literals that are below `bound` and above level 0. Answers how many of them are newly marked
/// and of this level.
pub(crate) fn mark_clause<P: Port>(
    port: &mut P,
    trail: &Trail,
    c: Cref,
    bound: u32,
    level: u32,
    marks: &mut Marks<bool>,
) -> u32
    requires held { IsSome (held_at (P.state port.old) c.address) }
    requires shape { IsTrail trail.now }
    requires can { CanMarkAll trail.now.steps level bound (lits_at (P.state port.old) c.address) }
    requires bound { bound ≤ length trail.now.steps }
    requires marking { IsMarking trail.now.steps trail.now.vars level marks.old }
    ensures same { P.state port.new ≡ P.state port.old }
    ensures marking { IsMarking trail.now.steps trail.now.vars level marks.new }
    ensures marks { HasMarked trail.now.steps level marks.old.values marks.new.values bound (lits_at (P.state port.old) c.address) result }
{
    let size = port.head(c).size;
    let mut count: u32 = 0;
    for i in 0..size {
        let lit = port.read_lit(c, i);
        if mark(trail, lit, bound, level, marks) {
            count += 1;
        }
    }
    count
}

/// The first unique implication point: of the places that every path from the level's decision to the conflict goes through,
/// the one nearest to the conflict. `marks` lists what the walk down to it marked.
pub(crate) fn find_first_uip<P: Port>(
    port: &mut P,
    trail: &Trail,
    conflict: Cref,
    level: u32,
    marks: &mut Marks<bool>,
) -> u32
    requires held { IsSome (held_at (P.state port.old) conflict.address) }
    requires shape { IsTrail trail.now }
    requires conflict { IsFalseClause trail.now.steps (lits_at (P.state port.old) conflict.address) }
    requires level { level ≡ clause_level trail.now.steps (lits_at (P.state port.old) conflict.address) }
    requires above { 1 ≤ level }
    requires reasoned { IsReasoned (clause_at (P.state port.old)) (P.state port.old).seen trail.now.steps }
    requires blank { marks.old ≡ all_blank trail.now.vars false }
    ensures same { P.state port.new ≡ P.state port.old }
    ensures marking { IsMarking trail.now.steps trail.now.vars level marks.new }
    ensures walked { IsWalked (clause_at (P.state port.old)) trail.now.steps level (lits_at (P.state port.old) conflict.address) marks.new.values result }
{
    let mut place = trail.len();
    let mut open = mark_clause(port, trail, conflict, place, level, marks);
    'places: loop {
        place -= 1;
        if marks.at(place) && trail.level_at(place) == level {
            if open == 1 {
                return place;
            }
            let Some(reason) = trail.reason_at(place) else {
                // `reasoned`: another place of the level is open before it, so it was not decided
                unreachable!();
            };
            let more = mark_clause(port, trail, reason, place, level, marks);
            open = open - 1 + more;
        }
    }
}
