ghost use Rattle.std.specs.Prelude.{◌≡◌, ◌≢◌, ◌<◌, ◌≤◌, ◌∷◌, [], true, false, All, Some, IfSome, IsSome, OnOk, MatchOption, Contains, length, slice_get, ℕ};
ghost use Rattle.sat_words.specs.Literal.{Literal};
ghost use Rattle.sat_words.specs.Values.{first_open};
ghost use Rattle.sat_words.specs.declared.shared.TheConstants.{STOP_SAT, STOP_REFUTED, STOP_MEMORY};
ghost use Rattle.rup_model.specs.Rup.{rup};
ghost use Rattle.ring_port.specs.PortState.{PortState, IsPort, IsOn, held_at, lits_at, head_of, known};
ghost use Rattle.ring_port.specs.Log.{KeepsLog};
ghost use Rattle.ring_port.specs.Port.{is_usable, IsClause, IsFreshClause, AreHints, EndsWith, Learned, IsPartOfHeld, Derived, KeepsHeld, UnitWritten, EmptyWritten, Took, Looked, SetStop};
ghost use Rattle.ring_port.specs.Drawing.{HasDrawn};
ghost use Rattle.ring_port.specs.Deleting.{IsNotTaken, Dropped, Tidied};
ghost use Rattle.ring_port.specs.Reducing.{MayReduce, Noted};
ghost use Rattle.ring_port.specs.Exchange.{class_at, other_rings, OfferedAs, Polled};

use crate::draw::Drawn;
use crate::scan::Shape;
use crate::stops::PortStop;
use sat_words::{Cref, Head, Lit, Set, Stop, Values};

/// The whole outside of a ring: the clauses that it holds, the log that it writes, the units and the stop that it shares
/// with other rings.
///
/// The ring names a clause by its address, and reads it only while it holds it. What is written into the log has to
/// follow by unit propagation (RUP) from the clauses held and the units seen. Of a port that writes alone each call keeps
/// that it stands over one journal (`log`), each line of which is valid where it stands.
pub trait Port {
    /// What contracts see of a port.
    ghost state: { Self → PortState };

    /// The greatest variable, which no call changes.
    fn vars(&self) -> u32
        ensures value { result ≡ (state self.now).vars }
        ensures port { IsPort (state self.now) };

    /// How many slots each two rings have for each class, which no call changes. As the variables it is the port's to know,
    /// so that a ring keeps no copy of it.
    fn depth(&self) -> u32
        ensures value { result ≡ (state self.now).depth }
        ensures port { IsPort (state self.now) };

    /// Whether additions to the log have hints, which no call changes.
    fn has_hints(&self) -> bool
        ensures value { result ≡ (state self.now).hinted }
        ensures port { IsPort (state self.now) };

    /// The number of a unit's clause; none exactly if the port knows no number of it. A unit that is seen has one.
    fn unit_number(&self, lit: Lit) -> Option<u64>
        requires hinted { (state self.now).hinted ≡ true }
        ensures told { MatchOption result ((n : ℕ) → Contains (state self.now).told (lit, n) → ⊥) (λ n. Contains (state self.now).told (lit, n)) }
        ensures port { IsPort (state self.now) };

    /// The size, the glue and the number of a clause that is held.
    fn head(&mut self, c: Cref) -> Head
        requires { IsSome (held_at (state self.old) c.address) }
        ensures value { IfSome (held_at (state self.old) c.address) (λ h. result ≡ head_of h) }
        ensures size { result.size ≡ length (lits_at (state self.old) c.address) }
        ensures same { state self.new ≡ state self.old }
        ensures port { IsPort (state self.new) };

    /// The literal at place `i`, from 0, of a clause that is held.
    fn read_lit(&mut self, c: Cref, i: u32) -> Lit
        requires held { IsSome (held_at (state self.old) c.address) }
        requires inside { i < length (lits_at (state self.old) c.address) }
        ensures value { slice_get (lits_at (state self.old) c.address) i ≡ Some result }
        ensures same { state self.new ≡ state self.old }
        ensures port { IsPort (state self.new) };

    /// The size and the glue of a clause that is held, if its number is not asked for.
    fn shape(&mut self, c: Cref) -> Shape
        requires { IsSome (held_at (state self.old) c.address) }
        ensures size { result.size ≡ length (lits_at (state self.old) c.address) }
        ensures glue { IfSome (held_at (state self.old) c.address) (λ h. result.glue ≡ h.glue) }
        ensures same { state self.new ≡ state self.old }
        ensures port { IsPort (state self.new) }
    {
        let head = self.head(c);
        Shape {
            size: head.size,
            glue: head.glue,
        }
    }

    /// The first literal of a clause that is held which is not false under these values and isn't the other one.
    fn find_open(&mut self, c: Cref, values: &Values, other: Lit) -> Option<Lit>
        requires { IsSome (held_at (state self.old) c.address) }
        ensures first { result ≡ first_open values.now other (lits_at (state self.old) c.address) }
        ensures same { state self.new ≡ state self.old }
        ensures port { IsPort (state self.new) }
    {
        let size = self.head(c).size;
        for i in 0..size {
            let lit = self.read_lit(c, i);
            if values.is_open(other, lit) {
                return Some(lit);
            }
        }
        None
    }

    /// Draws a ticket, with which one lemma may be learned, unless all have been drawn. Rings draw from the same tickets, so that each
    /// draw finds more of them drawn than the ring's last one did. After `Gone` none is left to ask for.
    fn draw(&mut self) -> Drawn
        requires none { (state self.old).ticket ≡ false }
        requires left { (state self.old).found ≤ (state self.old).limit }
        ensures drawn { HasDrawn (state self.old) (state self.new) result }
        ensures log { KeepsLog (state self.old) (state self.new) }
        ensures port { IsPort (state self.new) };

    /// Learns a clause that was found at a conflict: its line is written, and it is held from then on with its literals
    /// in this order. The glue is that of `Head`. Of one literal it is a unit, which has no address and is seen. The clause
    /// contains none that the ring started with, learned or took since it last reduced. It uses the ticket in hand up,
    /// unless it is refused. Hints show that it follows, if the log has any; else none are given.
    fn learn(&mut self, lits: &[Lit], glue: u32, hints: &[u64]) -> Result<Option<Cref>, PortStop>
        requires ticket { (state self.old).ticket ≡ true }
        requires usable { is_usable (state self.old).refused ≡ true }
        requires some { 1 ≤ length lits.now }
        requires clause { IsClause (state self.old).vars lits.now }
        requires rup { rup (known (state self.old)) lits.now ≡ true }
        requires fresh { IsFreshClause (state self.old) lits.now }
        requires hints { AreHints (state self.old) lits.now hints.now }
        ensures hints { OnOk result (EndsWith (state self.new) hints.now) }
        ensures learned { Learned (state self.old) (state self.new) lits.now glue result }
        ensures kept { KeepsHeld (state self.old) (state self.new) }
        ensures log { KeepsLog (state self.old) (state self.new) }
        ensures port { IsPort (state self.new) };

    /// Derives a clause that is a part of one that is held: its line is written, and it is held from then on with its
    /// literals in this order. It counts as none that was learned. Hints as for a clause that is learned.
    fn derive(&mut self, lits: &[Lit], glue: u32, hints: &[u64]) -> Result<Cref, PortStop>
        requires usable { is_usable (state self.old).refused ≡ true }
        requires long { 2 ≤ length lits.now }
        requires clause { IsClause (state self.old).vars lits.now }
        requires rup { rup (known (state self.old)) lits.now ≡ true }
        requires part { IsPartOfHeld (state self.old) lits.now }
        requires hints { AreHints (state self.old) lits.now hints.now }
        ensures hints { OnOk result (EndsWith (state self.new) hints.now) }
        ensures derived { Derived (state self.old) (state self.new) lits.now glue result }
        ensures kept { KeepsHeld (state self.old) (state self.new) }
        ensures log { KeepsLog (state self.old) (state self.new) }
        ensures port { IsPort (state self.new) };

    /// Writes the line of a literal that propagation made true for good, and lists it for the other rings. Hints as for a
    /// clause that is learned.
    fn unit(&mut self, lit: Lit, hints: &[u64]) -> Result<(), PortStop>
        requires usable { is_usable (state self.old).refused ≡ true }
        requires on { IsOn (state self.old).vars lit }
        requires rup { rup (known (state self.old)) (lit ∷ []) ≡ true }
        requires hints { AreHints (state self.old) (lit ∷ []) hints.now }
        ensures hints { OnOk result (EndsWith (state self.new) hints.now) }
        ensures written { UnitWritten (state self.old) (state self.new) lit result }
        ensures log { KeepsLog (state self.old) (state self.new) }
        ensures port { IsPort (state self.new) };

    /// Writes the empty clause, which ends the log. Hints as for a clause that is learned.
    fn empty(&mut self, hints: &[u64]) -> Result<(), PortStop>
        requires usable { is_usable (state self.old).refused ≡ true }
        requires rup { rup (known (state self.old)) [] ≡ true }
        requires hints { AreHints (state self.old) [] hints.now }
        ensures hints { OnOk result (EndsWith (state self.new) hints.now) }
        ensures written { EmptyWritten (state self.old) (state self.new) result }
        ensures log { KeepsLog (state self.old) (state self.new) }
        ensures port { IsPort (state self.new) };

    /// Holds the clause once less. If nobody holds it any more it waits for its deletion. What is given up can't be offered.
    fn drop_clause(&mut self, c: Cref) -> Result<(), PortStop>
        requires held { IsSome (held_at (state self.old) c.address) }
        requires apart { IsNotTaken (state self.old) c.address }
        ensures dropped { Dropped (state self.old) (state self.new) c.address result }
        ensures log { KeepsLog (state self.old) (state self.new) }
        ensures port { IsPort (state self.new) };

    /// Writes the deletion lines of the clauses that wait, in their order. After a refusal those not yet deleted still wait.
    fn tidy(&mut self) -> Result<(), PortStop>
        requires usable { is_usable (state self.old).refused ≡ true }
        ensures tidied { Tidied (state self.old) (state self.new) result }
        ensures log { KeepsLog (state self.old) (state self.new) }
        ensures port { IsPort (state self.new) };

    /// Notes that the ring reduces its clauses: what it learned and took before need not be kept from now on. The log has no
    /// line for it.
    fn note_reduce(&mut self) -> Result<(), PortStop>
        requires usable { is_usable (state self.old).refused ≡ true }
        requires spaced { MayReduce (state self.old) }
        ensures noted { Noted (state self.old) (state self.new) result }
        ensures log { KeepsLog (state self.old) (state self.new) }
        ensures port { IsPort (state self.new) };

    /// Puts the clause that was learned last if each other ring may get it, once for each, and answers for how many. Those
    /// of a class go into its slots in turn, from place 0 on. A clause that it takes the place of is held once less. What
    /// is offered stays held.
    fn offer(&mut self, c: Cref) -> u64
        requires held { IsSome (held_at (state self.old) c.address) }
        requires last { (state self.old).last ≡ Some c.address }
        requires class { IsSome (class_at (state self.old) c.address) }
        ensures offered { OfferedAs (state self.old) (state self.new) (class_at (state self.old) c.address) c.address }
        ensures many { result ≡ length (other_rings (state self.old)) }
        ensures log { KeepsLog (state self.old) (state self.new) }
        ensures port { IsPort (state self.new) };

    /// Takes the clause of a class that another ring has put for this one at a place, from 0, which is held from then on;
    /// none if nothing is there. Either way it looked into that slot once. It is refused for want of memory alone.
    fn poll(&mut self, from: u32, class: u8, place: u32) -> Result<Option<Cref>, PortStop>
        requires other { from ≢ (state self.old).ring }
        requires ring { from < (state self.old).rings }
        requires class { class ≤ 3 }
        requires place { place < (state self.old).depth }
        ensures polled { Polled (state self.old) (state self.new) from class place result }
        ensures kept { KeepsHeld (state self.old) (state self.new) }
        ensures log { KeepsLog (state self.old) (state self.new) }
        ensures port { IsPort (state self.new) };

    /// The next unit that this ring has not been given: one of those listed from the start, or of another ring. Those that were
    /// kept come first. None comes after a look that found no other listed.
    fn next_unit(&mut self) -> Option<Lit>
        ensures took { Took (state self.old) (state self.new) result }
        ensures log { KeepsLog (state self.old) (state self.new) }
        ensures port { IsPort (state self.new) };

    /// The stop that stands, if any.
    fn stopped(&mut self) -> Option<Stop>
        ensures looked { Looked (state self.old) (state self.new) result }
        ensures log { KeepsLog (state self.old) (state self.new) }
        ensures port { IsPort (state self.new) };

    /// Sets this ring's stop, one of the kinds from `STOP_SAT` to `STOP_MEMORY`, if none stands.
    fn stop(&mut self, kind: u8) -> Set
        requires low { STOP_SAT ≤ kind }
        requires high { kind ≤ STOP_MEMORY }
        requires refuted { kind ≡ STOP_REFUTED → (state self.old).ended ≡ true }
        ensures set { SetStop (state self.old) (state self.new) kind result }
        ensures log { KeepsLog (state self.old) (state self.new) }
        ensures port { IsPort (state self.new) };
}
