// The offer of the clause learned last.
ghost use Rattle.std.specs.Prelude.{◌≡◌, ℕ, ◌+◌, ◌<◌, ◌≤◌, None, Some, IsSome, length, vec_capacity, [], ◌∷◌};
ghost use Rattle.share_core.specs.declared.event.TheConstants.{MAX_SHARES};
ghost use Rattle.share_rule.specs.Passes.{IsPassOf, IsSamePass};
ghost use Rattle.share_rule.specs.Views.{IsHolding, clause_of, only};
ghost use Rattle.share_rule.specs.Exchanges.{IsRing, IsOther};
ghost use Rattle.ring_port.specs.PortState.{IsPort, held_at};
ghost use Rattle.ring_port.specs.Log.{KeepsLog};
ghost use Rattle.ring_port.specs.Exchange.{class_at, other_rings, OfferedAs};
ghost use Rattle.ring_pass.specs.RingState.{AreShort};
ghost use Rattle.ring_pass.specs.Offering.{others, CanTakeBack, PutFor, GaveBack};

use crate::literals::read_clause;
use crate::pass::RingPass;
use crate::spares::Spares;
use crate::waiting::Waiting;
use io_edge::Sink;
use pool_exchange::put;
use ref_count::{drop_count, read_head, share};
use ring_port::{Gate, Point, class_of};
use sat_words::Cref;
use share_rule::{Ledger, Pass, Shared};

/// What a ring offers, and the gate that it passes.
#[derive(Drop)]
struct Offering<'a, G> {
    /// The gate.
    gate: &'a G,
    /// The ring.
    ring: u32,
    /// How many clauses it has learned.
    learned: u64,
    /// The clause.
    cell: Cref,
    /// Its class.
    class: u8,
    /// The place of the slots that it goes into.
    place: u32,
}

/// Gives up the count of a clause that came back. If nobody holds it any more it waits, with its number and its literals,
/// which are read before.
fn give_back<B: Ledger, G: Gate>(
    table: &Shared<B>,
    pass: &mut Pass<B>,
    offering: &Offering<'_, G>,
    cell: Cref,
    waiting: &mut Vec<Waiting>,
    spares: &mut Spares,
)
    requires pass { IsPassOf table.now pass.old }
    requires held { IsHolding cell.address pass.old.me.0 }
    requires turn { (only pass.old.me.0).turn ≡ None }
    requires short { length (clause_of cell.address pass.old.me.0).lits ≤ spares.old.longest }
    requires room { CanTakeBack (only pass.old.me.0) waiting.old.items (vec_capacity waiting.old) spares.old 1 }
    ensures pass { IsPassOf table.now pass.new × IsSamePass pass.old pass.new }
    ensures given { (found : ℕ) × GaveBack pass.old.me.0 pass.new.me.0 cell.address found }
    ensures room { (n : ℕ) → CanTakeBack (only pass.old.me.0) waiting.old.items (vec_capacity waiting.old) spares.old (n + 1) → CanTakeBack (only pass.new.me.0) waiting.new.items (vec_capacity waiting.new) spares.new n }
    ensures longest { (spares.new.longest ≡ spares.old.longest) × (spares.new.places ≡ spares.old.places) }
{
    let head = read_head(table, pass, cell);
    let mut lits = spares.buffers.take_last();
    read_clause(table, pass, cell, head.size, &mut lits);
    match drop_count(table, pass, cell) {
        ref_count::Dropped::Left => {
            lits.clear();
            spares.buffers.push_reserved(lits);
        }
        ref_count::Dropped::Last => {
            waiting.push_reserved(Waiting {
                cell,
                number: head.number,
                lits,
            });
            offering
                .gate
                .at(offering.ring, Point::Dropped, offering.learned);
        }
    }
}

/// Puts the clause for one other ring. What comes back is given up.
fn put_for<B: Ledger, G: Gate>(
    table: &Shared<B>,
    pass: &mut Pass<B>,
    offering: &Offering<'_, G>,
    to: u32,
    waiting: &mut Vec<Waiting>,
    spares: &mut Spares,
)
    requires pass { IsPassOf table.now pass.old }
    requires ring { IsRing offering.now.ring pass.old.me.0 }
    requires to { IsOther to pass.old.me.0 }
    requires class { offering.now.class < 4 }
    requires place { offering.now.place < table.now.layout.depth }
    requires held { IsHolding offering.now.cell.address pass.old.me.0 }
    requires turn { (only pass.old.me.0).turn ≡ None }
    requires shares { (only pass.old.me.0).core.shared < MAX_SHARES }
    requires short { AreShort spares.old.longest (only pass.old.me.0).gave × (length (clause_of offering.now.cell.address pass.old.me.0).lits ≤ spares.old.longest) }
    requires room { CanTakeBack (only pass.old.me.0) waiting.old.items (vec_capacity waiting.old) spares.old 1 }
    ensures pass { IsPassOf table.now pass.new × IsSamePass pass.old pass.new }
    ensures put { PutFor pass.old.me.0 pass.new.me.0 offering.now.class offering.now.place offering.now.cell.address (to ∷ []) }
    ensures room { (n : ℕ) → CanTakeBack (only pass.old.me.0) waiting.old.items (vec_capacity waiting.old) spares.old (n + 1) → CanTakeBack (only pass.new.me.0) waiting.new.items (vec_capacity waiting.new) spares.new n }
    ensures longest { (spares.new.longest ≡ spares.old.longest) × (spares.new.places ≡ spares.old.places) }
{
    share(table, pass, offering.cell);
    let back = put(
        table,
        pass,
        offering.ring,
        to,
        offering.class,
        offering.place,
        offering.cell,
    );
    offering
        .gate
        .at(offering.ring, Point::Put, offering.learned);
    match back {
        None => {}
        Some(cell) => give_back(table, pass, offering, cell, waiting, spares),
    }
}

/// Puts the clause for each other ring, and answers for how many.
fn put_for_all<B: Ledger, G: Gate>(
    table: &Shared<B>,
    pass: &mut Pass<B>,
    offering: &Offering<'_, G>,
    waiting: &mut Vec<Waiting>,
    spares: &mut Spares,
) -> u64
    requires pass { IsPassOf table.now pass.old }
    requires ring { IsRing offering.now.ring pass.old.me.0 }
    requires class { offering.now.class < 4 }
    requires place { offering.now.place < table.now.layout.depth }
    requires held { IsHolding offering.now.cell.address pass.old.me.0 }
    requires turn { (only pass.old.me.0).turn ≡ None }
    requires shares { (only pass.old.me.0).core.shared + length (others offering.now.ring table.now.layout.rings) ≤ MAX_SHARES }
    requires short { AreShort spares.old.longest (only pass.old.me.0).gave × (length (clause_of offering.now.cell.address pass.old.me.0).lits ≤ spares.old.longest) }
    requires room { CanTakeBack (only pass.old.me.0) waiting.old.items (vec_capacity waiting.old) spares.old (length (others offering.now.ring table.now.layout.rings)) }
    ensures pass { IsPassOf table.now pass.new × IsSamePass pass.old pass.new }
    ensures put { PutFor pass.old.me.0 pass.new.me.0 offering.now.class offering.now.place offering.now.cell.address (others offering.now.ring table.now.layout.rings) }
    ensures many { result ≡ length (others offering.now.ring table.now.layout.rings) }
    ensures room { CanTakeBack (only pass.new.me.0) waiting.new.items (vec_capacity waiting.new) spares.new 0 }
    ensures longest { (spares.new.longest ≡ spares.old.longest) × (spares.new.places ≡ spares.old.places) }
{
    let mut puts = 0;
    for to in 0..table.layout.rings {
        if to == offering.ring {
            continue;
        }
        put_for(table, pass, offering, to, waiting, spares);
        puts += 1;
    }
    puts
}

impl<'a, S: Sink, G: Gate, H> RingPass<'a, S, G, H> {
    /// Puts the clause that was learned last if each other ring may get it, once for each, and answers for how many. Those of a
    /// class go into its slots in turn. A clause that it takes the place of is held once less. What is offered stays held.
    pub fn offer(&mut self, c: Cref) -> u64
        requires held { IsSome (held_at self.old c.address) }
        requires last { self.old.last ≡ Some c.address }
        requires class { IsSome (class_at self.old c.address) }
        ensures offered { OfferedAs self.old self.new (class_at self.old c.address) c.address }
        ensures many { result ≡ length (other_rings self.old) }
        ensures log { KeepsLog self.old self.new }
        ensures port { IsPort self.new }
    {
        let head = read_head(self.table, &mut self.pass, c);
        let Some(class) = class_of(head.size, head.glue) else {
            // `class`: the clause has one
            unreachable!()
        };
        let offering = Offering {
            gate: self.gate,
            ring: self.ring,
            learned: self.learned,
            cell: c,
            class,
            place: self.spares.places[class as usize],
        };
        self.last = None;
        let puts = put_for_all(
            self.table,
            &mut self.pass,
            &offering,
            &mut self.waiting,
            &mut self.spares,
        );
        self.spares.move_on(class, self.table.layout.depth);
        puts
    }
}
