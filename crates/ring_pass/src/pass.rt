ghost use Rattle.std.specs.Prelude.{◌≡◌, [], ◌∷◌, true, false, Some, None, IfOk, IfErr, map, ℕ};
ghost use Rattle.sat_words.specs.declared.shared.NoRoom.{NoRoom};
ghost use Rattle.ring_port.specs.declared.stops.PortStop.TheVariants.{NoHole};
ghost use Rattle.ring_port.specs.Port.{is_usable};
ghost use Rattle.ring_port.specs.PortState.{Holding, IsPort, HoldsStart};
ghost use Rattle.share_rule.specs.FirstWords.{addresses};
ghost use Rattle.share_rule.specs.Passes.{IsPassOf};
ghost use Rattle.share_rule.specs.Seen.{Seen};
ghost use Rattle.share_rule.specs.Steps.{new_part};
ghost use Rattle.share_rule.specs.Tight.{IsTight};
ghost use Rattle.share_rule.specs.Views.{only};
ghost use Rattle.ring_pass.specs.Refusals.{last_refusal};
ghost use Rattle.ring_pass.specs.RingState.{Own, HasListed, port_of, home_of, begun_as};

use crate::numbers::no_numbers;
use crate::spares::Spares;
use crate::waiting::Waiting;
use io_edge::Sink;
use log_book::Book;
use ring_port::{Gate, PortStop};
use sat_words::{Cref, Lit};
use share_rule::{Pass, Shared};
use std::alloc::{AllocFailed, Global};
use std::marker::Model;

/// The port of one ring over its pass of the shared table, with its gate and the runtime for waiting.
#[derive(Drop)]
pub struct RingPass<'a, S: Sink, G: Gate, H> {
    pub(crate) table: &'a Shared<Book<S>>,
    pub(crate) gate: &'a G,
    pub(crate) rt: &'a H,
    pub(crate) alloc: Global,
    pub(crate) pass: Pass<Book<S>>,
    pub(crate) ring: u32,
    pub(crate) start: &'a [Cref],
    pub(crate) seen: Vec<Lit>,
    pub(crate) arrived: Vec<Lit>,
    pub(crate) passed: usize,
    pub(crate) waiting: Vec<Waiting>,
    pub(crate) spares: Spares,
    pub(crate) last: Option<Cref>,
    pub(crate) learned: u64,
    pub(crate) polled: u64,
    pub(crate) refused: Option<PortStop>,
    pub(crate) taken: Vec<Cref>,
    pub(crate) ended: bool,
    pub(crate) hinted: bool,
    pub(crate) numbers: Vec<u64>,
}

impl<'a, S: Sink, G: Gate, H> Model for RingPass<'a, S, G, H> {
    ghost use Rattle.std.specs.Prelude.{vec_capacity};
    ghost use Rattle.ring_port.specs.PortState.{PortState};
    ghost use Rattle.share_rule.specs.Views.{only};
    ghost use Rattle.ring_pass.specs.RingState.{port_of, home_of, IsRingPass, HasRoom, HasUnits, CanOffer};

    ghost Value = { PortState };

    ghost view = { λ p. port_of p.pass.me.0 (record {
      arrived = p.arrived.items;
      passed = p.passed;
      last = p.last;
      polled = p.polled;
      refused = p.refused;
      taken = p.taken.items;
      ended = p.ended;
      hinted = p.hinted;
      numbers = p.numbers.items;
      home = home_of p.pass;
    }) };

    ghost invariant = { λ p. IsRingPass p.table.now p.pass p.ring p.start.now (record {
      arrived = p.arrived.items;
      passed = p.passed;
      last = p.last;
      polled = p.polled;
      refused = p.refused;
      taken = p.taken.items;
      ended = p.ended;
      hinted = p.hinted;
      numbers = p.numbers.items;
      home = home_of p.pass;
    }) × HasRoom (only p.pass.me.0) p.pass.me.0.opening.rings p.last p.waiting.items (vec_capacity p.waiting)
        × HasUnits (only p.pass.me.0) p.pass.me.0.layout.vars p.seen.items (vec_capacity p.seen) (vec_capacity p.arrived)
        × CanOffer (only p.pass.me.0) p.pass.me.0.opening p.last p.spares };
}

impl<'a, S: Sink, G: Gate, H> RingPass<'a, S, G, H> {
    /// The port of the ring that has this pass, whose grant it has taken and nothing else done. `start` has the addresses of
    /// the start clauses, in their order; `hinted` says whether additions to the log have hints. Room is taken for all units that
    /// may ever be listed, and for their numbers; refused for memory it gives the pass back.
    pub fn new(
        alloc: Global,
        table: &'a Shared<Book<S>>,
        gate: &'a G,
        rt: &'a H,
        pass: Pass<Book<S>>,
        ring: u32,
        hinted: bool,
        start: &'a [Cref],
    ) -> Result<RingPass<'a, S, G, H>, AllocFailed<Pass<Book<S>>>>
        requires pass { IsPassOf table.now pass × (pass.me.1 ≡ []) }
        requires hinted { hinted ≡ pass.me.0.opening.hinted }
        requires granted { pass.me.0.parts ≡ new_part pass.me.0.opening ring ∷ [] }
        requires start { start.now ≡ addresses pass.me.0.opening.starts }
        ensures made { IfOk result (λ port. port ≡ begun_as pass.me.0 ring (home_of pass)) }
        ensures holds { IfOk result (λ port. HoldsStart port) }
        ensures port { IfOk result (λ port. IsPort port) }
        ensures back { IfErr result (λ refused. refused.value ≡ pass) }
    {
        let room = 2 * table.layout.vars as usize;
        let Ok(seen) = Vec::with_capacity(alloc, room) else {
            return Err(AllocFailed { value: pass });
        };
        let Ok(arrived) = Vec::with_capacity(alloc, room) else {
            return Err(AllocFailed { value: pass });
        };
        let Ok(numbers) = no_numbers(alloc, table.layout.vars) else {
            return Err(AllocFailed { value: pass });
        };
        Ok(RingPass {
            table,
            gate,
            rt,
            alloc,
            pass,
            ring,
            start,
            seen,
            arrived,
            passed: 0,
            waiting: Vec::new(alloc),
            spares: Spares {
                buffers: Vec::new(alloc),
                longest: 0,
                places: [0; 4],
            },
            last: None,
            learned: 0,
            polled: 0,
            refused: None,
            taken: Vec::new(alloc),
            ended: false,
            hinted,
            numbers,
        })
    }

    /// The addresses of the start clauses, in their order.
    pub fn start(&self) -> &'a [Cref]
        ensures { result.now ≡ map (λ (h : Holding). record { address = h.address }) self.now.start }
    {
        self.start
    }

    /// The pass, at the end. What is known of the port is known of the pass, which is of the same table as the other one.
    ///
    /// The answer that refused last is what the log's turns refused this ring last: a turn notes its refusals in the pass as it
    /// is given back. So except for want of memory the last refusal is one that a turn made, though a body may repeat it, or ask
    /// a broken log again after its own write failed. If it was for want of room, the table had none. A lone ring was told of a
    /// failed write exactly if the port was refused for a fault.
    ///
    /// However its calls ended, the ring has no cell under construction, and each unit that its entries add is listed: a clause
    /// whose line stands gets its cell in the same call, and a unit whose line stands is listed in the same call.
    pub fn into_pass(self, table: &Shared<Book<S>>, _other: &Pass<Book<S>>) -> Pass<Book<S>>
        requires other { IsPassOf table.now _other.now }
        requires home { self.home ≡ home_of _other.now }
        ensures pass { IsPassOf table.now result × (result.me.1 ≡ []) }
        ensures ring { (result.me.0.parts ≡ only result.me.0 ∷ []) × ((only result.me.0).turn ≡ None) }
        ensures state { (o : Own) × (port_of result.me.0 o ≡ self.entry) }
        ensures ended { self.entry.ended ≡ true → (only result.me.0).ended ≡ true }
        ensures refused { self.entry.refused ≡ last_refusal (only result.me.0) }
        ensures room { (s : Seen result.me.0) (lack : NoRoom) → self.entry.refused ≡ Some (NoHole lack) → IsTight result.me.0.layout s.core.opening s.core.journal lack.need lack.largest }
        ensures faulty { is_usable self.entry.refused ≡ false → (only result.me.0).failed ≡ true }
        ensures alone { result.me.0.opening.rings ≡ 1 → (only result.me.0).failed ≡ true → is_usable self.entry.refused ≡ false }
        ensures built { (only result.me.0).core.making ≡ [] }
        ensures listed { HasListed (only result.me.0) }
    {
        let RingPass { pass, .. } = self;
        pass
    }
}
