// The port in memory, which the program never runs: tests search over it, with every byte known to contracts.
ghost use Rattle.std.specs.Prelude.{◌≡◌, false, All, Some, None, IfOk, IfErr, map, List};
ghost use Rattle.sat_words.specs.Literal.{Literal};
ghost use Rattle.sat_words.specs.Clause.{is_empty};
ghost use Rattle.std.specs.List.{list_any};
ghost use Rattle.rup_model.specs.declared.journal.Entry.{Entry};
ghost use Rattle.ring_port.specs.PortState.{Holding, IsPort, IsOn, HoldsStart};
ghost use Rattle.ring_port.specs.Log.{StandsOver};
ghost use Rattle.ring_port.specs.PlainPort.{OpensOver, CanOpen, starts_of, unit_lits, begun_with};

use crate::draw::Tickets;
use crate::opening_units::{told_in, unit_lits};
use crate::own_log::OwnLog;
use crate::starts::Starts;
use crate::store::Store;
use drat_text::LineOut;
use sat_words::{Cref, Lit, Stop};
use std::alloc::{AllocError, AllocFailed, Global};
use std::marker::Model;

/// The port of one ring in memory, which writes alone.
#[derive(Drop)]
pub struct PlainPort<L: LineOut> {
    pub(crate) alloc: Global,
    pub(crate) vars: u32,
    pub(crate) store: Store,
    pub(crate) opening: Vec<Lit>,
    pub(crate) passed: usize,
    pub(crate) given: Vec<Lit>,
    pub(crate) written: Vec<Lit>,
    /// Additions have hints.
    pub(crate) hinted: bool,
    /// The units of the opening and those written, with the numbers of their clauses, if additions have hints; else none.
    pub(crate) told: Vec<(Lit, u64)>,
    pub(crate) log: OwnLog<L>,
    pub(crate) last: Option<Cref>,
    pub(crate) tickets: Tickets,
    pub(crate) stop: Option<Stop>,
    pub(crate) looks: u64,
    pub(crate) caught_up: u64,
    pub(crate) loads: u64,
}

impl<L: LineOut> Model for PlainPort<L> {
    ghost use Rattle.std.specs.Prelude.{◌-◌, vec_len, vec_capacity};
    ghost use Rattle.ring_port.specs.PlainPort.{PlainView, state_of, IsPlain};

    ghost Value = { PlainView };

    ghost view = { λ p. record {
      loads = p.loads;
      state = state_of (record {
        vars = p.vars;
        start = p.store.start;
        held = p.store.held;
        waiting = p.store.waiting;
        opening = p.opening.items;
        passed = p.passed;
        given = p.given.items;
        given_room = vec_capacity p.given - vec_len p.given;
        written = p.written.items;
        hinted = p.hinted;
        told = p.told.items;
        log = p.log;
        last = p.last;
        tickets = p.tickets;
        stop = p.stop;
        looks = p.looks;
        caught_up = p.caught_up;
      });
    } };

    ghost invariant = { λ p. IsPlain (record {
      vars = p.vars;
      start = p.store.start;
      held = p.store.held;
      waiting = p.store.waiting;
      opening = p.opening.items;
      passed = p.passed;
      given = p.given.items;
      given_room = vec_capacity p.given - vec_len p.given;
      written = p.written.items;
      hinted = p.hinted;
      told = p.told.items;
      log = p.log;
      last = p.last;
      tickets = p.tickets;
      stop = p.stop;
      looks = p.looks;
      caught_up = p.caught_up;
    }) };
}

impl<L: LineOut> PlainPort<L> {
    /// The port of ring 0, of one ring, that holds the start clauses, each under its number, with glue 0, one
    /// after the other. Each has two literals or more and is alive in the log; the units are listed, and have no
    /// line of the ring's. In a log with hints each unit has the number of its clause; in other logs the numbers tell
    /// nothing. The log is continued where the line output stands. So many lemmas may be learned, each with a
    /// ticket. Refused for memory it gives the line output back.
    pub fn new(
        alloc: Global,
        vars: u32,
        starts: Starts,
        units: Vec<(Lit, u64)>,
        output: L,
        limit: u64,
    ) -> Result<PlainPort<L>, AllocFailed<L>>
        requires opening { CanOpen (starts_of starts) units.items (L.told output) }
        requires unspent { (L.told output).spent ≡ false }
        requires starts_on { All (λ s. All (IsOn vars) s.1) starts }
        requires units_on { All (IsOn vars) (unit_lits units.items) }
        ensures made { IfOk result (λ port. port.state ≡ begun_with vars starts units.items (L.told output) limit) }
        ensures stands { IfOk result (λ port. (F : List (List Literal)) (J : List Entry) → OpensOver F (starts_of starts) units.items (L.told output) J → list_any is_empty F ≡ false → StandsOver (record { formula = F; journal = J; output = L.told output }) port.state) }
        ensures holds { IfOk result (λ port. HoldsStart port.state) }
        ensures port { IfOk result (λ port. IsPort port.state) }
        ensures loads { IfOk result (λ port. port.loads ≡ 0) }
        ensures back { IfErr result (λ refused. refused.value ≡ output) }
    {
        let Ok(opening) = unit_lits(alloc, &units) else {
            return Err(AllocFailed { value: output });
        };
        let Ok(given) = Vec::with_capacity(alloc, opening.len()) else {
            return Err(AllocFailed { value: output });
        };
        let hinted = output.format().has_hints();
        let told = told_in(alloc, hinted, units);
        let Starts { store } = starts;
        Ok(PlainPort {
            alloc,
            vars,
            store,
            opening,
            passed: 0,
            given,
            written: Vec::new(alloc),
            hinted,
            told,
            log: OwnLog::new(alloc, output),
            last: None,
            tickets: Tickets::new(limit),
            stop: None,
            looks: 0,
            caught_up: 0,
            loads: 0,
        })
    }

    /// The addresses of the start clauses, in their order, in a vector of the caller's.
    pub fn start(&self, alloc: Global) -> Result<Vec<Cref>, AllocError>
        ensures { IfOk result (λ refs. refs.items ≡ map (λ (h : Holding). record { address = h.address }) self.now.state.start) }
    {
        self.store.start(alloc)
    }

    /// How often the head or a literal of a clause was read, up to the last count of 64 bits.
    pub fn loads(&self) -> u64
        ensures { result ≡ self.now.loads }
    {
        self.loads
    }

    /// Gives the line output back.
    pub fn into_lines(self) -> L
        ensures { Some (L.told result) ≡ self.state.output }
    {
        let PlainPort { log, .. } = self;
        log.into_output()
    }
}
