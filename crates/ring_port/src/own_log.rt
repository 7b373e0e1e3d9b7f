// The log of a ring that writes alone: where its lines go, and its journal.
// The port in memory, which the program never runs: tests search over it, with every byte known to contracts.
ghost use Rattle.std.specs.Prelude.{◌≡◌, ◌<◌, ◌≤◌, [], false, true, None, Some, OnOk, IfErr};
ghost use Rattle.ring_port.specs.OwnLog.{WasAdded, WasDeleted, WasReduced, noted, stop_of};
ghost use Rattle.ring_port.specs.Port.{is_usable};

use crate::stops::PortStop;
use drat_text::{LineOut, LineStop};
use rup_model::{Addition, ClauseNumbers, Entry, Kind};
use sat_words::{Lit, Lits, MAX_ENTRIES, NoRoom};
use std::alloc::Global;
use std::marker::Model;

/// The number of the one ring.
const RING: u32 = 0;

/// As many lines stand as can.
const NO_ENTRY: PortStop = PortStop::NoHole(NoRoom {
    need: MAX_ENTRIES + 1,
    largest: MAX_ENTRIES,
});

/// A line output, with the entries of the lines that were put.
#[derive(Drop)]
pub(crate) struct OwnLog<L: LineOut> {
    output: L,
    mine: Vec<Entry>,
    ended: bool,
    refused: Option<PortStop>,
}

impl<L: LineOut> Model for OwnLog<L> {
    ghost use Rattle.std.specs.Prelude.{◌≡◌, ◌-◌, not, vec_len, vec_capacity};
    ghost use Rattle.ring_port.specs.OwnLog.{LogData};
    ghost use Rattle.ring_port.specs.Port.{is_usable};

    ghost Value = { LogData };

    ghost view = { λ p. record {
      output = L.told p.output;
      mine = p.mine.items;
      room = vec_capacity p.mine - vec_len p.mine;
      ended = p.ended;
      refused = p.refused;
    } };

    ghost invariant = { λ p. is_usable p.refused ≡ not (L.told p.output).spent };
}

/// What a port answers to a line that was not put.
fn stop_of(stop: LineStop) -> PortStop
    ensures { result ≡ stop_of stop }
{
    match stop {
        LineStop::ProofFault => PortStop::ProofFault,
        LineStop::Full => NO_ENTRY,
        LineStop::Memory => PortStop::Memory,
    }
}

/// The last answer that refused, once a line was not put.
fn noted(refused: Option<PortStop>, stop: LineStop) -> Option<PortStop>
    ensures { result ≡ noted refused stop }
{
    match stop {
        LineStop::ProofFault | LineStop::Full => Some(stop_of(stop)),
        LineStop::Memory => refused,
    }
}

impl<L: LineOut> OwnLog<L> {
    /// No entry yet.
    pub(crate) fn new(alloc: Global, output: L) -> Self
        requires { (L.told output).spent ≡ false }
        ensures output { result.output ≡ L.told output }
        ensures mine { result.mine ≡ [] }
        ensures ended { result.ended ≡ false }
        ensures refused { result.refused ≡ None }
    {
        OwnLog {
            output,
            mine: Vec::new(alloc),
            ended: false,
            refused: None,
        }
    }

    /// Takes room for one more entry.
    pub(crate) fn make_room(&mut self) -> Result<(), PortStop>
        ensures same { self.new ≡ record self.old { room = self.new.room } }
        ensures room { OnOk result (1 ≤ self.new.room) }
        ensures memory { IfErr result (λ stop. stop ≡ PortStop.Memory) }
    {
        match self.mine.reserve(1) {
            Ok(()) => Ok(()),
            Err(_) => Err(PortStop::Memory),
        }
    }

    /// Whether the log is ended, which is then noted as the last answer that refused.
    fn is_over(&mut self) -> bool
        requires usable { is_usable self.old.refused ≡ true }
        ensures over { result ≡ self.old.ended }
        ensures noted { result ≡ true → self.new ≡ record self.old { refused = Some PortStop.Ended } }
        ensures same { result ≡ false → self.new ≡ self.old }
    {
        if self.ended {
            self.refused = Some(PortStop::Ended);
            return true;
        }
        false
    }

    /// Puts the line that adds the literals, and its entry, for which room was made, unless the log is ended. Both have the hints.
    /// Answers its number.
    pub(crate) fn add(
        &mut self,
        lits: Lits,
        kind: Kind,
        hints: ClauseNumbers,
    ) -> Result<u64, PortStop>
        requires usable { is_usable self.old.refused ≡ true }
        requires room { 1 ≤ self.old.room }
        ensures { WasAdded self.old self.new lits kind hints result }
    {
        if self.is_over() {
            return Err(PortStop::Ended);
        }
        match self.output.add(lits.as_slice(), hints.as_slice()) {
            Ok(number) => {
                self.mine.push_reserved(Entry::Add(Addition {
                    ring: RING,
                    number,
                    lits,
                    kind,
                    hints,
                }));
                Ok(number)
            }
            Err(stop) => {
                self.refused = noted(self.refused, stop);
                Err(stop_of(stop))
            }
        }
    }

    /// Puts the line that deletes the clause with these literals and this number, and its entry, for which room was made, unless
    /// the log is ended.
    pub(crate) fn delete(&mut self, lits: &[Lit], number: u64) -> Result<(), PortStop>
        requires usable { is_usable self.old.refused ≡ true }
        requires room { 1 ≤ self.old.room }
        ensures { WasDeleted self.old self.new lits.now number result }
    {
        if self.is_over() {
            return Err(PortStop::Ended);
        }
        match self.output.del(number, lits) {
            Ok(()) => {
                self.mine.push_reserved(Entry::Del { ring: RING, number });
                Ok(())
            }
            Err(stop) => {
                self.refused = noted(self.refused, stop);
                Err(stop_of(stop))
            }
        }
    }

    /// Adds the entry that the ring reduces its clauses, for which room was made and which has no line.
    pub(crate) fn reduce(&mut self) -> Result<(), PortStop>
        requires usable { is_usable self.old.refused ≡ true }
        requires room { 1 ≤ self.old.room }
        ensures { WasReduced self.old self.new result }
    {
        if self.is_over() {
            return Err(PortStop::Ended);
        }
        self.mine.push_reserved(Entry::Reduce { ring: RING });
        Ok(())
    }

    /// Notes that the empty clause stands.
    pub(crate) fn end(&mut self)
        ensures { self.new ≡ record self.old { ended = true } }
    {
        self.ended = true;
    }

    /// Gives the line output back.
    pub(crate) fn into_output(self) -> L
        ensures { L.told result ≡ self.output }
    {
        let OwnLog { output, .. } = self;
        output
    }
}
