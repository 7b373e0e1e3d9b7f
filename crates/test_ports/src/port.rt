// Three clauses that are held and read; nothing is learned, and no line is written.
ghost use Rattle.std.specs.Prelude.{◌≡◌, ◌<◌, Some, length, slice_get};
ghost use Rattle.test_ports.specs.Sample.{sample_state, sample_at};

use ring_port::{Drawn, Port, PortStop, Set};
use sat_words::{Cref, Head, Lit, STOP_SAT, Stop};

/// The port of the first of two rings, which have two slots for each class, over the variables 1 to 5. It holds three clauses at the addresses 1 to 3: `-1 2`,
/// `-4 -1 5` and `-4 -2 -5`. The units 1 and 4 were seen, and the other ring has stopped. Each call that writes is refused
/// for want of memory. There is one ticket. The log has hints.
#[derive(Drop)]
pub struct SamplePort {
    /// 1: the first clause was learned last; 2: it was offered; 3: as many lemmas were learned as a reduction needs. At any
    /// other, 0 for one, nothing was learned.
    pub stage: u8,
    /// Whether the ticket was drawn.
    pub drawn: bool,
    /// How often a clause was looked at: the calls of `head` and `read_lit`, at most 2^64 - 1.
    pub loads: u64,
}

fn other_stop() -> Stop
    ensures { Some result ≡ sample_state.stop }
{
    Stop {
        kind: STOP_SAT,
        ring: 1,
    }
}

fn sample_head(size: u32, number: u64) -> Head
    ensures { result ≡ record { size = size; glue = 0; number = number } }
{
    Head {
        size,
        glue: 0,
        number,
    }
}

fn pick(lits: &[Lit], i: u32) -> Lit
    requires { i < length lits.now }
    ensures { slice_get lits.now i ≡ Some result }
{
    lits[i as usize]
}

impl Port for SamplePort {
    ghost state = { λ r. sample_at r.stage r.drawn };

    fn vars(&self) -> u32 {
        5
    }

    fn depth(&self) -> u32 {
        2
    }

    fn has_hints(&self) -> bool {
        true
    }

    /// The units' clauses come after the three.
    fn unit_number(&self, lit: Lit) -> Option<u64> {
        if lit == Lit::new(1, false) {
            Some(4)
        } else if lit == Lit::new(4, false) {
            Some(5)
        } else {
            None
        }
    }

    fn head(&mut self, c: Cref) -> Head {
        self.loads = self.loads.saturating_add(1);
        let at = c.address;
        if at == 1 {
            sample_head(2, 1)
        } else if at == 2 {
            sample_head(3, 2)
        } else {
            sample_head(3, 3)
        }
    }

    fn read_lit(&mut self, c: Cref, i: u32) -> Lit {
        self.loads = self.loads.saturating_add(1);
        let at = c.address;
        if at == 1 {
            pick(&[Lit::new(1, true), Lit::new(2, false)], i)
        } else if at == 2 {
            pick(
                &[Lit::new(4, true), Lit::new(1, true), Lit::new(5, false)],
                i,
            )
        } else {
            pick(
                &[Lit::new(4, true), Lit::new(2, true), Lit::new(5, true)],
                i,
            )
        }
    }

    fn learn(
        &mut self,
        _lits: &[Lit],
        _glue: u32,
        _hints: &[u64],
    ) -> Result<Option<Cref>, PortStop> {
        Err(PortStop::Memory)
    }

    fn draw(&mut self) -> Drawn {
        self.drawn = true;
        Drawn::Ticket
    }

    fn derive(&mut self, _lits: &[Lit], _glue: u32, _hints: &[u64]) -> Result<Cref, PortStop> {
        Err(PortStop::Memory)
    }

    fn unit(&mut self, _lit: Lit, _hints: &[u64]) -> Result<(), PortStop> {
        Err(PortStop::Memory)
    }

    fn empty(&mut self, _hints: &[u64]) -> Result<(), PortStop> {
        Err(PortStop::Memory)
    }

    fn drop_clause(&mut self, _c: Cref) -> Result<(), PortStop> {
        Err(PortStop::Memory)
    }

    /// Nothing waits.
    fn tidy(&mut self) -> Result<(), PortStop> {
        Ok(())
    }

    fn note_reduce(&mut self) -> Result<(), PortStop> {
        Err(PortStop::Memory)
    }

    fn offer(&mut self, _c: Cref) -> u64 {
        self.stage = 2;
        1
    }

    fn poll(&mut self, _from: u32, _class: u8, _place: u32) -> Result<Option<Cref>, PortStop> {
        Err(PortStop::Memory)
    }

    fn next_unit(&mut self) -> Option<Lit> {
        None
    }

    fn stopped(&mut self) -> Option<Stop> {
        Some(other_stop())
    }

    fn stop(&mut self, _kind: u8) -> Set {
        Set::Lost(other_stop())
    }
}
