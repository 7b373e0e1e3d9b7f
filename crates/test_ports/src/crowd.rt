//! The second of three rings: another ring's stop appears, a clause is handed over, and each line is refused.
ghost use Rattle.std.specs.Prelude.{◌≡◌, [], None, map, IfOk};
ghost use Rattle.ring_port.specs.PortState.{Holding, IsPort, HoldsStart};
ghost use Rattle.test_ports.specs.Crowd.{asked, all_left, crowd_of};

use drat_text::LineOut;
use ring_port::{Drawn, PlainPort, Port, PortStop, Set};
use sat_words::{Cref, Head, Lit, NoRoom, STOP_SAT, Stop};
use std::alloc::Global;
use std::marker::Model;
use std::test::Fail;

/// A look for a clause of another ring.
#[derive(Clone, Copy, PartialEq, Eq, Debug)]
pub struct Poll {
    /// The ring that was polled.
    pub from: u32,
    /// The class.
    pub class: u8,
    /// The place.
    pub place: u32,
    /// How often it had been asked for a unit by then.
    pub caught_up: u64,
}

/// A slot in which another ring's clause lies.
#[derive(Clone, Copy, PartialEq, Eq, Debug)]
pub struct Gift {
    /// The ring that put it.
    pub from: u32,
    /// The class.
    pub class: u8,
    /// The place among the slots that the two rings have for the class.
    pub place: u32,
}

/// The tickets of the three rings, as the second of them knows them.
#[derive(Drop)]
struct Tickets {
    /// A ticket is in hand.
    in_hand: bool,
    /// One more than the number of tickets that had been drawn before its last draw, or 0.
    found: u128,
    /// How many there are.
    limit: u64,
}

/// How many slots each two rings have for each class.
const DEPTH: u32 = 2;

/// The port of the second of three rings, over what a port in memory holds. The last clause of that is another ring's, which
/// may hand it over. Another ring's stop appears after this many looks, and no line can be written.
#[derive(Drop)]
pub struct Crowd<L: LineOut> {
    inner: PlainPort<L>,
    /// Where the other ring's clause is.
    last: Cref,
    /// At which poll it is handed over.
    gift: Option<Gift>,
    /// The clause, once it was taken.
    taken: Option<Cref>,
    stop: Option<Stop>,
    looks: u64,
    refused: Option<PortStop>,
    tickets: Tickets,
    /// How many looks find no stop yet.
    quiet: u64,
    /// Whether memory is what lines lack, or room.
    memory: bool,
    /// The glue that the last lemma came with.
    glue: Option<u32>,
    polled: u64,
    /// How often it was asked for a unit.
    caught_up: u64,
    /// Which ring was polled, for which class and at which place, in order, and after how many asks for a unit.
    polls: Vec<Poll>,
}

impl<L: LineOut> Model for Crowd<L> {
    ghost use Rattle.ring_port.specs.PortState.{PortState, IsPort};
    ghost use Rattle.test_ports.specs.Crowd.{asked, crowd_of, IsLast};

    ghost Value = { PortState };

    ghost view = { λ p. crowd_of p.inner.state p.taken p.stop p.looks p.refused (asked p.polled p.polls.items p.caught_up p.tickets) };

    ghost invariant = { λ p. IsPort (crowd_of p.inner.state p.taken p.stop p.looks p.refused (asked p.polled p.polls.items p.caught_up p.tickets)) × IsLast p.inner.state p.last.address × IsPort p.inner.state };
}

/// The stop of the third ring.
pub fn third_stop() -> Stop
    ensures { result ≡ record { kind = 1; ring = 2 } }
{
    Stop {
        kind: STOP_SAT,
        ring: 2,
    }
}

impl<L: LineOut> Crowd<L> {
    /// The glue that the last lemma came with.
    pub fn glue(&self) -> Option<u32> {
        self.glue
    }

    /// The stop that was seen or set.
    pub fn known_stop(&self) -> Option<Stop>
        ensures { result ≡ self.now.stop }
    {
        self.stop
    }

    /// How many looks found no stop.
    pub fn looks(&self) -> u64
        ensures { result ≡ self.now.looks }
    {
        self.looks
    }
}

impl<L: LineOut + Drop> Crowd<L> {
    /// Over this port, whose last clause another ring has: with the addresses of the others, which the ring starts with. The
    /// clause is handed over at the first such poll, or never. So many looks find no stop; lines lack memory, or room. There are
    /// so many tickets.
    pub fn over(
        alloc: Global,
        inner: PlainPort<L>,
        gift: Option<Gift>,
        quiet: u64,
        memory: bool,
        limit: u64,
    ) -> Result<(Crowd<L>, Vec<Cref>), Fail>
        requires port { IsPort inner.state }
        requires held { inner.state.held ≡ inner.state.start }
        requires holds { HoldsStart inner.state }
        ensures port { IfOk result (λ made. made.0 ≡ crowd_of inner.state None None 0 None (asked 0 [] 0 (all_left limit))) }
        ensures holds { IfOk result (λ made. HoldsStart made.0) }
        ensures start { IfOk result (λ made. made.1.items ≡ map (λ (h : Holding). record { address = h.address }) made.0.start) }
    {
        let mut start = inner.start(alloc)?;
        let Some(last) = start.pop() else {
            return Err("no clause for the other ring".into());
        };
        let crowd = Crowd {
            inner,
            last,
            gift,
            taken: None,
            stop: None,
            looks: 0,
            refused: None,
            tickets: Tickets {
                in_hand: false,
                found: 0,
                limit,
            },
            quiet,
            memory,
            glue: None,
            polled: 0,
            caught_up: 0,
            polls: Vec::new(alloc),
        };
        Ok((crowd, start))
    }

    /// Which ring was polled, for which class and at which place, in order, and after how many asks for a unit.
    pub fn into_polls(self) -> Vec<Poll> {
        self.polls
    }
}

impl<L: LineOut> Port for Crowd<L> {
    ghost state = { λ p. p };

    fn vars(&self) -> u32 {
        self.inner.vars()
    }

    fn depth(&self) -> u32 {
        let _looks = self.looks;
        DEPTH
    }

    fn has_hints(&self) -> bool {
        let _looks = self.looks;
        false
    }

    fn unit_number(&self, _lit: Lit) -> Option<u64> {
        let _looks = self.looks;
        None
    }

    fn head(&mut self, c: Cref) -> Head {
        self.inner.head(c)
    }

    fn read_lit(&mut self, c: Cref, i: u32) -> Lit {
        self.inner.read_lit(c, i)
    }

    fn learn(
        &mut self,
        _lits: &[Lit],
        glue: u32,
        _hints: &[u64],
    ) -> Result<Option<Cref>, PortStop> {
        self.glue = Some(glue);
        if self.memory {
            return Err(PortStop::Memory);
        }
        let stop = PortStop::NoHole(NoRoom {
            need: 9,
            largest: 7,
        });
        self.refused = Some(stop);
        Err(stop)
    }

    /// Another ring draws after each draw of this one.
    fn draw(&mut self) -> Drawn {
        let drawn = if self.tickets.found == 0 { 1 } else { 2 };
        self.tickets.found += drawn;
        self.tickets.in_hand = self.tickets.found <= self.tickets.limit as u128;
        if self.tickets.in_hand {
            Drawn::Ticket
        } else {
            Drawn::Gone
        }
    }

    fn derive(&mut self, _lits: &[Lit], _glue: u32, _hints: &[u64]) -> Result<Cref, PortStop> {
        self.memory = true;
        Err(PortStop::Memory)
    }

    fn unit(&mut self, _lit: Lit, _hints: &[u64]) -> Result<(), PortStop> {
        self.memory = true;
        Err(PortStop::Memory)
    }

    fn empty(&mut self, _hints: &[u64]) -> Result<(), PortStop> {
        self.memory = true;
        Err(PortStop::Memory)
    }

    fn drop_clause(&mut self, _c: Cref) -> Result<(), PortStop> {
        self.memory = true;
        Err(PortStop::Memory)
    }

    /// Nothing waits.
    fn tidy(&mut self) -> Result<(), PortStop> {
        self.glue = None;
        Ok(())
    }

    fn note_reduce(&mut self) -> Result<(), PortStop> {
        self.memory = true;
        Err(PortStop::Memory)
    }

    /// Nothing was learned that could be offered (`last`).
    fn offer(&mut self, _c: Cref) -> u64 {
        self.glue = None;
        unreachable!()
    }

    /// Nothing is there but the clause of the other ring.
    fn poll(&mut self, from: u32, class: u8, place: u32) -> Result<Option<Cref>, PortStop> {
        let poll = Poll {
            from,
            class,
            place,
            caught_up: self.caught_up,
        };
        if self.polls.push(poll).is_err() {
            return Err(PortStop::Memory);
        }
        self.polled = self.polled.saturating_add(1);
        let slot = Gift { from, class, place };
        if self.gift != Some(slot) {
            return Ok(None);
        }
        match self.taken {
            Some(_) => Ok(None),
            None => {
                self.taken = Some(self.last);
                Ok(Some(self.last))
            }
        }
    }

    fn next_unit(&mut self) -> Option<Lit> {
        self.caught_up = self.caught_up.saturating_add(1);
        None
    }

    fn stopped(&mut self) -> Option<Stop> {
        match self.stop {
            Some(stop) => Some(stop),
            None => {
                if self.quiet == 0 {
                    let stop = third_stop();
                    self.stop = Some(stop);
                    return Some(stop);
                }
                self.quiet -= 1;
                self.looks = self.looks.saturating_add(1);
                None
            }
        }
    }

    fn stop(&mut self, kind: u8) -> Set {
        match self.stop {
            Some(stop) => Set::Lost(stop),
            None => {
                self.stop = Some(Stop { kind, ring: 1 });
                Set::Won
            }
        }
    }
}
