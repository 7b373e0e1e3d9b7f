// All calls together: a ring with its pass is a port.
use crate::pass::RingPass;
use io_edge::Sink;
use ring_port::{Drawn, Gate, Port, PortStop, Set, Shape};
use sat_words::{Cref, Head, Lit, Stop, Values};
use std::sync::Wait;

impl<'a, S: Sink, G: Gate, H: Wait> Port for RingPass<'a, S, G, H> {
    ghost state = { λ p. p };

    fn vars(&self) -> u32 {
        self.vars()
    }

    fn depth(&self) -> u32 {
        self.depth()
    }

    fn has_hints(&self) -> bool {
        self.has_hints()
    }

    fn unit_number(&self, lit: Lit) -> Option<u64> {
        self.unit_number(lit)
    }

    fn head(&mut self, c: Cref) -> Head {
        self.head(c)
    }

    fn read_lit(&mut self, c: Cref, i: u32) -> Lit {
        self.read_lit(c, i)
    }

    fn shape(&mut self, c: Cref) -> Shape {
        self.shape(c)
    }

    fn find_open(&mut self, c: Cref, values: &Values, other: Lit) -> Option<Lit> {
        self.find_open(c, values, other)
    }

    fn draw(&mut self) -> Drawn {
        self.draw()
    }

    fn learn(&mut self, lits: &[Lit], glue: u32, hints: &[u64]) -> Result<Option<Cref>, PortStop> {
        self.learn(lits, glue, hints)
    }

    fn derive(&mut self, lits: &[Lit], glue: u32, hints: &[u64]) -> Result<Cref, PortStop> {
        self.derive(lits, glue, hints)
    }

    fn unit(&mut self, lit: Lit, hints: &[u64]) -> Result<(), PortStop> {
        self.unit(lit, hints)
    }

    fn empty(&mut self, hints: &[u64]) -> Result<(), PortStop> {
        self.empty(hints)
    }

    fn drop_clause(&mut self, c: Cref) -> Result<(), PortStop> {
        self.drop_clause(c)
    }

    fn tidy(&mut self) -> Result<(), PortStop> {
        self.tidy()
    }

    fn note_reduce(&mut self) -> Result<(), PortStop> {
        self.note_reduce()
    }

    fn offer(&mut self, c: Cref) -> u64 {
        self.offer(c)
    }

    fn poll(&mut self, from: u32, class: u8, place: u32) -> Result<Option<Cref>, PortStop> {
        self.poll(from, class, place)
    }

    fn next_unit(&mut self) -> Option<Lit> {
        self.next_unit()
    }

    fn stopped(&mut self) -> Option<Stop> {
        self.stopped()
    }

    fn stop(&mut self, kind: u8) -> Set {
        self.stop(kind)
    }
}
