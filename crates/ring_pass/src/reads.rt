// The calls that only read.
ghost use Rattle.std.specs.Prelude.{◌≡◌, ◌<◌, Some, IfSome, IsSome, length, slice_get};
ghost use Rattle.sat_words.specs.Values.{first_open};
ghost use Rattle.ring_port.specs.PortState.{IsPort, held_at, lits_at, head_of};

use crate::pass::RingPass;
use io_edge::Sink;
use ring_port::{Gate, Shape};
use sat_words::{Cref, Head, Lit, Values};

impl<'a, S: Sink, G: Gate, H> RingPass<'a, S, G, H> {
    /// The greatest variable, which no call changes.
    pub fn vars(&self) -> u32
        ensures value { result ≡ self.now.vars }
        ensures port { IsPort self.now }
    {
        self.table.layout.vars
    }

    /// How many slots each two rings have for each class, which no call changes.
    pub fn depth(&self) -> u32
        ensures value { result ≡ self.now.depth }
        ensures port { IsPort self.now }
    {
        self.table.layout.depth
    }

    /// Whether additions to the log have hints, which no call changes.
    pub fn has_hints(&self) -> bool
        ensures value { result ≡ self.now.hinted }
        ensures port { IsPort self.now }
    {
        self.hinted
    }

    /// The size, the glue and the number of a clause that is held.
    pub fn head(&mut self, c: Cref) -> Head
        requires { IsSome (held_at self.old c.address) }
        ensures value { IfSome (held_at self.old c.address) (λ h. result ≡ head_of h) }
        ensures size { result.size ≡ length (lits_at self.old c.address) }
        ensures same { self.new ≡ self.old }
        ensures port { IsPort self.new }
    {
        ref_count::read_head(self.table, &mut self.pass, c)
    }

    /// The literal at place `i`, from 0, of a clause that is held.
    pub fn read_lit(&mut self, c: Cref, i: u32) -> Lit
        requires held { IsSome (held_at self.old c.address) }
        requires inside { i < length (lits_at self.old c.address) }
        ensures value { slice_get (lits_at self.old c.address) i ≡ Some result }
        ensures same { self.new ≡ self.old }
        ensures port { IsPort self.new }
    {
        ref_count::read_lit(self.table, &mut self.pass, c, i)
    }

    /// The size and the glue of a clause that is held, by one step.
    pub fn shape(&mut self, c: Cref) -> Shape
        requires { IsSome (held_at self.old c.address) }
        ensures size { result.size ≡ length (lits_at self.old c.address) }
        ensures glue { IfSome (held_at self.old c.address) (λ h. result.glue ≡ h.glue) }
        ensures same { self.new ≡ self.old }
        ensures port { IsPort self.new }
    {
        let shape = ref_count::read_shape(self.table, &mut self.pass, c);
        Shape {
            size: shape.0,
            glue: shape.1,
        }
    }

    /// The first literal of a clause that is held which is not false under these values and isn't the other one.
    pub fn find_open(&mut self, c: Cref, values: &Values, other: Lit) -> Option<Lit>
        requires { IsSome (held_at self.old c.address) }
        ensures first { result ≡ first_open values.now other (lits_at self.old c.address) }
        ensures same { self.new ≡ self.old }
        ensures port { IsPort self.new }
    {
        ref_count::find_open(self.table, &mut self.pass, c, values, other)
    }
}
