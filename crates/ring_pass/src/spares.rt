ghost use Rattle.std.specs.Prelude.{◌≡◌, ◌+◌, ◌%◌, ◌<◌, length, slice_index, slice_set};

use sat_words::Lit;

/// What the next offers find ready: buffers for the literals of clauses that come back, which are read before the last count may
/// go, since an offer takes no memory; and the places that they go to.
#[derive(Drop)]
pub struct Spares {
    /// The buffers. They are empty, and each has room for the longest clause that may come back.
    pub buffers: Vec<Vec<Lit>>,
    /// How many literals that clause has.
    pub longest: usize,
    /// By class, the place of the next clause for each other ring.
    pub places: [u32; 4],
}

impl Spares {
    /// The next clause of the class goes to the place after this one, after the last to the first.
    pub(crate) fn move_on(&mut self, class: u8, depth: u32)
        requires class { class < length self.old.places }
        requires place { slice_index self.old.places class < depth }
        ensures { self.new ≡ record self.old { places = slice_set self.old.places class ((slice_index self.old.places class + 1) % depth) } }
    {
        let class = class as usize;
        self.places[class] = (self.places[class] + 1) % depth;
    }
}
