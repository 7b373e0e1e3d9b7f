// The nodes that the edges of one node lead to.
ghost use Rattle.std.specs.Prelude.{◌≡◌, ◌++◌, ◌∷◌, [], OnOk};

use std::alloc::{AllocError, Global};
use std::marker::Model;

/// The targets of a node, in the order in which they came.
#[derive(Drop)]
pub(crate) struct Targets {
    nodes: Vec<usize>,
}

impl Model for Targets {
    ghost use Rattle.std.specs.Prelude.{List, ℕ};

    ghost Value = { List ℕ };

    ghost view = { λ t. t.nodes.items };
}

impl Targets {
    /// No targets yet. It takes no memory.
    pub(crate) fn new(alloc: Global) -> Targets
        ensures { result ≡ [] }
    {
        Targets {
            nodes: Vec::new(alloc),
        }
    }

    /// One more.
    pub(crate) fn push(&mut self, node: usize) -> Result<(), AllocError>
        ensures { OnOk result (self.new ≡ self.old ++ node ∷ []) }
    {
        self.nodes.push(node)?;
        Ok(())
    }

    /// The nodes.
    pub(crate) fn nodes(&self) -> &[usize]
        ensures { result.now ≡ self.now }
    {
        self.nodes.as_slice()
    }
}
