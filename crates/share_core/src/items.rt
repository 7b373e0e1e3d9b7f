// The executable core, which the program never runs: it makes the definitions of specs/ run, for tests.
ghost use Rattle.std.specs.Prelude.{◌≡◌, ◌<◌, ◌++◌, ◌∷◌, [], length, IfOk, OnOk, map};
ghost use Rattle.std.specs.List.{remove};

use std::alloc::{AllocError, Global};
use std::marker::Model;

/// A list in order.
#[derive(Drop)]
pub(crate) struct Items<T> {
    items: Vec<T>,
}

impl<T> Model for Items<T> {
    ghost use Rattle.std.specs.Prelude.{List};

    ghost Value = { List T };

    ghost view = { λ a. a.items.items };
}

/// What can be copied exactly.
pub(crate) trait Copied {
    /// An equal value.
    fn copied(&self, alloc: Global) -> Result<Self, AllocError>
        ensures { IfOk result (λ copy. copy ≡ self.now) };
}

/// Copies of all items, in order.
pub(crate) fn copies<T: Copied + Drop>(alloc: Global, items: &[T]) -> Result<Vec<T>, AllocError>
    ensures { IfOk result (λ copy. copy.items ≡ items.now) }
{
    let mut all = Vec::new(alloc);
    for item in items {
        all.push(item.copied(alloc)?)?;
    }
    Ok(all)
}

impl<T: Copied + Drop> Items<T> {
    /// An empty list.
    pub(crate) fn new(alloc: Global) -> Items<T>
        ensures { result ≡ [] }
    {
        Items {
            items: Vec::new(alloc),
        }
    }

    /// Puts the item after the others.
    pub(crate) fn push(&mut self, item: T) -> Result<(), AllocError>
        ensures { OnOk result (self.new ≡ self.old ++ item ∷ []) }
    {
        self.items.push(item)?;
        Ok(())
    }

    /// Puts copies of the items after the others, in order.
    pub(crate) fn extend(&mut self, alloc: Global, items: &[T]) -> Result<(), AllocError>
        ensures { OnOk result (self.new ≡ self.old ++ items.now) }
    {
        for item in items {
            self.items.push(item.copied(alloc)?)?;
        }
        Ok(())
    }

    /// Takes the item at a place out.
    pub(crate) fn remove(&mut self, index: usize)
        requires { index < length self.old }
        ensures { self.new ≡ remove self.old index }
    {
        self.items.remove(index);
    }

    /// How many there are.
    pub(crate) fn len(&self) -> usize
        ensures { result ≡ length self.now }
    {
        self.items.len()
    }

    /// The items, in order.
    pub(crate) fn as_slice(&self) -> &[T]
        ensures { result.now ≡ self.now }
    {
        self.items.as_slice()
    }

    /// An equal list.
    pub(crate) fn copied(&self, alloc: Global) -> Result<Items<T>, AllocError>
        ensures { IfOk result (λ copy. copy ≡ self.now) }
    {
        Ok(Items {
            items: copies(alloc, self.items.as_slice())?,
        })
    }
}
