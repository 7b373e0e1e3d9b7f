// The executable core, which the program never runs: it makes the definitions of specs/ run, for tests.
ghost use Rattle.std.specs.Prelude.{◌≡◌, ◌==◌, ◌++◌, ◌∷◌, [], OnOk, position, if◌then◌else◌};
ghost use Rattle.rup_model.specs.Basics.{one_if};
ghost use Rattle.share_core.specs.State.{times_at, without_at, with_cell};
ghost use Rattle.share_core.specs.Machine.{has_at, no_ring};

use crate::items::{Copied, Items};
use crate::stored::{ClauseAt, PutNote};
use sat_words::Lit;
use std::alloc::{AllocError, Global};

/// What one ring has.
#[derive(Drop)]
pub(crate) struct RingState {
    /// Whether its grant was taken.
    pub(crate) granted: bool,
    /// The cells that it holds, each as often as it does.
    pub(crate) held: Items<ClauseAt>,
    /// The cells that it builds.
    pub(crate) making: Items<ClauseAt>,
    /// The cells that nobody holds any more, and that it is to delete.
    pub(crate) waiting: Items<ClauseAt>,
    /// The listed units that it has seen.
    pub(crate) seen: Items<Lit>,
    /// Their numbers, in the same order.
    pub(crate) numbers: Items<u64>,
    /// How often it has shared a cell.
    pub(crate) shared: u64,
    /// What it put, in order.
    pub(crate) puts: Items<PutNote>,
    /// Whether it has a ticket in hand.
    pub(crate) ticket: bool,
    /// One more than the number drawn before its last draw, 0 before its first.
    pub(crate) found: u64,
}

impl RingState {
    /// A ring before its first step.
    pub(crate) fn new(alloc: Global) -> RingState
        ensures { result ≡ no_ring }
    {
        RingState {
            granted: false,
            held: Items::new(alloc),
            making: Items::new(alloc),
            waiting: Items::new(alloc),
            seen: Items::new(alloc),
            numbers: Items::new(alloc),
            shared: 0,
            puts: Items::new(alloc),
            ticket: false,
            found: 0,
        }
    }
}

impl Copied for RingState {
    fn copied(&self, alloc: Global) -> Result<RingState, AllocError> {
        Ok(RingState {
            granted: self.granted,
            held: self.held.copied(alloc)?,
            making: self.making.copied(alloc)?,
            waiting: self.waiting.copied(alloc)?,
            seen: self.seen.copied(alloc)?,
            numbers: self.numbers.copied(alloc)?,
            shared: self.shared,
            puts: self.puts.copied(alloc)?,
            ticket: self.ticket,
            found: self.found,
        })
    }
}

/// Whether the address stands in the list.
pub(crate) fn has_at(list: &Items<ClauseAt>, address: u64) -> bool
    ensures { result ≡ has_at address list.now }
{
    list.as_slice().iter().any(|h| h.address == address)
}

fn one_at(h: &ClauseAt, address: u64) -> u64
    ensures { result ≡ one_if (h.now.address == address) }
{
    if h.address == address { 1 } else { 0 }
}

/// How often the address stands in the list.
pub(crate) fn times_of(list: &[ClauseAt], address: u64) -> u64
    ensures { result ≡ times_at address list.now }
{
    let mut times: u64 = 0;
    for h in list {
        times += one_at(h, address);
    }
    times
}

fn place_at(list: &[ClauseAt], address: u64) -> Option<usize>
    ensures { result ≡ position (λ h. h.address == address) list.now }
{
    list.iter().position(|h| h.address == address)
}

/// Takes the first cell at the address out of the list.
pub(crate) fn remove_at(list: &mut Items<ClauseAt>, address: u64)
    ensures { list.new ≡ without_at address list.old }
{
    if let Some(i) = place_at(list.as_slice(), address) {
        list.remove(i);
    }
}

/// Puts the cell after the list; at address 0 there is none.
pub(crate) fn add_cell(list: &mut Items<ClauseAt>, cell: ClauseAt) -> Result<(), AllocError>
    ensures { OnOk result (list.new ≡ with_cell cell list.old) }
{
    if cell.address == 0 {
        return Ok(());
    }
    list.push(cell)
}

/// Puts the cell after the list, if the test holds.
pub(crate) fn add_where(
    list: &mut Items<ClauseAt>,
    cell: ClauseAt,
    test: bool,
) -> Result<(), AllocError>
    ensures { OnOk result (list.new ≡ (if test then list.old ++ cell ∷ [] else list.old)) }
{
    if !test {
        return Ok(());
    }
    list.push(cell)
}
