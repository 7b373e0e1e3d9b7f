//! Rings with their passes.
ghost use Rattle.std.specs.Prelude.{◌≡◌, ◌<◌, ◌+◌, ◌++◌, ◌∷◌, [], IfOk, ℕ};
ghost use Rattle.share_core.specs.State.{times_at};
ghost use Rattle.share_rule.specs.FirstWords.{addresses};
ghost use Rattle.share_rule.specs.Steps.{new_part};
ghost use Rattle.share_rule.specs.Views.{only};
ghost use Rattle.test_tables.specs.Samples.{IsFirst, IsRing, IsHolder, IsGathered};

use ref_count::{Dropped, drop_count, take_grant};
use sat_words::Cref;
use share_rule::{ClosedTable, Ledger, Pass, Shared, close_round, join, split};
use std::alloc::{AllocFailed, Global};
use std::test::Fail;

/// A ring with its pass, a cell that it holds, and how often it was told that it gave the last count up.
#[derive(Drop)]
pub struct Ring<B: Ledger> {
    /// Its pass.
    pub pass: Pass<B>,
    /// Its number.
    pub ring: u32,
    /// A cell that it holds.
    pub cell: Cref,
    /// How often it gave a last count up.
    pub lasts: u64,
}

/// Splits a pass for the ring off, which takes its grant.
pub fn begin<B: Ledger>(table: &Shared<B>, first: &mut Pass<B>, ring: u32, cell: Cref) -> Ring<B>
    requires first { IsFirst table.now first.old ring }
    requires ring { ring < first.old.me.0.opening.rings }
    requires cell { 0 < times_at cell.address first.old.me.0.opening.starts }
    ensures first { IsFirst table.now first.new (ring + 1) }
    ensures same { (first.new.me.0.opening ≡ first.old.me.0.opening) × (first.new.me.0.parts ≡ first.old.me.0.parts) }
    ensures held { (only result.pass.me.0).core.held ≡ first.old.me.0.opening.starts }
    ensures part { (result.pass.me.0.parts ≡ new_part first.old.me.0.opening ring ∷ []) × (result.pass.me.0.opening ≡ first.old.me.0.opening) }
    ensures ring { IsHolder table.now result.pass ring cell.address 0 × (result.ring ≡ ring) × (result.cell ≡ cell) }
{
    let mut pass = split(table, first, ring);
    take_grant(table, &mut pass, ring);
    Ring {
        pass,
        ring,
        cell,
        lasts: 0,
    }
}

/// Gives the count up.
pub fn give_up<B: Ledger>(table: &Shared<B>, ring: &mut Ring<B>)
    requires { (n : ℕ) × IsHolder table.now ring.old.pass ring.old.ring ring.old.cell.address n }
    ensures { IsRing table.now ring.new.pass ring.new.ring × (ring.new.ring ≡ ring.old.ring) × ((only ring.new.pass.me.0).core.making ≡ (only ring.old.pass.me.0).core.making) }
{
    match drop_count(table, &mut ring.pass, ring.cell) {
        Dropped::Left => {}
        Dropped::Last => ring.lasts = ring.lasts.saturating_add(1),
    }
}

/// The start cell at this place.
pub fn start_cell<B: Ledger>(first: &Pass<B>, cells: &[Cref], place: usize) -> Result<Cref, Fail>
    requires { cells.now ≡ addresses first.now.me.0.opening.starts }
    ensures { IfOk result (λ c. 0 < times_at c.address first.now.me.0.opening.starts) }
{
    if place >= cells.len() {
        return Err(Fail::from("no such cell"));
    }
    Ok(cells[place])
}

/// Takes a ring's pass in.
pub fn gather<B: Ledger>(table: &Shared<B>, first: &mut Pass<B>, ring: Ring<B>)
    requires first { IsGathered table.now first.old (ring.ring + 1) }
    requires ring { IsRing table.now ring.pass ring.ring }
    ensures { IsGathered table.now first.new ring.ring × (first.new.me.0.opening ≡ first.old.me.0.opening) × (first.new.me.0.parts ≡ first.old.me.0.parts ++ only ring.pass.me.0 ∷ []) }
{
    let Ring {
        pass,
        ring: _,
        cell: _,
        lasts: _,
    } = ring;
    join(table, first, pass);
}

/// Takes the two rings of a table in, which build no cell, and the table apart.
pub fn close_two<B: Ledger>(
    alloc: Global,
    table: Shared<B>,
    first: Pass<B>,
    zero: Ring<B>,
    one: Ring<B>,
) -> Result<ClosedTable<B>, AllocFailed<B>>
    requires first { IsGathered table first 2 × (first.me.0.parts ≡ []) }
    requires rings { IsRing table zero.pass 0 × IsRing table one.pass 1 × (zero.ring ≡ 0) × (one.ring ≡ 1) }
    requires built { ((only zero.pass.me.0).core.making ≡ []) × ((only one.pass.me.0).core.making ≡ []) }
{
    let mut first = first;
    gather(&table, &mut first, one);
    gather(&table, &mut first, zero);
    close_round(alloc, table, first)
}
