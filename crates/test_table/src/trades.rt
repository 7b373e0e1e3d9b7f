//! What rings do with one cell, one after another and beside each other.
ghost use Rattle.std.specs.Prelude.{◌≡◌, ◌≤◌, ◌<◌, ◌↔◌, ◌+◌, ◌-◌, ◌*◌, ◌%◌, ◌^◌, All, IfOk, OnOk, IsSome, length, min, sum_by, ℕ, slice_index_or, []};
ghost use Rattle.share_core.specs.State.{times_at};
ghost use Rattle.share_rule.specs.Passes.{IsPassOf};
ghost use Rattle.share_rule.specs.Views.{IsHolding, clause_of};
ghost use Rattle.test_tables.specs.Samples.{IsFirst, IsRing, IsHolder, IsGathered};
ghost use Rattle.test_tables.specs.declared.rings.Ring.{Ring};
ghost use Rattle.test_table.specs.Reads.{head_of, code_sum};
ghost use Rattle.test_table.specs.Counts.{GaveUp};

use ref_count::{Dropped, drop_count, read_head, read_lit, share};
use sat_words::{Cref, Head, Lit};
use share_rule::{Ledger, Pass, Shared};
use std::alloc::Global;
use std::test::Fail;
use std::thread;
use std::thread::Threads;
use test_tables::{Ring, begin, gather, word_at};

/// Gives the count up, and counts where it was the last.
fn give_one_up<B: Ledger>(table: &Shared<B>, ring: &mut Ring<B>)
    requires { (n : ℕ) × IsHolder table.now ring.old.pass ring.old.ring ring.old.cell.address n }
    ensures ring { IsRing table.now ring.new.pass ring.new.ring }
    ensures gave { GaveUp ring.old ring.new }
    ensures lasts { (ring.old.lasts ≤ ring.new.lasts) × (ring.new.lasts ≤ ring.old.lasts + 1) }
{
    match drop_count(table, &mut ring.pass, ring.cell) {
        Dropped::Left => {}
        Dropped::Last => ring.lasts = ring.lasts.saturating_add(1),
    }
}

/// Takes one more count and gives one up.
fn trade_once<B: Ledger>(table: &Shared<B>, ring: &mut Ring<B>, _times: u64)
    requires holder { IsHolder table.now ring.old.pass ring.old.ring ring.old.cell.address _times }
    requires few { _times < 2 ^ 56 }
    ensures holder { IsHolder table.now ring.new.pass ring.new.ring ring.new.cell.address (_times + 1) }
    ensures same { (ring.new.ring ≡ ring.old.ring) × (ring.new.cell ≡ ring.old.cell) }
    ensures lasts { (ring.old.lasts ≤ ring.new.lasts) × (ring.new.lasts ≤ ring.old.lasts + 1) }
{
    share(table, &mut ring.pass, ring.cell);
    give_one_up(table, ring);
}

/// Trades this often.
pub fn trade<B: Ledger>(table: &Shared<B>, ring: &mut Ring<B>, times: u64)
    requires holder { IsHolder table.now ring.old.pass ring.old.ring ring.old.cell.address 0 }
    requires few { times < 2 ^ 56 }
    ensures holder { IsHolder table.now ring.new.pass ring.new.ring ring.new.cell.address times }
    ensures same { (ring.new.ring ≡ ring.old.ring) × (ring.new.cell ≡ ring.old.cell) }
    ensures lasts { (ring.old.lasts ≤ ring.new.lasts) × (ring.new.lasts ≤ ring.old.lasts + times) }
{
    for done in 0..times {
        trade_once(table, ring, done);
    }
}

/// All rings, each with a pass of its own.
pub fn begin_all<B: Ledger>(
    alloc: Global,
    table: &Shared<B>,
    first: &mut Pass<B>,
    cell: Cref,
    rings: u32,
) -> Result<Vec<Ring<B>>, Fail>
    requires first { IsFirst table.now first.old 0 × (first.old.me.0.opening.rings ≡ rings) }
    requires cell { 0 < times_at cell.address first.old.me.0.opening.starts }
    ensures first { OnOk result (IsPassOf table.now first.new × (first.new.me.1 ≡ []) × (first.new.me.0.opening ≡ first.old.me.0.opening) × (first.new.me.0.parts ≡ first.old.me.0.parts)) }
    ensures len { IfOk result (λ v. length v.items ≡ rings) }
    ensures each { IfOk result (λ v. All (λ r. IsHolder table.now r.pass r.ring r.cell.address 0) v.items) }
    ensures cells { IfOk result (λ v. All (λ r. r.cell ≡ cell) v.items) }
    ensures numbers { IfOk result (λ v. (i : ℕ) (d : Ring B) → i < rings → (slice_index_or v.items i d).ring ≡ i) }
{
    let mut all = Vec::new(alloc);
    for ring in 0..rings {
        all.push(begin(table, first, ring, cell))?;
    }
    Ok(all)
}

/// All rings trade this often, each in a thread of its own if threads can be made.
pub fn trade_all<B: Ledger + Send, R: Threads + Sync>(
    rt: &R,
    table: &Shared<B>,
    rings: &mut [Ring<B>],
    times: u64,
)
    requires each { All (λ r. IsHolder table.now r.pass r.ring r.cell.address 0) rings.old }
    requires few { times < 2 ^ 56 }
    ensures each { All (λ r. IsHolder table.now r.pass r.ring r.cell.address times) rings.new }
    ensures numbers { (i : ℕ) (d : Ring B) → i < length rings.old → (slice_index_or rings.new i d).ring ≡ (slice_index_or rings.old i d).ring }
{
    thread::for_each_mut(rt, rings, 4, &|_, ring| trade(table, ring, times));
}

/// All rings give their count up.
pub fn give_up_all<B: Ledger + Send, R: Threads + Sync>(
    rt: &R,
    table: &Shared<B>,
    rings: &mut [Ring<B>],
    _times: u64,
)
    requires { All (λ r. IsHolder table.now r.pass r.ring r.cell.address _times) rings.old }
    ensures each { All (λ r. IsRing table.now r.pass r.ring) rings.new }
    ensures gave { (i : ℕ) (d : Ring B) → i < length rings.old → GaveUp (slice_index_or rings.old i d) (slice_index_or rings.new i d) }
    ensures numbers { (i : ℕ) (d : Ring B) → i < length rings.old → (slice_index_or rings.new i d).ring ≡ (slice_index_or rings.old i d).ring }
{
    thread::for_each_mut(rt, rings, 4, &|_, ring| give_one_up(table, ring));
}

/// How often rings were told that they gave a last count up.
fn lasts_of<B: Ledger>(rings: &[Ring<B>]) -> u64
    ensures { result ≡ min (sum_by (λ r. r.lasts) rings.now) (2 ^ 64 - 1) }
{
    let mut lasts: u64 = 0;
    for ring in rings {
        lasts = lasts.saturating_add(ring.lasts);
    }
    lasts
}

/// Takes all rings' passes in, the last first, and says how often one was told that it gave a last count up.
pub fn gather_all<B: Ledger>(table: &Shared<B>, first: &mut Pass<B>, rings: Vec<Ring<B>>) -> u64
    requires first { IsGathered table.now first.old (length rings.items) }
    requires each { All (λ r. IsRing table.now r.pass r.ring) rings.items }
    requires numbers { (i : ℕ) (d : Ring B) → i < length rings.items → (slice_index_or rings.items i d).ring ≡ i }
    ensures first { IsGathered table.now first.new 0 }
    ensures lasts { result ≡ min (sum_by (λ r. r.lasts) rings.items) (2 ^ 64 - 1) }
{
    let lasts = lasts_of(rings.as_slice());
    let mut rings = rings;
    while let Some(ring) = rings.pop() {
        gather(table, first, ring);
    }
    lasts
}

/// How often a cell is counted, by the word at its address; none if the table has no such word.
pub fn count_of<B: Ledger>(table: &Shared<B>, cell: Cref) -> Option<u64>
    ensures { IsSome result ↔ (cell.address < table.now.table.shared.table_id.words) }
{
    word_at(table, cell.address as usize)
}

/// The head and the literals of the ring's cell.
pub fn read_back<B: Ledger>(
    alloc: Global,
    table: &Shared<B>,
    ring: &mut Ring<B>,
) -> Result<(Head, Vec<Lit>), Fail>
    requires { (n : ℕ) × IsHolder table.now ring.old.pass ring.old.ring ring.old.cell.address n }
    ensures head { IfOk result (λ read. read.0 ≡ head_of ring.old.cell.address ring.old.pass.me.0) }
    ensures lits { IfOk result (λ read. read.1.items ≡ (clause_of ring.old.cell.address ring.old.pass.me.0).lits) }
    ensures pass { IsPassOf table.now ring.new.pass }
    ensures same { (ring.new.pass.me.0.parts ≡ ring.old.pass.me.0.parts) × (ring.new.cell ≡ ring.old.cell) }
{
    let head = read_head(table, &mut ring.pass, ring.cell);
    let mut lits = Vec::new(alloc);
    for place in 0..head.size {
        lits.push(read_lit(table, &mut ring.pass, ring.cell, place))?;
    }
    Ok((head, lits))
}

/// The codes of the literals of the ring's cell, added to a sum, which wraps.
fn sum_of_cell<B: Ledger>(table: &Shared<B>, ring: &mut Ring<B>, size: u32, start: u64) -> u64
    requires pass { IsPassOf table.now ring.old.pass }
    requires held { IsHolding ring.old.cell.address ring.old.pass.me.0 }
    requires size { size ≡ length (clause_of ring.old.cell.address ring.old.pass.me.0).lits }
    ensures sum { result ≡ (start + code_sum (clause_of ring.old.cell.address ring.old.pass.me.0).lits) % 2 ^ 64 }
    ensures pass { IsPassOf table.now ring.new.pass }
    ensures same { (ring.new.pass.me.0.parts ≡ ring.old.pass.me.0.parts) × (ring.new.cell ≡ ring.old.cell) }
{
    let mut sum = start;
    for place in 0..size {
        let lit = read_lit(table, &mut ring.pass, ring.cell, place);
        sum = sum.wrapping_add(lit.code() as u64);
    }
    sum
}

/// The same this often, in one sum.
pub fn sum_of_reads<B: Ledger>(table: &Shared<B>, ring: &mut Ring<B>, times: u32) -> u64
    requires { (n : ℕ) × IsHolder table.now ring.old.pass ring.old.ring ring.old.cell.address n }
    ensures sum { result ≡ (times * code_sum (clause_of ring.old.cell.address ring.old.pass.me.0).lits) % 2 ^ 64 }
    ensures pass { IsPassOf table.now ring.new.pass }
    ensures same { (ring.new.pass.me.0.parts ≡ ring.old.pass.me.0.parts) × (ring.new.cell ≡ ring.old.cell) }
{
    let head = read_head(table, &mut ring.pass, ring.cell);
    let mut sum: u64 = 0;
    for _done in 0..times {
        sum = sum_of_cell(table, ring, head.size, sum);
    }
    sum
}
