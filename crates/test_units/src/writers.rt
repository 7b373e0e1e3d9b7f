//! Rings that take the turn of one book again and again, and write a unit each time.
ghost use Rattle.std.specs.Prelude.{◌≡◌, ◌≤◌, ◌<◌, ◌+◌, ◌-◌, ◌^◌, All, IfOk, OnOk, fold, length, max, min, sum_by, ℕ, slice_index_or, false, [], MatchOption, nat_lt};
ghost use Rattle.rup_model.specs.Basics.{one_if};
ghost use Rattle.io_edge.specs.Paths.{IsEmptyWhereTold};
ghost use Rattle.sat_words.specs.declared.line.ProofFormat.TheVariants.{Text};
ghost use Rattle.share_rule.specs.declared.Layout.{Layout};
ghost use Rattle.share_rule.specs.Books.{HasLog};
ghost use Rattle.log_book.specs.Books.{account_of, origin_of, IsLogOf};
ghost use Rattle.share_core.specs.Events.{wrote_part};
ghost use Rattle.share_core.specs.State.{times_at};
ghost use Rattle.share_rule.specs.Views.{only};
ghost use Rattle.test_units.specs.Doings.{GaveTurn, HasWritten, unit_line};
ghost use Rattle.share_rule.specs.FirstWords.{starts_at};
ghost use Rattle.share_rule.specs.Passes.{IsPassOf};
ghost use Rattle.test_tables.specs.Samples.{IsFirst, IsGathered};
ghost use Rattle.test_units.specs.Samples.{IsWriter, plus, three};
ghost use Rattle.test_units.specs.declared.writers.Writer.{Writer};

use io_edge::Sink;
use log_book::{Book, give_turn, take_turn};
use rup_model::Kind;
use sat_words::{Cref, Formula, Lit, ProofFormat};
use share_rule::{Pass, Shared};
use std::alloc::Global;
use std::sync::Wait;
use std::test::Fail;
use std::thread;
use std::thread::Threads;
use test_formulas::Problem;
use test_tables::{Ring, begin, gather};

/// Three clauses, of which 2 follows.
pub fn make_three(alloc: Global) -> Result<Problem, Fail>
    ensures start { IfOk result (λ p. p.start.items ≡ three) }
    ensures vars { IfOk result (λ p. p.formula.vars ≡ 3) }
    ensures units { IfOk result (λ p. p.listed.items ≡ []) }
{
    let one = Lit::new(1, false);
    let two = Lit::new(2, false);
    let three = Lit::new(3, false);
    let problem = Problem::new(alloc, 3);
    let problem = problem.with(alloc, &[one, two, three])?;
    let problem = problem.with(alloc, &[one, two, three.not()])?;
    problem.with(alloc, &[one.not(), two])
}

/// A book for a formula, in which no line stands.
pub fn new_book<S: Sink + Drop>(
    alloc: Global,
    formula: &Formula,
    sink: S,
    keep_lines: bool,
) -> Result<Book<S>, Fail>
    requires { IsEmptyWhereTold (S.written sink) }
    ensures log { IfOk result (λ b. (l : Layout) → HasLog account_of (IsLogOf S.written S.flushed S.target S.faults) b (origin_of S.written S.flushed S.target S.faults b) l formula.now.clauses []) }
    ensures whole { IfOk result (λ b. b.log.lines.spent ≡ false) }
    ensures plain { IfOk result (λ b. b.log.lines.format ≡ Text) }
{
    let clauses = formula.clauses().len() as u64;
    if clauses > 1 << 32 {
        return Err(Fail::from("too many clauses"));
    }
    match Book::new(alloc, ProofFormat::Text, clauses, sink, keep_lines) {
        Ok(book) => {
            book.has_its_log();
            Ok(book)
        }
        Err(_) => Err(Fail::from("no memory")),
    }
}

/// Takes the turn, adds the unit, and gives the turn back: the number of its line.
fn write_unit<H: Wait, S: Sink>(
    rt: &H,
    alloc: Global,
    table: &Shared<Book<S>>,
    ring: &mut Ring<Book<S>>,
    lit: Lit,
) -> Option<u64>
    requires { IsWriter table.now ring.old.pass ring.old.ring lit }
    ensures writer { IsWriter table.now ring.new.pass ring.new.ring lit }
    ensures part { MatchOption result ((only ring.new.pass.me.0).core ≡ (only ring.old.pass.me.0).core) (λ n. (i : ℕ) × ((only ring.new.pass.me.0).core ≡ wrote_part i (unit_line ring.old.ring lit n) (only ring.old.pass.me.0).core)) }
    ensures gave { GaveTurn ring.new.pass.me.0 }
    ensures same { ring.new.ring ≡ ring.old.ring }
{
    let mut turn = take_turn(rt, alloc, table, &mut ring.pass, ring.ring);
    match turn.add_unit(&ring.pass, alloc, Kind::UnitLine, lit, &[]) {
        Ok(number) => {
            give_turn(table, &mut ring.pass, turn);
            Some(number)
        }
        Err(_) => {
            give_turn(table, &mut ring.pass, turn);
            None
        }
    }
}

/// A ring that writes one unit again and again, and what it was known.
#[derive(Drop)]
pub struct Writer<S: Sink> {
    /// The ring.
    pub ring: Ring<Book<S>>,
    /// How often a line stood under a number greater than the last one.
    pub written: u64,
    /// The last number.
    pub last: u64,
    /// The numbers in one sum.
    pub sum: u64,
}

/// Notes the number of a line.
fn note<S: Sink>(writer: &mut Writer<S>, number: u64)
    ensures written { writer.new.written ≡ min (writer.old.written + one_if (nat_lt writer.old.last number)) (2 ^ 64 - 1) }
    ensures last { writer.new.last ≡ number }
    ensures sum { writer.new.sum ≡ min (writer.old.sum + number) (2 ^ 64 - 1) }
    ensures same { writer.new.ring ≡ writer.old.ring }
{
    let written = writer.written;
    if number > writer.last {
        writer.written = written.saturating_add(1);
    }
    writer.last = number;
    writer.sum = writer.sum.saturating_add(number);
}

/// Writes the unit 2 this often.
fn write_often<H: Wait, S: Sink>(
    rt: &H,
    alloc: Global,
    table: &Shared<Book<S>>,
    writer: &mut Writer<S>,
    times: u64,
)
    requires { IsWriter table.now writer.old.ring.pass writer.old.ring.ring (plus 2) }
    ensures writer { IsWriter table.now writer.new.ring.pass writer.new.ring.ring (plus 2) }
    ensures told { HasWritten (plus 2) times writer.old writer.new }
    ensures same { writer.new.ring.ring ≡ writer.old.ring.ring }
{
    for _ in 0..times {
        let given = write_unit(rt, alloc, table, &mut writer.ring, Lit::new(2, false));
        if let Some(number) = given {
            note(writer, number);
        }
    }
}

/// All rings, each with a pass of its own.
pub fn begin_writers<S: Sink>(
    alloc: Global,
    table: &Shared<Book<S>>,
    first: &mut Pass<Book<S>>,
    cell: Cref,
    rings: u32,
) -> Result<Vec<Writer<S>>, Fail>
    requires first { IsFirst table.now first.old 0 × (first.old.me.0.opening.rings ≡ rings) × (first.old.me.0.parts ≡ []) }
    requires cell { 0 < times_at cell.address first.old.me.0.opening.starts }
    requires starts { (a : ℕ) × (first.old.me.0.opening.starts ≡ starts_at a three) }
    requires plain { first.old.me.0.opening.hinted ≡ false }
    requires vars { 2 ≤ table.now.layout.vars }
    ensures first { OnOk result (IsGathered table.now first.new rings) }
    ensures len { IfOk result (λ v. length v.items ≡ rings) }
    ensures each { IfOk result (λ v. All (λ w. IsWriter table.now w.ring.pass w.ring.ring (plus 2)) v.items) }
    ensures numbers { IfOk result (λ v. (i : ℕ) (d : Writer S _) → i < rings → (slice_index_or v.items i d).ring.ring ≡ i) }
{
    let mut all = Vec::new(alloc);
    for ring in 0..rings {
        let ring = begin(table, first, ring, cell);
        let writer = Writer {
            ring,
            written: 0,
            last: 0,
            sum: 0,
        };
        all.push(writer)?;
    }
    Ok(all)
}

/// All rings write this often, each in a thread of its own if threads can be made.
pub fn write_all<S: Sink + Send, R: Threads + Wait + Sync>(
    rt: &R,
    alloc: Global,
    table: &Shared<Book<S>>,
    writers: &mut [Writer<S>],
    times: u64,
)
    requires { All (λ w. IsWriter table.now w.ring.pass w.ring.ring (plus 2)) writers.old }
    ensures each { All (λ w. IsWriter table.now w.ring.pass w.ring.ring (plus 2)) writers.new }
    ensures told { (i : ℕ) (d : Writer S _) → i < length writers.old → HasWritten (plus 2) times (slice_index_or writers.old i d) (slice_index_or writers.new i d) }
    ensures numbers { (i : ℕ) (d : Writer S _) → i < length writers.old → (slice_index_or writers.new i d).ring.ring ≡ (slice_index_or writers.old i d).ring.ring }
{
    thread::for_each_mut(
        rt,
        writers,
        4,
        &|_, writer| { write_often(rt, alloc, table, writer, times) },
    );
}

/// What writers were known: how often they wrote, the last of all numbers, and the numbers in one sum.
fn told_by<S: Sink>(writers: &[Writer<S>]) -> (u64, u64, u64)
    ensures written { result.0 ≡ min (sum_by (λ w. w.written) writers.now) (2 ^ 64 - 1) }
    ensures last { result.1 ≡ fold (λ n w. max n w.last) 0 writers.now }
    ensures sum { result.2 ≡ min (sum_by (λ w. w.sum) writers.now) (2 ^ 64 - 1) }
{
    let mut written: u64 = 0;
    let mut last: u64 = 0;
    let mut sum: u64 = 0;
    for writer in writers {
        written = written.saturating_add(writer.written);
        last = last.max(writer.last);
        sum = sum.saturating_add(writer.sum);
    }
    (written, last, sum)
}

/// Takes all rings' passes in, the last first: how often they wrote, the last of all numbers, and the numbers in one sum.
pub fn gather_writers<S: Sink>(
    table: &Shared<Book<S>>,
    first: &mut Pass<Book<S>>,
    writers: Vec<Writer<S>>,
) -> (u64, u64, u64)
    requires first { IsGathered table.now first.old (length writers.items) }
    requires each { All (λ w. IsWriter table.now w.ring.pass w.ring.ring (plus 2)) writers.items }
    requires numbers { (i : ℕ) (d : Writer S _) → i < length writers.items → (slice_index_or writers.items i d).ring.ring ≡ i }
    ensures first { IsGathered table.now first.new 0 }
    ensures written { result.0 ≡ min (sum_by (λ w. w.written) writers.items) (2 ^ 64 - 1) }
    ensures last { result.1 ≡ fold (λ n w. max n w.last) 0 writers.items }
    ensures sum { result.2 ≡ min (sum_by (λ w. w.sum) writers.items) (2 ^ 64 - 1) }
{
    let told = told_by(writers.as_slice());
    let mut writers = writers;
    while let Some(writer) = writers.pop() {
        let Writer {
            ring,
            written: _,
            last: _,
            sum: _,
        } = writer;
        gather(table, first, ring);
    }
    told
}
