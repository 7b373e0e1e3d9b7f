//! Rings over a small table, as ports, and back.
ghost use Rattle.std.specs.Prelude.{◌≡◌, ◌≤◌, ◌<◌, ◌+◌, ◌∷◌, [], false, true, length, IfOk, OnOk, slice_get, Some};
ghost use Rattle.io_edge.specs.Paths.{IsEmptyWhereTold};
ghost use Rattle.sat_words.specs.declared.line.ProofFormat.TheVariants.{Text};
ghost use Rattle.log_book.specs.Books.{account_of, origin_of, IsLogOf, IsNew};
ghost use Rattle.share_rule.specs.declared.Layout.{Layout};
ghost use Rattle.share_rule.specs.Books.{HasLog};
ghost use Rattle.share_rule.specs.FirstWords.{begun_with};
ghost use Rattle.share_rule.specs.Rests.{NoneBuild};
ghost use Rattle.share_rule.specs.Steps.{new_part};
ghost use Rattle.test_tables.specs.Samples.{IsFirst, IsRing, IsGathered};
ghost use Rattle.test_pass.specs.Samples.{first, second, third, four, spare, IsAt, IsBegun, BeginsWithFour, IsHome};

use io_edge::Sink;
use log_book::Book;
use ring_pass::RingPass;
use ring_port::Gate;
use sat_words::{Cref, Formula, Lit, ProofFormat};
use share_rule::{Pass, Shared};
use std::alloc::Global;
use std::sync::Wait;
use std::test::Fail;
use test_formulas::Problem;
use test_tables::{Ring, begin, gather, open_with, start_cell};

/// Four clauses. Of the first three 2 follows, and `1 2` and `2 -3`.
pub fn make_four(alloc: Global) -> Result<Problem, Fail>
    ensures start { IfOk result (λ p. p.start.items ≡ four) }
    ensures vars { IfOk result (λ p. p.formula.vars ≡ 3) }
    ensures clauses { IfOk result (λ p. p.formula.clauses ≡ first ∷ second ∷ third ∷ spare ∷ []) }
    ensures units { IfOk result (λ p. p.listed.items ≡ []) }
{
    let one = Lit::new(1, false);
    let two = Lit::new(2, false);
    let three = Lit::new(3, false);
    let problem = Problem::new(alloc, 3);
    let problem = problem.with(alloc, &[one, two, three])?;
    let problem = problem.with(alloc, &[one, two, three.not()])?;
    let problem = problem.with(alloc, &[one.not(), two])?;
    problem.with(alloc, &[two, three])
}

/// A book for a formula, which keeps its lines.
pub fn new_book<S: Sink + Drop>(alloc: Global, formula: &Formula, sink: S) -> Result<Book<S>, Fail>
    requires { IsEmptyWhereTold (S.written sink) }
    ensures log { IfOk result (λ b. (l : Layout) → HasLog account_of (IsLogOf S.written S.flushed S.target S.faults) b (origin_of S.written S.flushed S.target S.faults b) l formula.now.clauses []) }
    ensures made { IfOk result (λ b. IsNew Text (length formula.now.clauses) sink true b) }
    ensures whole { IfOk result (λ b. b.log.lines.spent ≡ false) }
{
    let clauses = formula.clauses().len() as u64;
    if clauses > 1 << 32 {
        return Err("too many clauses".into());
    }
    match Book::new(alloc, ProofFormat::Text, clauses, sink, true) {
        Ok(book) => {
            book.has_its_log();
            Ok(book)
        }
        Err(_) => Err("no memory".into()),
    }
}

/// A table with its first pass and the addresses of the start cells.
pub type Opened<S> = (Shared<Book<S>>, Pass<Book<S>>, Vec<Cref>);

/// How many clauses the rings may learn together.
const CONFLICTS: u64 = 4;

/// A table for two rings over the four clauses, with so many slots for each class.
pub fn open_four<S: Sink + Drop>(alloc: Global, depth: u32, sink: S) -> Result<Opened<S>, Fail>
    requires empty { IsEmptyWhereTold (S.written sink) }
    requires deep { 1 ≤ depth }
    ensures first { IfOk result (λ m. IsFirst m.0 m.1 0) }
    ensures parts { IfOk result (λ m. m.1.me.0.parts ≡ []) }
    ensures layout { IfOk result (λ m. m.0.layout ≡ record { rings = 2; vars = 3; words = 64; depth = depth; conflicts = 4 }) }
    ensures opening { IfOk result (λ m. m.1.me.0.opening ≡ begun_with (first ∷ second ∷ third ∷ spare ∷ []) m.0.layout false [] four []) }
    ensures four { IfOk result (λ m. BeginsWithFour m.0 m.1.me.0.opening m.2.items) }
{
    let problem = make_four(alloc)?;
    let book = new_book(alloc, &problem.formula, sink)?;
    open_with(alloc, &problem, 2, 64, depth, CONFLICTS, book)
}

/// The address of the fourth cell.
pub fn fourth(cells: &[Cref]) -> Result<Cref, Fail>
    ensures { IfOk result (λ c. slice_get cells.now 3 ≡ Some c) }
{
    match cells.get(3) {
        Some(c) => Ok(*c),
        None => Err("no fourth cell".into()),
    }
}

/// The port of a ring that begins.
pub fn port_of<'a, S: Sink, G: Gate, H: Wait>(
    rt: &'a H,
    alloc: Global,
    table: &'a Shared<Book<S>>,
    gate: &'a G,
    ring: Ring<Book<S>>,
    start: &'a [Cref],
) -> Result<RingPass<'a, S, G, H>, Fail>
    requires ring { IsRing table.now ring.pass ring.ring }
    requires part { ring.pass.me.0.parts ≡ new_part ring.pass.me.0.opening ring.ring ∷ [] }
    requires four { BeginsWithFour table.now ring.pass.me.0.opening start.now }
    ensures begun { IfOk result (λ p. IsBegun p) }
    ensures spare { IfOk result (λ p. (c : Cref) → slice_get start.now 3 ≡ Some c → IsAt p c.address spare) }
    ensures ring { IfOk result (λ p. p.ring ≡ ring.ring) }
    ensures depth { IfOk result (λ p. p.depth ≡ ring.pass.me.0.opening.depth) }
    ensures home { IfOk result (λ p. IsHome table.now p) }
{
    let Ring { pass, ring, .. } = ring;
    match RingPass::new(alloc, table, gate, rt, pass, ring, false, start) {
        Ok(port) => Ok(port),
        Err(_) => Err("no memory".into()),
    }
}

/// Splits a pass for the ring off, which begins: its port.
pub fn begin_port<'a, S: Sink, G: Gate, H: Wait>(
    rt: &'a H,
    alloc: Global,
    table: &'a Shared<Book<S>>,
    gate: &'a G,
    first: &mut Pass<Book<S>>,
    ring: u32,
    start: &'a [Cref],
) -> Result<RingPass<'a, S, G, H>, Fail>
    requires first { IsFirst table.now first.old ring }
    requires ring { ring < 2 }
    requires four { BeginsWithFour table.now first.old.me.0.opening start.now }
    ensures first { OnOk result (IsFirst table.now first.new (ring + 1)) }
    ensures same { OnOk result ((first.new.me.0.opening ≡ first.old.me.0.opening) × (first.new.me.0.parts ≡ first.old.me.0.parts)) }
    ensures begun { IfOk result (λ p. IsBegun p) }
    ensures spare { IfOk result (λ p. (c : Cref) → slice_get start.now 3 ≡ Some c → IsAt p c.address spare) }
    ensures ring { IfOk result (λ p. p.ring ≡ ring) }
    ensures depth { IfOk result (λ p. p.depth ≡ first.old.me.0.opening.depth) }
    ensures home { IfOk result (λ p. IsHome table.now p) }
{
    let cell = start_cell(first, start, 0)?;
    let ring = begin(table, first, ring, cell);
    port_of(rt, alloc, table, gate, ring, start)
}

/// Takes the pass of a ring's port in.
pub fn join_ring<S: Sink, G: Gate, H: Wait>(
    table: &Shared<Book<S>>,
    first: &mut Pass<Book<S>>,
    port: RingPass<'_, S, G, H>,
    ring: u32,
)
    requires first { IsGathered table.now first.old (ring + 1) }
    requires ring { port.ring ≡ ring }
    requires home { IsHome table.now port }
    ensures gathered { IsGathered table.now first.new ring }
    ensures built { NoneBuild first.old.me.0.parts → NoneBuild first.new.me.0.parts }
{
    let pass = port.into_pass(table, first);
    let ring = Ring {
        pass,
        ring,
        cell: Cref { address: 0 },
        lasts: 0,
    };
    gather(table, first, ring);
}
