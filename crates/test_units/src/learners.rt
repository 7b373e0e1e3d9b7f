//! Rings that learn, put what they learned into a cell, delete it, and list a unit.
ghost use Rattle.std.specs.Prelude.{◌≡◌, ◌≢◌, ◌≤◌, ◌<◌, ◌+◌, ℕ, ◌∷◌, [], true, false, IfSome, IfNone, MatchBool, MatchOption, length};
ghost use Rattle.share_rule.specs.Layout.{InVars};
ghost use Rattle.share_core.specs.State.{times_at};
ghost use Rattle.share_core.specs.Events.{wrote_part};
ghost use Rattle.share_rule.specs.Views.{clause_of};
ghost use Rattle.share_rule.specs.FirstWords.{starts_at};
ghost use Rattle.test_tables.specs.Samples.{IsFirst, IsRing as IsAlone};
ghost use Rattle.rup_model.specs.declared.journal.Kind.TheVariants.{Learn};
ghost use Rattle.rup_model.specs.declared.journal.Entry.TheVariants.{Add};
ghost use Rattle.rup_model.specs.Opening.{IsLong};
ghost use Rattle.share_core.specs.Events.{made_part, opened_part};
ghost use Rattle.share_core.specs.Learning.{after_learn};
ghost use Rattle.share_rule.specs.Tickets.{MayDraw};
ghost use Rattle.share_rule.specs.Views.{only};
ghost use Rattle.test_units.specs.Doings.{WroteNone, DrewTicket, Buried, NotBuried, ListedOne, ReadOne};
ghost use Rattle.test_units.specs.Samples.{IsBeginner, IsLearner, IsBuilder, IsPairHolder, WroteLast, three};

use clause_cell::{head_word, lit_word};
use io_edge::Sink;
use log_book::{Book, give_turn, take_turn};
use ref_count::{Dropped, drop_count, open_cell, read_head, read_lit, store_word};
use rup_model::Kind;
use sat_words::{Cref, Lit};
use share_rule::{Pass, Shared};
use std::alloc::Global;
use std::sync::Wait;
use test_tables::{Ring, begin};
use ticket_word::{Drawn, draw};
use unit_share::{next_unit, publish};

/// Draws a ticket for the ring, with which it may learn a clause. False if none is left.
pub fn draw_ticket<S: Sink>(table: &Shared<Book<S>>, ring: &mut Ring<Book<S>>) -> bool
    requires ring { IsAlone table.now ring.old.pass ring.old.ring }
    requires may { MayDraw ring.old.pass.me.0 }
    ensures ring { IsAlone table.now ring.new.pass ring.new.ring }
    ensures drew { result ≡ true → DrewTicket ring.old.pass.me.0 ring.new.pass.me.0 }
    ensures same { (ring.new.ring ≡ ring.old.ring) × (ring.new.pass.me.0.opening ≡ ring.old.pass.me.0.opening) }
{
    match draw(table, &mut ring.pass) {
        Drawn::Ticket => true,
        Drawn::Gone => false,
    }
}

/// Takes the turn, learns the clause, and gives the turn back: its cell and its number.
#[tactic(auto, using(crate::proofs::Learning::may_learn_taken))]
pub fn learn<H: Wait, S: Sink>(
    rt: &H,
    alloc: Global,
    table: &Shared<Book<S>>,
    ring: &mut Ring<Book<S>>,
    lits: &[Lit],
) -> Option<(Cref, u64)>
    requires learner { IsLearner table.now ring.old.pass ring.old.ring lits.now }
    requires long { IsLong lits.now }
    requires clear { (only ring.old.pass.me.0).core.making ≡ [] }
    ensures ring { IsAlone table.now ring.new.pass ring.new.ring }
    ensures builder { IfSome result (λ x. IsBuilder table.now ring.new.pass ring.new.ring x.0.address x.1 lits.now) }
    ensures part { IfSome result (λ x. (i : ℕ) × ((only ring.new.pass.me.0).core ≡ made_part (record { address = x.0.address; number = x.1; lits = lits.now }) i (Add (record { ring = ring.old.ring; number = x.1; lits = lits.now; kind = Learn; hints = [] })) (after_learn Learn (only ring.old.pass.me.0).core))) }
    ensures none { IfNone result (WroteNone ring.old.pass.me.0 ring.new.pass.me.0) }
    ensures same { (ring.new.ring ≡ ring.old.ring) × (ring.new.pass.me.0.opening ≡ ring.old.pass.me.0.opening) }
{
    let mut turn = take_turn(rt, alloc, table, &mut ring.pass, ring.ring);
    match turn.add(&ring.pass, alloc, Kind::Learn, lits, 1, &[]) {
        Ok(cell) => {
            let number = turn.last();
            give_turn(table, &mut ring.pass, turn);
            Some((cell, number))
        }
        Err(_) => {
            give_turn(table, &mut ring.pass, turn);
            None
        }
    }
}

/// Stores the words of the cell of two literals that the ring builds, and opens it.
pub fn build<S: Sink>(
    table: &Shared<Book<S>>,
    ring: &mut Ring<Book<S>>,
    cell: Cref,
    number: u64,
    lits: &[Lit; 2],
)
    requires { IsBuilder table.now ring.old.pass ring.old.ring cell.address number lits.now }
    ensures ring { IsAlone table.now ring.new.pass ring.new.ring }
    ensures part { (only ring.new.pass.me.0).core ≡ opened_part (record { address = cell.address; number = number; lits = lits.now }) (only ring.old.pass.me.0).core }
    ensures same { (ring.new.ring ≡ ring.old.ring) × (ring.new.pass.me.0.opening ≡ ring.old.pass.me.0.opening) }
{
    store_word(table, &mut ring.pass, cell, 1, number);
    store_word(table, &mut ring.pass, cell, 2, head_word(2, 1));
    store_word(table, &mut ring.pass, cell, 3, lit_word(lits.as_slice(), 0));
    open_cell(table, &mut ring.pass, cell);
}

/// The number and the two literals of a cell that the ring holds. None if the clause is longer or shorter.
fn read_pair<S: Sink>(
    table: &Shared<Book<S>>,
    ring: &mut Ring<Book<S>>,
    cell: Cref,
) -> Option<(u64, [Lit; 2])>
    requires ring { IsAlone table.now ring.old.pass ring.old.ring }
    requires held { 0 < times_at cell.address (only ring.old.pass.me.0).core.held }
    ensures ring { IsAlone table.now ring.new.pass ring.new.ring }
    ensures lits { MatchOption result (length (clause_of cell.address ring.old.pass.me.0).lits ≢ 2) (λ x. x.1 ≡ (clause_of cell.address ring.old.pass.me.0).lits) }
    ensures number { IfSome result (λ x. x.0 ≡ (clause_of cell.address ring.old.pass.me.0).number) }
    ensures same { (ring.new.ring ≡ ring.old.ring) × (ring.new.pass.me.0.parts ≡ ring.old.pass.me.0.parts) }
{
    let head = read_head(table, &mut ring.pass, cell);
    if head.size != 2 {
        return None;
    }
    let first = read_lit(table, &mut ring.pass, cell, 0);
    let second = read_lit(table, &mut ring.pass, cell, 1);
    Some((head.number, [first, second]))
}

/// Gives the last count of a cell of two literals up, takes the turn, deletes its clause, and gives the turn back. False where
/// the clause is longer or shorter, others hold the cell, or the deletion is refused.
pub fn give_up_and_bury<H: Wait, S: Sink>(
    rt: &H,
    alloc: Global,
    table: &Shared<Book<S>>,
    ring: &mut Ring<Book<S>>,
    cell: Cref,
) -> bool
    requires ring { IsAlone table.now ring.old.pass ring.old.ring }
    requires held { 0 < times_at cell.address (only ring.old.pass.me.0).core.held }
    requires none { (only ring.old.pass.me.0).core.waiting ≡ [] }
    ensures ring { IsAlone table.now ring.new.pass ring.new.ring }
    ensures deleted { MatchBool result (Buried cell.address ring.old.pass.me.0 ring.new.pass.me.0) (NotBuried cell.address ring.old.pass.me.0 ring.new.pass.me.0) }
    ensures same { (ring.new.ring ≡ ring.old.ring) × ((only ring.new.pass.me.0).core.seen ≡ (only ring.old.pass.me.0).core.seen) }
{
    let Some(found) = read_pair(table, ring, cell) else {
        return false;
    };
    let lits = found.1;
    match drop_count(table, &mut ring.pass, cell) {
        Dropped::Left => return false,
        Dropped::Last => {}
    }
    let mut turn = take_turn(rt, alloc, table, &mut ring.pass, ring.ring);
    match turn.bury(&ring.pass, cell, found.0, lits.as_slice()) {
        Ok(()) => {
            give_turn(table, &mut ring.pass, turn);
            true
        }
        Err(_) => {
            give_turn(table, &mut ring.pass, turn);
            false
        }
    }
}

/// Takes the turn, learns the unit, and gives the turn back: its number.
#[tactic(auto, using(crate::proofs::Learning::may_learn_taken))]
pub fn learn_unit<H: Wait, S: Sink>(
    rt: &H,
    alloc: Global,
    table: &Shared<Book<S>>,
    ring: &mut Ring<Book<S>>,
    lit: Lit,
) -> Option<u64>
    requires { IsLearner table.now ring.old.pass ring.old.ring (lit ∷ []) }
    ensures ring { IsAlone table.now ring.new.pass ring.new.ring }
    ensures part { IfSome result (λ n. (i : ℕ) × ((only ring.new.pass.me.0).core ≡ wrote_part i (Add (record { ring = ring.old.ring; number = n; lits = lit ∷ []; kind = Learn; hints = [] })) (after_learn Learn (only ring.old.pass.me.0).core))) }
    ensures none { IfNone result (WroteNone ring.old.pass.me.0 ring.new.pass.me.0) }
    ensures same { (ring.new.ring ≡ ring.old.ring) × (ring.new.pass.me.0.opening ≡ ring.old.pass.me.0.opening) }
{
    let mut turn = take_turn(rt, alloc, table, &mut ring.pass, ring.ring);
    match turn.add_unit(&ring.pass, alloc, Kind::Learn, lit, &[]) {
        Ok(number) => {
            give_turn(table, &mut ring.pass, turn);
            Some(number)
        }
        Err(_) => {
            give_turn(table, &mut ring.pass, turn);
            None
        }
    }
}

/// Takes the turn, lists the unit with its number if no unit is listed, and gives the turn back. False if one is listed, which
/// it reads.
pub fn list_first<H: Wait, S: Sink>(
    rt: &H,
    alloc: Global,
    table: &Shared<Book<S>>,
    ring: &mut Ring<Book<S>>,
    lit: Lit,
    number: u64,
) -> bool
    requires ring { IsAlone table.now ring.old.pass ring.old.ring }
    requires told { WroteLast ring.old.ring lit number (only ring.old.pass.me.0).core }
    requires none { (only ring.old.pass.me.0).core.seen ≡ [] }
    requires on { InVars table.now.layout (lit ∷ []) }
    ensures ring { IsAlone table.now ring.new.pass ring.new.ring }
    ensures listed { MatchBool result (ListedOne lit number ring.old.pass.me.0 ring.new.pass.me.0) (ReadOne ring.old.pass.me.0 ring.new.pass.me.0) }
    ensures same { ring.new.ring ≡ ring.old.ring }
{
    let turn = take_turn(rt, alloc, table, &mut ring.pass, ring.ring);
    match next_unit(table, &mut ring.pass, 0) {
        Some(_) => {
            give_turn(table, &mut ring.pass, turn);
            false
        }
        None => {
            publish(table, &mut ring.pass, lit, number, 0);
            give_turn(table, &mut ring.pass, turn);
            true
        }
    }
}

/// Draws a ticket, learns the clause of 1 and 2, and puts it into a cell, which the ring then holds.
#[tactic(auto, using(crate::proofs::Playing::may_learn_pair, crate::proofs::Playing::long_pair))]
pub fn learn_pair<H: Wait, S: Sink>(
    rt: &H,
    alloc: Global,
    table: &Shared<Book<S>>,
    ring: &mut Ring<Book<S>>,
) -> Option<Cref>
    requires { IsBeginner table.now ring.old.pass ring.old.ring }
    ensures ring { IsAlone table.now ring.new.pass ring.new.ring }
    ensures holder { IfSome result (λ c. IsPairHolder table.now ring.new.pass ring.new.ring c.address false) }
    ensures same { ring.new.ring ≡ ring.old.ring }
{
    let first = Lit::new(1, false);
    let second = Lit::new(2, false);
    let pair = [first, second];
    if !draw_ticket(table, ring) {
        return None;
    }
    let (cell, number) = learn(rt, alloc, table, ring, pair.as_slice())?;
    build(table, ring, cell, number, &pair);
    Some(cell)
}

/// A ring of a table over the three clauses.
pub fn begin_over_three<S: Sink>(
    table: &Shared<Book<S>>,
    first: &mut Pass<Book<S>>,
    ring: u32,
    cell: Cref,
) -> Ring<Book<S>>
    requires first { IsFirst table.now first.old ring }
    requires ring { ring < first.old.me.0.opening.rings }
    requires cell { 0 < times_at cell.address first.old.me.0.opening.starts }
    requires starts { (a : ℕ) × (first.old.me.0.opening.starts ≡ starts_at a three) }
    requires plain { first.old.me.0.opening.hinted ≡ false }
    requires vars { 2 ≤ table.now.layout.vars }
    ensures first { IsFirst table.now first.new (ring + 1) }
    ensures same { (first.new.me.0.opening ≡ first.old.me.0.opening) × (first.new.me.0.parts ≡ first.old.me.0.parts) }
    ensures beginner { IsBeginner table.now result.pass result.ring × (result.ring ≡ ring) }
{
    begin(table, first, ring, cell)
}
