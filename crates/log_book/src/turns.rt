// The turn, taken and given back.
ghost use Rattle.std.specs.Prelude.{◌≡◌, ℕ, ◌+◌, [], ◌∷◌, None, MatchOption};
ghost use Rattle.share_rule.specs.Passes.{IsPassOf};
ghost use Rattle.share_rule.specs.Views.{only};
ghost use Rattle.share_rule.specs.Turns.{IsFree, IsWriting, MayWrite, WasRefused, written_of, after_give};
ghost use Rattle.log_book.specs.Turns.{Stands, IsTurn, HasBook, WasOut, WasTaken, HasMissed};

use crate::book::Book;
use crate::turn::Turn;
use io_edge::Sink;
use share_rule::{Gives, Note, Notes, Pass, Refusal, Shared, Takes};
use std::alloc::Global;
use std::hint::spin_loop;
use std::marker::Brand;
use std::sync::Wait;

/// How often the turn is tried before a ring parks: it is mostly held for less than parking takes.
const TRIES: u32 = 100;

/// One try to take the book out with the turn.
fn try_take<S: Sink>(
    table: &Shared<Book<S>>,
    pass: &mut Pass<Book<S>>,
    ring: u32,
) -> Option<Book<S>>
    requires pass { IsPassOf table.now pass.old × (pass.old.me.1 ≡ []) }
    requires ring { IsFree pass.old.me.0 × (ring ≡ (only pass.old.me.0).core.ring) }
    ensures pass { IsPassOf table.now pass.new × (pass.new.id ≡ pass.old.id) }
    ensures turn { MatchOption result ((pass.new.me.1 ≡ []) × HasMissed pass.old.me.0 pass.new.me.0) (λ book. (pass.new.me.1 ≡ (0, None) ∷ []) × HasBook S.written S.flushed S.target S.faults pass.old.me.0 pass.new.me.0 book) }
{
    let words = &table.table.shared;
    let seen = words.peek(0);
    if seen % 256 != 0 {
        return None;
    }
    let found = words.compare_exchange::<Takes<Book<S>>>(pass, 0, seen, seen + ring as u64 + 1);
    if found != seen {
        return None;
    }
    words.exchange(pass, 0, None)
}

/// Tries to take the book out with the turn a number of times, one right after the other. None if another had it each time.
fn try_often<S: Sink>(
    table: &Shared<Book<S>>,
    pass: &mut Pass<Book<S>>,
    ring: u32,
) -> Option<Book<S>>
    requires pass { IsPassOf table.now pass.old × (pass.old.me.1 ≡ []) }
    requires ring { IsFree pass.old.me.0 × (ring ≡ (only pass.old.me.0).core.ring) }
    ensures pass { IsPassOf table.now pass.new × (pass.new.id ≡ pass.old.id) }
    ensures turn { MatchOption result ((pass.new.me.1 ≡ []) × HasMissed pass.old.me.0 pass.new.me.0) (λ book. (pass.new.me.1 ≡ (0, None) ∷ []) × WasOut S.written S.flushed S.target S.faults pass.old.me.0 pass.new.me.0 book) }
{
    for _ in 0..TRIES {
        if let Some(book) = try_take(table, pass, ring) {
            return Some(book);
        }
        spin_loop();
    }
    None
}

/// Waits for the turn. While another has it, it is tried some times, and then the ring parks on its word.
pub fn take_turn<H: Wait, S: Sink>(
    rt: &H,
    alloc: Global,
    table: &Shared<Book<S>>,
    pass: &mut Pass<Book<S>>,
    ring: u32,
) -> Turn<S>
    requires pass { IsPassOf table.now pass.old × (pass.old.me.1 ≡ []) }
    requires ring { IsFree pass.old.me.0 × (ring ≡ (only pass.old.me.0).core.ring) }
    ensures pass { IsPassOf table.now pass.new × (pass.new.id ≡ pass.old.id) × (pass.new.me.1 ≡ (0, None) ∷ []) }
    ensures turn { WasTaken S.written S.flushed S.target S.faults pass.old.me.0 pass.new.me.0 result }
{
    let mut noted = Vec::new(alloc);
    // without room now it is asked for with the first note
    let _room = noted.reserve(1);
    for _ in rt.forever() {
        if let Some(book) = try_often(table, pass, ring) {
            return Turn {
                book,
                noted,
                refused: None,
            };
        }
        let seen = table.table.shared.peek(0);
        if seen % 256 != 0 {
            table.table.shared.park(rt, 0, (seen & 0xffff_ffff) as u32);
        }
    }
    // a loop over `forever` has no end
    unreachable!()
}

fn give_as<N: Notes, S: Sink>(
    table: &Shared<Book<S>>,
    pass: &mut Pass<Book<S>>,
    book: Book<S>,
    _noted: &[Note],
    _refused: Option<Refusal>,
    _failed: bool,
)
    requires pass { IsPassOf table.now pass.old × (pass.old.me.1 ≡ (0, None) ∷ []) }
    requires turn { IsWriting pass.old.me.0 × MayWrite pass.old.me.0 N.notes × WasRefused pass.old.me.0 N.notes N.refused N.failed }
    requires book { Stands S.written S.flushed S.target S.faults book pass.old.me.0.origin pass.old.me.0.layout pass.old.me.0.opening (written_of pass.old.me.0 N.notes).journal N.failed }
    ensures pass { IsPassOf table.now pass.new × (pass.new.id ≡ pass.old.id) × (pass.new.me.1 ≡ []) }
    ensures turn { pass.new.me.0 ≡ after_give N.notes N.refused N.failed pass.old.me.0 }
{
    let words = &table.table.shared;
    let entries = book.entries;
    match words.exchange(pass, 0, Some(book)) {
        None => {}
        // `turn`: while the pass has the turn the slot is empty
        Some(_) => unreachable!(),
    }
    words.store::<Gives<N>>(pass, 0, 256 * entries);
}

fn give<S: Sink>(
    table: &Shared<Book<S>>,
    pass: &mut Pass<Book<S>>,
    book: Book<S>,
    noted: &[Note],
    refused: Option<Refusal>,
    failed: bool,
)
    requires pass { IsPassOf table.now pass.old × (pass.old.me.1 ≡ (0, None) ∷ []) }
    requires turn { IsWriting pass.old.me.0 × MayWrite pass.old.me.0 noted.now × WasRefused pass.old.me.0 noted.now refused failed }
    requires book { Stands S.written S.flushed S.target S.faults book pass.old.me.0.origin pass.old.me.0.layout pass.old.me.0.opening (written_of pass.old.me.0 noted.now).journal failed }
    ensures pass { IsPassOf table.now pass.new × (pass.new.id ≡ pass.old.id) × (pass.new.me.1 ≡ []) }
    ensures turn { pass.new.me.0 ≡ after_give noted.now refused failed pass.old.me.0 }
{
    give_as::<Brand, S>(table, pass, book, noted, refused, failed);
}

/// Gives the turn back, with what was written in it and what was refused last, and wakes one that waits for it.
pub fn give_turn<S: Sink>(table: &Shared<Book<S>>, pass: &mut Pass<Book<S>>, turn: Turn<S>)
    requires pass { IsPassOf table.now pass.old × (pass.old.me.1 ≡ (0, None) ∷ []) }
    requires turn { IsTurn S.written S.flushed S.target S.faults pass.old.me.0 turn }
    ensures pass { IsPassOf table.now pass.new × (pass.new.id ≡ pass.old.id) × (pass.new.me.1 ≡ []) }
    ensures turn { pass.new.me.0 ≡ after_give turn.noted.items turn.refused turn.book.log.lines.spent pass.old.me.0 }
{
    let Turn {
        book,
        noted,
        refused,
    } = turn;
    let failed = book.log.is_spent();
    give(table, pass, book, noted.as_slice(), refused, failed);
    drop(noted);
    table.table.shared.wake_one(0);
}
