//! The end of a table.
ghost use Rattle.std.specs.Prelude.{◌≡◌, Bool, [], IfOk, IfErr};
ghost use Rattle.share_rule.specs.Books.{StandsFor};
ghost use Rattle.share_rule.specs.Passes.{IsPassOf, IsWhole, NoTurns, TellsFaults};
ghost use Rattle.share_rule.specs.Rests.{NoneBuild, TellsRests};
ghost use Rattle.share_rule.specs.Seen.{Seen as IsSeen};

use crate::rests::{Rest, read};
use crate::{Ledger, Pass, Shared};
use sat_words::Lit;
use std::alloc::{AllocError, AllocFailed, Global};

/// Takes the table apart, once all passes have been joined into this one: some enabled events left a state with these
/// parts, and the book that comes back has its journal. A write of it has failed exactly if one of the rings was known so.
pub fn close<B: Ledger>(table: Shared<B>, pass: Pass<B>) -> B
    requires pass { IsPassOf table pass × (pass.me.1 ≡ []) }
    requires whole { IsWhole pass.me.0 }
    requires free { NoTurns pass.me.0.parts }
    ensures { (s : IsSeen pass.me.0) × (fault : Bool) × StandsFor B.account B.stands result pass.me.0.origin pass.me.0.layout pass.me.0.opening s.core.journal fault × TellsFaults pass.me.0.parts fault }
{
    let Shared {
        table: words,
        layout: _,
    } = table;
    let mut closed = words.close_with(pass);
    let slot = closed.take(0);
    closed.free();
    slot.unwrap()
}

/// What is left of a table once it was taken apart.
#[derive(Drop)]
pub struct ClosedTable<B> {
    /// The book.
    pub book: B,
    /// The clauses of its cells, in order of number.
    pub rests: Vec<Rest>,
    /// The listed units with their numbers, in the order in which they were listed.
    pub units: Vec<(Lit, u64)>,
}

/// The same, and what the table held is told: the clause of each cell, whether rings hold it, it waits or lies in a slot, and
/// the listed units. None of the rings builds a cell. After a failed write nothing is told. Refused for memory the book comes back.
pub fn close_round<B: Ledger>(
    alloc: Global,
    table: Shared<B>,
    pass: Pass<B>,
) -> Result<ClosedTable<B>, AllocFailed<B>>
    requires pass { IsPassOf table pass × (pass.me.1 ≡ []) }
    requires whole { IsWhole pass.me.0 }
    requires free { NoTurns pass.me.0.parts }
    requires built { NoneBuild pass.me.0.parts }
    ensures closed { IfOk result (λ t. (s : IsSeen pass.me.0) × (fault : Bool) × StandsFor B.account B.stands t.book pass.me.0.origin pass.me.0.layout pass.me.0.opening s.core.journal fault × TellsFaults pass.me.0.parts fault × TellsRests s.core s.glue fault t.rests.items t.units.items) }
    ensures back { IfErr result (λ t. (s : IsSeen pass.me.0) × (fault : Bool) × StandsFor B.account B.stands t.value pass.me.0.origin pass.me.0.layout pass.me.0.opening s.core.journal fault × TellsFaults pass.me.0.parts fault) }
{
    let Shared {
        table: words,
        layout,
    } = table;
    let mut closed = words.close_with(pass);
    let slot = closed.take(0);
    let book = slot.unwrap();
    let told = read(alloc, &closed, layout, &book);
    closed.free();
    match told {
        Ok((rests, units)) => Ok(ClosedTable { book, rests, units }),
        Err(AllocError) => Err(AllocFailed { value: book }),
    }
}
