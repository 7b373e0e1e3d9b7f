//! The kinds of step on the turn, and what each says the pass that takes it.
use crate::{Ledger, View};
use atomic_table::Play;
use std::marker::{Brand, PhantomData};

/// The compare_exchange that takes the turn where it is free, and the slot with the book along with it.
pub struct Takes<B> {
    marker: PhantomData<B>,
}

impl<B: Ledger> Play<Option<B>, View> for Takes<B> {
    ghost use Rattle.share_rule.specs.Books.{StandsFor};
    ghost use Rattle.share_rule.specs.TurnsTold.{takes_turn};

    ghost then = { takes_turn (StandsFor B.account B.stands) };
}

/// Names what a turn has written, what it was refused, and whether a write of the book has failed. Each call picks them.
pub trait Notes {
    ghost use Rattle.std.specs.Prelude.{List, Option, Bool};
    ghost use Rattle.share_rule.specs.declared.note.Note.{Note};
    ghost use Rattle.share_rule.specs.declared.view.Refusal.{Refusal};

    ghost notes: { List Note };

    ghost refused: { Option Refusal };

    ghost failed: { Bool };
}

impl Notes for Brand {
    ghost use Rattle.std.specs.Prelude.{[], None, false};

    ghost notes = { [] };

    ghost refused = { None };

    ghost failed = { false };
}

/// The store that gives the turn back, and the slot with the book.
pub struct Gives<N> {
    marker: PhantomData<N>,
}

impl<N: Notes, B> Play<Option<B>, View> for Gives<N> {
    ghost use Rattle.share_rule.specs.TurnsTold.{gives_turn};

    ghost then = { gives_turn N.notes N.refused N.failed };
}
