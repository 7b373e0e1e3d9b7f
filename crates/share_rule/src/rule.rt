//! The rule of the table.
use crate::view::View;
use crate::{Layout, Ledger};
use atomic_table::{Seat, TableRule};
use std::marker::PhantomData;

/// What a table is known once, when it is made: its layout, and the words that it begins with.
#[derive(Drop)]
pub struct Key {
    /// Where things lie in the words.
    pub layout: Layout,
    /// The words.
    pub words: Vec<u64>,
}

/// A seat at the table.
pub type Pass<B> = Seat<Option<B>, View>;

/// The rule: what the table shows is a core that enabled events leave.
pub struct Rule<B> {
    marker: PhantomData<B>,
}

impl<B: Ledger> TableRule<Option<B>, View, Key> for Rule<B> {
    ghost use Rattle.share_rule.specs.Books.{StandsFor};
    ghost use Rattle.share_rule.specs.Shown.{Shown};
    ghost use Rattle.share_rule.specs.Views.{closed_view};

    ghost holds = { λ k. Shown (StandsFor B.account B.stands) k };

    ghost first = { λ k. closed_view k.layout };
}
