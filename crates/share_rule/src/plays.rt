//! The kinds of step on cells, grants and seats: what each says the pass that takes it.
use crate::View;
use atomic_table::{Join, Play, Split};
use std::marker::{Brand, PhantomData};

/// The swap that takes a ring's grant.
pub struct Grants;

impl<S> Play<S, View> for Grants {
    ghost use Rattle.share_rule.specs.Told.{took_grant};

    ghost then = { took_grant };
}

/// The fetch_add that takes one more count of a cell.
pub struct Shares;

impl<S> Play<S, View> for Shares {
    ghost use Rattle.share_rule.specs.Told.{shared};

    ghost then = { shared };
}

/// The fetch_sub that gives a count of a cell up.
pub struct Drops;

impl<S> Play<S, View> for Drops {
    ghost use Rattle.share_rule.specs.Told.{dropped};

    ghost then = { dropped };
}

/// The load of a word of a cell that is held.
pub struct Loads;

impl<S> Play<S, View> for Loads {
    ghost use Rattle.share_rule.specs.Told.{loaded};

    ghost then = { loaded };
}

/// The store of a word of a cell under construction.
pub struct Stores;

impl<S> Play<S, View> for Stores {
    ghost use Rattle.share_rule.specs.Told.{stored};

    ghost then = { stored };
}

/// The store of the count 1 that opens a cell.
pub struct Opens;

impl<S> Play<S, View> for Opens {
    ghost use Rattle.share_rule.specs.Told.{opened_cell};

    ghost then = { opened_cell };
}

/// A load that tells only what every step does: that some enabled events leave what the pass knows.
pub struct Looks;

impl<S> Play<S, View> for Looks {
    ghost use Rattle.share_rule.specs.Told.{looked};

    ghost then = { looked };
}

/// Takes the slot, which has nothing yet, before the table is open.
pub struct Begins;

impl<S> Play<Option<S>, View> for Begins {
    ghost use Rattle.share_rule.specs.Told.{began};

    ghost then = { began };
}

/// Names what a table is opened with. Each call picks it.
pub trait OpenedWith {
    ghost use Rattle.share_core.specs.declared.part.CoreOpening.{CoreOpening};
    ghost use Rattle.share_rule.specs.declared.view.BookOrigin.{BookOrigin};

    ghost opening: { CoreOpening };

    ghost origin: { BookOrigin };
}

impl OpenedWith for Brand {
    ghost use Rattle.share_rule.specs.Views.{no_opening, no_origin};

    ghost opening = { no_opening };

    ghost origin = { no_origin };
}

/// The store that frees the turn, with which the table is open.
pub struct Begun<O> {
    marker: PhantomData<O>,
}

impl<O: OpenedWith, S> Play<S, View> for Begun<O> {
    ghost use Rattle.share_rule.specs.Told.{opened_table};

    ghost then = { opened_table O.opening O.origin };
}

/// Names a ring. Each call picks it.
pub trait Ring {
    ghost use Rattle.std.specs.Prelude.{ℕ};

    ghost ring: { ℕ };
}

impl Ring for Brand {
    ghost ring = { 0 };
}

/// Moves the right to one ring's grant to a new seat.
pub struct Cut<R> {
    marker: PhantomData<R>,
}

impl<R: Ring> Split<View> for Cut<R> {
    ghost use Rattle.share_rule.specs.Steps.{without_right, with_right};

    ghost left = { without_right R.ring };

    ghost right = { with_right R.ring };
}

/// Unites the parts and rights of two seats.
pub struct Together;

impl Join<View> for Together {
    ghost use Rattle.share_rule.specs.Steps.{joined};
    ghost use Rattle.share_rule.specs.Views.{spent_view};

    ghost both = { joined };

    ghost spent = { spent_view };
}
