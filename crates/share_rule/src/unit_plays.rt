//! The kinds of step on listed units, and what each says the pass that takes it.
use crate::View;
use atomic_table::Play;
use std::marker::{Brand, PhantomData};

/// The store of a unit's word after the listed ones.
pub struct StoresUnit;

impl<S> Play<S, View> for StoresUnit {
    ghost use Rattle.share_rule.specs.UnitsTold.{stored_unit};

    ghost then = { stored_unit };
}

/// The store of a number after those of the listed units.
pub struct StoresNumber;

impl<S> Play<S, View> for StoresNumber {
    ghost use Rattle.share_rule.specs.UnitsTold.{stored_number};

    ghost then = { stored_number };
}

/// Names a unit and its number. Each call picks them.
pub trait Unit {
    ghost use Rattle.std.specs.Prelude.{ℕ};
    ghost use Rattle.sat_words.specs.Literal.{Literal};

    ghost lit: { Literal };

    ghost number: { ℕ };
}

impl Unit for Brand {
    ghost use Rattle.share_rule.specs.Units.{no_lit};

    ghost lit = { no_lit };

    ghost number = { 0 };
}

/// The store of the number of listed units, one more, with which the unit is listed.
pub struct ListsUnit<U> {
    marker: PhantomData<U>,
}

impl<U: Unit, S> Play<S, View> for ListsUnit<U> {
    ghost use Rattle.share_rule.specs.UnitsTold.{listed_unit};

    ghost then = { listed_unit U.lit U.number };
}

/// The load of the number of listed units.
pub struct CountsUnits;

impl<S> Play<S, View> for CountsUnits {
    ghost use Rattle.share_rule.specs.UnitsTold.{counted_units};

    ghost then = { counted_units };
}

/// The load of the next listed unit that the ring has not seen.
pub struct SeesUnit;

impl<S> Play<S, View> for SeesUnit {
    ghost use Rattle.share_rule.specs.UnitsTold.{saw_unit};

    ghost then = { saw_unit };
}

/// The load of the number of a unit that the ring has seen.
pub struct LoadsNumber;

impl<S> Play<S, View> for LoadsNumber {
    ghost use Rattle.share_rule.specs.UnitsTold.{loaded_number};

    ghost then = { loaded_number };
}
