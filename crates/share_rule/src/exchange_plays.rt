//! The kinds of step on slots of the pools and on the stop: what each says the pass that takes it.
use crate::View;
use atomic_table::Play;

/// The swap that puts a count of a cell into a slot, and takes out what lay there.
pub struct Puts;

impl<S> Play<S, View> for Puts {
    ghost use Rattle.share_rule.specs.ExchangesTold.{did_put};

    ghost then = { did_put };
}

/// The swap that takes out what lies in a slot.
pub struct Gets;

impl<S> Play<S, View> for Gets {
    ghost use Rattle.share_rule.specs.ExchangesTold.{did_get};

    ghost then = { did_get };
}

/// The compare_exchange that sets the stop if none stands.
pub struct SetsStop;

impl<S> Play<S, View> for SetsStop {
    ghost use Rattle.share_rule.specs.ExchangesTold.{did_set};

    ghost then = { did_set };
}

/// The load of the stop.
pub struct LooksAtStop;

impl<S> Play<S, View> for LooksAtStop {
    ghost use Rattle.share_rule.specs.ExchangesTold.{looked_at_stop};

    ghost then = { looked_at_stop };
}
