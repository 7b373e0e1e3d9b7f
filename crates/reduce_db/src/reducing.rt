// Reduction of a ring's lemmas.
ghost use Rattle.std.specs.Prelude.{◌≡◌, OnOk, sum};
ghost use Rattle.ring_port.specs.PortState.{IsPort, lits_at};
ghost use Rattle.ring_port.specs.Log.{KeepsLog};
ghost use Rattle.watch_prop.specs.WatchData.{attached};
ghost use Rattle.watch_prop.specs.Watched.{Watched};
ghost use Rattle.reduce_db.specs.Lemmas.{AreLemmas};
ghost use Rattle.reduce_db.specs.Dropping.{HoldsOthers, StaysReady};
ghost use Rattle.reduce_db.specs.Reduction.{Reduced};

use crate::choice::choose;
use crate::dropping::drop_each;
use ring_port::{Port, PortStop};
use ring_trail::Trail;
use sat_words::Cref;
use std::alloc::Global;
use watch_prop::Watches;

/// Drops half of the lemmas that may be dropped, rounded down: the last in order of glue, size and number. The others are
/// left in `lemmas`, in their order.
///
/// Clauses of two literals, those of glue at most 2 and reasons stay. What is at no lemma's address is held as it was, so each
/// start clause is if no lemma is at its address. The lemmas are attached. The vector of watchers is closed up. Deletion lines
/// come at `tidy`. If memory runs out some may have been dropped, and nothing is known of the watches and of the lemmas.
pub fn reduce<P: Port>(
    alloc: Global,
    port: &mut P,
    watches: &mut Watches,
    trail: &Trail,
    lemmas: &mut Vec<Cref>,
) -> Result<(), PortStop>
    requires watched { Watched watches.old (lits_at (P.state port.old)) trail.now }
    requires vars { (P.state port.old).vars ≡ watches.old.vars }
    requires lemmas { AreLemmas (P.state port.old) (attached watches.old) lemmas.old.items }
    ensures reduced { Reduced (P.state port.old) (P.state port.new) watches.old watches.new trail.now.steps lemmas.old.items lemmas.new.items result }
    ensures ready { OnOk result (StaysReady (P.state port.old) (P.state port.new) watches.old watches.new trail.now) }
    ensures lemmas { OnOk result (AreLemmas (P.state port.new) (attached watches.new) lemmas.new.items) }
    ensures closed { OnOk result (watches.new.size ≡ sum watches.new.rooms) }
    ensures others { HoldsOthers (P.state port.old) (P.state port.new) lemmas.old.items }
    ensures log { KeepsLog (P.state port.old) (P.state port.new) }
    ensures port { IsPort (P.state port.new) }
{
    let _vars = port.vars();
    let Ok(choice) = choose(alloc, port, trail, lemmas.as_slice()) else {
        return Err(PortStop::Memory);
    };
    drop_each(alloc, port, watches, trail, choice.dropped.as_slice())?;
    *lemmas = choice.kept;
    Ok(())
}
