// Dropping lemmas: all are detached at once, and then each is held once less. The lists of watches are closed up in between.
ghost use Rattle.std.specs.Prelude.{◌≡◌, false, All, IsSome, OnOk, IfOk, IfErr, sum};
ghost use Rattle.std.specs.List.Sorted.{IsNonDecreasingBy, IsPermutation};
ghost use Rattle.sat_words.specs.declared.shared.Cref.{Cref};
ghost use Rattle.ring_port.specs.PortState.{IsPort, held_at, lits_at};
ghost use Rattle.ring_port.specs.Log.{KeepsLog};
ghost use Rattle.ring_port.specs.Deleting.{IsNotTaken};
ghost use Rattle.watch_prop.specs.WatchData.{attached, without_all};
ghost use Rattle.watch_prop.specs.Watched.{Watched};
ghost use Rattle.reduce_db.specs.Lemmas.{AreDistinct};
ghost use Rattle.reduce_db.specs.Choice.{is_reason};
ghost use Rattle.reduce_db.specs.Dropping.{DroppedAll, DroppedSome, StaysReady};

use ring_port::{Port, PortStop};
use ring_trail::Trail;
use sat_words::Cref;
use std::alloc::{AllocError, Global};
use watch_prop::Watches;

/// Drops each of these lemmas, in their order. If memory runs out, those before are dropped.
pub(crate) fn drop_each<P: Port>(
    alloc: Global,
    port: &mut P,
    watches: &mut Watches,
    trail: &Trail,
    lemmas: &[Cref],
) -> Result<(), PortStop>
    requires watched { Watched watches.old (lits_at (P.state port.old)) trail.now }
    requires distinct { AreDistinct lemmas.now }
    requires held { All (λ (c : Cref). IsSome (held_at (P.state port.old) c.address)) lemmas.now }
    requires apart { All (λ (c : Cref). IsNotTaken (P.state port.old) c.address) lemmas.now }
    requires free { All (λ (c : Cref). is_reason trail.now.steps c.address ≡ false) lemmas.now }
    ensures dropped { OnOk result (DroppedAll (P.state port.old) (P.state port.new) lemmas.now) }
    ensures attached { OnOk result (attached watches.new ≡ without_all (attached watches.old) lemmas.now) }
    ensures closed { OnOk result (watches.new.size ≡ sum watches.new.rooms) }
    ensures ready { OnOk result (StaysReady (P.state port.old) (P.state port.new) watches.old watches.new trail.now) }
    ensures stopped { IfErr result (DroppedSome (P.state port.old) (P.state port.new) lemmas.now) }
    ensures log { KeepsLog (P.state port.old) (P.state port.new) }
    ensures port { IsPort (P.state port.new) }
{
    let _vars = port.vars();
    let Ok(gone) = by_address(alloc, lemmas) else {
        return Err(PortStop::Memory);
    };
    watches.detach_all(gone.as_slice());
    watches.compact();
    for c in lemmas {
        port.drop_clause(*c)?;
    }
    Ok(())
}

/// These clauses in the order of their addresses.
pub(crate) fn by_address(alloc: Global, clauses: &[Cref]) -> Result<Vec<Cref>, AllocError>
    ensures order { IfOk result (λ sorted. IsNonDecreasingBy (λ (c : Cref). c.address) sorted.items) }
    ensures same { IfOk result (λ sorted. IsPermutation clauses.now sorted.items) }
{
    let mut sorted = Vec::new(alloc);
    sorted.extend_from_slice(clauses)?;
    sorted.sort_unstable_by_key(|c| c.address);
    Ok(sorted)
}
