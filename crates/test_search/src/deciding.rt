//! A decision that is made at once.
ghost use Rattle.std.specs.Prelude.{◌≡◌, None, IfSome, length};
ghost use Rattle.ring_decide.specs.DeciderData.{IsDecided, AllValued};
ghost use Rattle.ring_trail.specs.TrailData.{decided};

use ring_decide::Decider;
use ring_trail::Trail;
use sat_words::Lit;

/// Decides what comes next.
pub fn decide_next(decider: &mut Decider, trail: &mut Trail) -> Option<Lit>
    requires vars { trail.old.vars ≡ length decider.old.active }
    ensures some { IfSome result (λ lit. IsDecided decider.old trail.old.steps lit × (trail.new ≡ decided trail.old lit)) }
    ensures none { result ≡ None → AllValued decider.old trail.old.steps × (trail.new ≡ trail.old) }
    ensures same { decider.new ≡ decider.old }
    ensures vars { trail.new.vars ≡ length decider.new.active }
    ensures len { length decider.new.active ≡ length decider.old.active }
{
    let next = decider.next(trail)?;
    trail.decide(next);
    Some(next)
}
