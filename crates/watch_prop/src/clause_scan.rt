//! The search for a replacement watch: a literal of the clause, beside the two that watch it, that isn't false. It may
//! pass over none, since if there is none the clause is unit or false. A clause of two literals has none, and isn't looked
//! at.
ghost use Rattle.std.specs.Prelude.{◌≡◌, ◌≤◌, All, IsSome, IfSome, IfNone};
ghost use Rattle.ring_port.specs.PortState.{held_at, lits_at};
ghost use Rattle.ring_trail.specs.TrailData.{IsFalseOn};
ghost use Rattle.watch_prop.specs.Visiting.{IsOpenIn, AllFalseBut};
ghost use Rattle.watch_prop.specs.Watched.{IsPairOf};

use crate::watch::ListEntry;
use ring_port::Port;
use ring_trail::Trail;
use sat_words::Lit;

/// A replacement for this literal, which is false and watches the clause beside the entry's other one.
pub(crate) fn find_replacement<P: Port>(
    port: &mut P,
    trail: &Trail,
    entry: &ListEntry,
    _lit: Lit,
) -> Option<Lit>
    requires held { IsSome (held_at (P.state port.old) entry.now.clause.address) }
    requires in_range { All (λ l. l.var ≤ trail.now.vars) (lits_at (P.state port.old) entry.now.clause.address) }
    requires pair { IsPairOf (lits_at (P.state port.old) entry.now.clause.address) _lit entry.now.other entry.now.binary }
    requires now_false { IsFalseOn trail.now.steps _lit }
    ensures same { P.state port.new ≡ P.state port.old }
    ensures found { IfSome result (IsOpenIn trail.now.steps (lits_at (P.state port.old) entry.now.clause.address) _lit entry.now.other) }
    ensures none { IfNone result (AllFalseBut trail.now.steps (lits_at (P.state port.old) entry.now.clause.address) _lit entry.now.other) }
{
    if entry.binary {
        return None;
    }
    port.find_open(entry.clause, trail.values(), entry.other)
}
