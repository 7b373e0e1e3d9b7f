//! Clauses that wait: each is listed at the two of its literals that are best to watch, those not false first and then
//! those false at the highest levels, and it is found out on the way whether it is unit or false. A watch that a
//! propagated step made false may be listed only if a literal of the clause is true at a level of at most that step's.
ghost use Rattle.std.specs.Prelude.{◌≡◌, ◌≤◌, ◌<◌, IfOk, OnOk, OnErr, length, List, Some};
ghost use Rattle.sat_words.specs.Literal.{Literal};
ghost use Rattle.sat_words.specs.declared.shared.Cref.{Cref};
ghost use Rattle.ring_port.specs.PortState.{PortState, lits_at};
ghost use Rattle.ring_trail.specs.TrailData.{HasGrown, IsTrueOn};
ghost use Rattle.ring_trail.specs.Reasoned.{ForcesAt};
ghost use Rattle.ring_trail.specs.Closed.{TrueWithin};
ghost use Rattle.watch_prop.specs.WatchData.{attached};
ghost use Rattle.watch_prop.specs.Watched.{At, Watched};
ghost use Rattle.watch_prop.specs.Propagation.{HasReasons, IsClosedBelow, attached_at};
ghost use Rattle.watch_prop.specs.Layout.{HaveGrown};
ghost use Rattle.watch_prop.specs.Advancing.{HasAdvanced};
ghost use Rattle.watch_prop.specs.Visiting.{NotFalse, Listed, ListsMore, IsSettledTo, IsAllSettled};

use crate::choice::best_watches;
use crate::propagated::Propagated;
use crate::watch::{Visit, Watch, Watcher};
use crate::watches::Watches;
use ring_port::Port;
use ring_trail::Trail;
use sat_words::{Cref, Lit};
use std::alloc::AllocError;

impl Watches {
    /// Looks at all clauses that wait.
    pub(crate) fn watch_waiting<P: Port>(
        &mut self,
        port: &mut P,
        trail: &mut Trail,
    ) -> Result<Propagated, AllocError>
        requires watched { Watched self.old (lits_at (P.state port.old)) trail.old }
        requires below { IsClosedBelow self.old (lits_at (P.state port.old)) trail.old }
        requires reasons { HasReasons (attached self.old) (P.state port.old) trail.old.steps }
        ensures same { P.state port.new ≡ P.state port.old }
        ensures kept { HasAdvanced (P.state port.old) self.old self.new trail.old trail.new }
        ensures settled { IfOk result (IsAllSettled self.new (lits_at (P.state port.old)) trail.new) }
    {
        while self.settled < self.slots.len() {
            match self.settle_one(port, trail)? {
                Visit::Done => {}
                Visit::Falsified(clause) => return Ok(Propagated::Conflict(clause)),
            }
        }
        Ok(Propagated::Quiet)
    }

    /// Looks at the first slot that waits, and lists its clause if it isn't free.
    fn settle_one<P: Port>(&mut self, port: &mut P, trail: &mut Trail) -> Result<Visit, AllocError>
        requires watched { Watched self.old (lits_at (P.state port.old)) trail.old }
        requires there { self.old.settled < length self.old.slots }
        requires below { IsClosedBelow self.old (lits_at (P.state port.old)) trail.old }
        requires reasons { HasReasons (attached self.old) (P.state port.old) trail.old.steps }
        ensures same { P.state port.new ≡ P.state port.old }
        ensures kept { HasAdvanced (P.state port.old) self.old self.new trail.old trail.new }
        ensures done { trail.new.done ≡ trail.old.done }
        ensures len { length self.new.slots ≡ length self.old.slots }
        ensures settled { IfOk result (IsSettledTo self.old self.new (lits_at (P.state port.old)) trail.new) }
    {
        let watch = match self.slots.get(self.settled) {
            None => {
                self.settled += 1;
                return Ok(Visit::Done);
            }
            Some(watch) => watch,
        };
        let best = best_watches(port, trail, &watch);
        let decision_level = trail.decision_level();
        if best.high <= decision_level {
            return Ok(Visit::Falsified(watch.clause));
        }
        if best.low > decision_level {
            self.list(&watch, best.first, best.second)?;
            return Ok(Visit::Done);
        }
        make_true(trail, best.first, watch.clause);
        self.list(&watch, best.first, best.second)?;
        Ok(Visit::Done)
    }

    /// Lists the first watch that waits, at two literals of its clause, each with the other as its blocker.
    fn list(&mut self, _watch: &Watch, first: Lit, second: Lit) -> Result<(), AllocError>
        requires there { At self.old.slots self.old.settled (Some _watch.now) }
        requires first { first.var ≤ self.old.vars }
        requires second { second.var ≤ self.old.vars }
        ensures ok { OnOk result (Listed self.old self.new _watch.now first second) }
        ensures rooms { HaveGrown self.old.rooms self.new.rooms }
        ensures err { OnErr result (ListsMore self.old self.new second) }
    {
        let slot = self.settled as u32;
        let at_first = Watcher {
            slot,
            blocker: second,
        };
        let at_second = Watcher {
            slot,
            blocker: first,
        };
        self.lists.push(first, at_first)?;
        self.lists.push(second, at_second)?;
        self.slots.set_literals(self.settled, first, second);
        self.settled += 1;
        Ok(())
    }
}

/// Makes a literal that isn't false true, for a clause that forces it.
fn make_true(trail: &mut Trail, lit: Lit, clause: Cref)
    requires in_range { lit.var ≤ trail.old.vars }
    requires not_false { NotFalse trail.old.steps lit }
    ensures grown { HasGrown trail.old trail.new }
    ensures reasons { (cs : List Cref) (s : PortState) (d : List Literal) → attached_at cs s clause.address ≡ Some d → ForcesAt trail.old.steps (length trail.old.steps) lit d → HasReasons cs s trail.old.steps → HasReasons cs s trail.new.steps }
    ensures done { trail.new.done ≡ trail.old.done }
    ensures made { TrueWithin trail.new.steps trail.new.level lit }
    ensures still { IsTrueOn trail.old.steps lit → trail.new ≡ trail.old }
{
    let _lawful = trail.decision_level();
    if !trail.is_true(lit) {
        trail.assign(lit, Some(clause));
    }
}
