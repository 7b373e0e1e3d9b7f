//! Unit propagation by two watched literals (MiniSat, Eén and Sörensson 2003): if a literal becomes false, the list of
//! its watches is walked; each entry finds its clause satisfied, a replacement watch, a literal that is forced, or a
//! conflict. An entry may leave the list only if it is stale, or if another literal of the clause, which isn't false,
//! watches from then on. If such a literal is true, the entry stays with it as its blocker (as in CaDiCaL: Biere and others
//! 2020), which spares the move. The entries of a clause that is set aside are passed over, and stay.
ghost use Rattle.std.specs.Prelude.{◌≡◌, ◌≢◌, ◌≤◌, ◌<◌, ◌+◌, Option, IfOk, OnOk, OnErr, length, slice_index};
ghost use Rattle.ring_port.specs.PortState.{lits_at};
ghost use Rattle.ring_trail.specs.TrailData.{IsFalseOn};
ghost use Rattle.sat_words.specs.declared.shared.Cref.{Cref};
ghost use Rattle.watch_prop.specs.WatchData.{Lits, attached, list_at};
ghost use Rattle.watch_prop.specs.Watched.{Watched};
ghost use Rattle.watch_prop.specs.Propagation.{HasReasons};
ghost use Rattle.watch_prop.specs.Advancing.{HasAdvanced};
ghost use Rattle.watch_prop.specs.Visiting.{IsVisiting, IsEntry, IsStale, IsVerdict, Replaced, IsVisited, IsWalked, IsEnd};
ghost use Rattle.watch_prop.specs.Layout.{HaveGrown};
ghost use Rattle.watch_prop.specs.Aside.{but, PassesOver, is_at};

use crate::clause_scan::find_replacement;
use crate::propagated::Propagated;
use crate::watch::{ClauseState, ListEntry, Visit, Watcher};
use crate::watches::Watches;
use ring_port::Port;
use ring_trail::Trail;
use sat_words::{Cref, Lit};
use std::alloc::AllocError;

impl Watches {
    /// Propagates all literals that aren't propagated yet, over the clauses but the one set aside, if any.
    pub(crate) fn run<P: Port>(
        &mut self,
        port: &mut P,
        trail: &mut Trail,
        aside: Option<Cref>,
    ) -> Result<Propagated, AllocError>
        requires watched { Watched (but aside self.old) (lits_at (P.state port.old)) trail.old }
        requires reasons { HasReasons (attached (but aside self.old)) (P.state port.old) trail.old.steps }
        ensures same { P.state port.new ≡ P.state port.old }
        ensures kept { HasAdvanced (P.state port.old) (but aside self.old) (but aside self.new) trail.old trail.new }
        ensures passed { PassesOver aside (lits_at (P.state port.old)) self.old self.new }
        ensures settled { self.new.settled ≡ self.old.settled }
        ensures len { length self.new.slots ≡ length self.old.slots }
        ensures ended { IfOk result (IsEnd (but aside self.new) (lits_at (P.state port.old)) trail.new) }
    {
        while let Some(lit) = trail.next() {
            match self.walk(port, trail, lit.not(), aside)? {
                Propagated::Quiet => trail.advance_head(),
                Propagated::Conflict(clause) => return Ok(Propagated::Conflict(clause)),
            }
        }
        Ok(Propagated::Quiet)
    }

    /// Goes down the list of a literal that became false, from its end.
    fn walk<P: Port>(
        &mut self,
        port: &mut P,
        trail: &mut Trail,
        lit: Lit,
        aside: Option<Cref>,
    ) -> Result<Propagated, AllocError>
        requires watched { Watched (but aside self.old) (lits_at (P.state port.old)) trail.old }
        requires in_range { lit.var ≤ self.old.vars }
        requires now_false { IsFalseOn trail.old.steps lit }
        requires reasons { HasReasons (attached (but aside self.old)) (P.state port.old) trail.old.steps }
        ensures same { P.state port.new ≡ P.state port.old }
        ensures kept { HasAdvanced (P.state port.old) (but aside self.old) (but aside self.new) trail.old trail.new }
        ensures passed { PassesOver aside (lits_at (P.state port.old)) self.old self.new }
        ensures settled { self.new.settled ≡ self.old.settled }
        ensures len { length self.new.slots ≡ length self.old.slots }
        ensures done { trail.new.done ≡ trail.old.done }
        ensures walked { IfOk result (IsWalked (but aside self.new) (lits_at (P.state port.old)) trail.new lit) }
    {
        let mut place = self.pass_satisfied(trail, lit, self.list_len(lit));
        while place > 0 {
            place -= 1;
            match self.visit(port, trail, lit, place, aside)? {
                Visit::Done => {}
                Visit::Falsified(clause) => return Ok(Propagated::Conflict(clause)),
            }
            place = self.pass_satisfied(trail, lit, place);
        }
        Ok(Propagated::Quiet)
    }

    /// Passes over the watchers in the list of a literal that became false whose blockers are true, from below this place
    /// down, and answers the place above the first one that isn't passed over; 0 if all are.
    fn pass_satisfied(&self, trail: &Trail, lit: Lit, place: usize) -> usize
        requires in_range { lit.var ≤ self.now.vars }
        requires inside { place ≤ length (list_at self.now.lists lit) }
        ensures below { result ≤ place }
        ensures visiting { (aside : Option Cref) (lits : Lits) → IsVisiting (but aside self.now) lits trail.now lit place → IsVisiting (but aside self.now) lits trail.now lit result }
    {
        let _lawful = trail.decision_level();
        let values = trail.values();
        let mut left = place;
        while left > 0 && values.is_true(self.watcher_at(lit, left - 1).blocker) {
            left -= 1;
        }
        left
    }

    /// Looks at one entry of the list of a literal that became false.
    fn visit<P: Port>(
        &mut self,
        port: &mut P,
        trail: &mut Trail,
        lit: Lit,
        place: usize,
        aside: Option<Cref>,
    ) -> Result<Visit, AllocError>
        requires visiting { IsVisiting (but aside self.old) (lits_at (P.state port.old)) trail.old lit (place + 1) }
        requires in_range { lit.var ≤ self.old.vars }
        requires there { place < length (list_at self.old.lists lit) }
        requires now_false { IsFalseOn trail.old.steps lit }
        requires reasons { HasReasons (attached (but aside self.old)) (P.state port.old) trail.old.steps }
        ensures same { P.state port.new ≡ P.state port.old }
        ensures kept { HasAdvanced (P.state port.old) (but aside self.old) (but aside self.new) trail.old trail.new }
        ensures passed { PassesOver aside (lits_at (P.state port.old)) self.old self.new }
        ensures settled { self.new.settled ≡ self.old.settled }
        ensures len { length self.new.slots ≡ length self.old.slots }
        ensures done { trail.new.done ≡ trail.old.done }
        ensures visited { IfOk result (IsVisited (but aside self.new) (lits_at (P.state port.old)) trail.new lit place) }
    {
        let _level = trail.decision_level();
        match self.judge(port, trail, lit, place, aside) {
            ClauseState::Stale => self.lists.take(lit, place),
            ClauseState::Settled => {}
            ClauseState::Blocked(blocker) => self.lists.set_blocker(lit, place, blocker),
            ClauseState::Moves(entry, new) => self.replace(entry, lit, new, place)?,
            ClauseState::Forced(other, clause) => trail.assign(other, Some(clause)),
            ClauseState::False(clause) => return Ok(Visit::Falsified(clause)),
        }
        Ok(Visit::Done)
    }

    /// What a watcher in the list of a false literal, whose blocker isn't true, asks for. The clause is read only if the other
    /// literal isn't true either, and if it has more than two literals.
    fn judge<P: Port>(
        &self,
        port: &mut P,
        trail: &Trail,
        lit: Lit,
        place: usize,
        aside: Option<Cref>,
    ) -> ClauseState
        requires watched { Watched (but aside self.now) (lits_at (P.state port.old)) trail.now }
        requires in_range { lit.var ≤ self.now.vars }
        requires there { place < length (list_at self.now.lists lit) }
        requires now_false { IsFalseOn trail.now.steps lit }
        ensures same { P.state port.new ≡ P.state port.old }
        ensures stale { result ≡ ClauseState.Stale → IsStale self.now (slice_index (list_at self.now.lists lit) place) lit }
        ensures verdict { IsVerdict (but aside self.now) (lits_at (P.state port.old)) trail.now lit (slice_index (list_at self.now.lists lit) place) result }
    {
        let _lawful = trail.decision_level();
        let watcher = self.watcher_at(lit, place);
        let entry = match self.entry(watcher.slot, lit) {
            None => return ClauseState::Stale,
            Some(entry) => entry,
        };
        if is_aside(aside, entry.clause) {
            return ClauseState::Settled;
        }
        if trail.is_true(entry.other) {
            return ClauseState::Blocked(entry.other);
        }
        match find_replacement(port, trail, &entry, lit) {
            Some(new) => {
                if trail.is_true(new) {
                    ClauseState::Blocked(new)
                } else {
                    ClauseState::Moves(entry, new)
                }
            }
            None => {
                if trail.is_false(entry.other) {
                    ClauseState::False(entry.clause)
                } else {
                    ClauseState::Forced(entry.other, entry.clause)
                }
            }
        }
    }

    /// Lets a new literal watch in the place of one that became false.
    fn replace(
        &mut self,
        entry: ListEntry,
        lit: Lit,
        new: Lit,
        place: usize,
    ) -> Result<(), AllocError>
        requires entry { IsEntry self.old (slice_index (list_at self.old.lists lit) place) lit entry }
        requires in_range { lit.var ≤ self.old.vars }
        requires new_in_range { new.var ≤ self.old.vars }
        requires apart { new ≢ lit }
        requires there { place < length (list_at self.old.lists lit) }
        ensures ok { OnOk result (Replaced self.old self.new entry lit new place) }
        ensures rooms { HaveGrown self.old.rooms self.new.rooms }
        ensures err { OnErr result (self.new ≡ self.old) }
    {
        let watcher = Watcher {
            slot: entry.index,
            blocker: entry.other,
        };
        self.lists.push(new, watcher)?;
        self.lists.take(lit, place);
        self.slots
            .set_literals(entry.index as usize, entry.other, new);
        Ok(())
    }
}

/// Whether a clause is the one set aside.
fn is_aside(aside: Option<Cref>, clause: Cref) -> bool
    ensures { result ≡ is_at aside clause.address }
{
    match aside {
        None => false,
        Some(other) => clause.address == other.address,
    }
}
