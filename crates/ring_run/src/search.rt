// The search: it propagates, and then learns or decides, until an end.
ghost use Rattle.std.specs.Prelude.{◌≡◌, ◌+◌, ℕ, [], true};
ghost use Rattle.ring_port.specs.PortState.{PortState, IsPort};
ghost use Rattle.ring_run.specs.Walked.{IsFound};
ghost use Rattle.ring_run.specs.Ended.{IsJobOf, HasLooked, HasPolled, ImportsBy, IsTidy, IsInTime, last_looks};
ghost use Rattle.ring_run.specs.Strategy.{Decides, IsPaced};
ghost use Rattle.ring_run.specs.Searching.{CanDraw, GoesOn};
ghost use Rattle.ring_run.specs.Ending.{ComesTo};
ghost use Rattle.ring_run.specs.Turn.{TakesTurn, Searched};
ghost use Rattle.ring_run.specs.Course.{IsOffering, InSearch, HasLemmas, MayImport, Leads, IsFurther, IsLooking, KeepsLooking, IsPolling, HasPolledBy, IsImporting, KeepsImporting, KeepsTidy, IsInTimeAt, KeepsInTime, SumsUp};

use crate::course::Next;
use crate::decision::decide_next;
use crate::imports::import;
use crate::job::{End, Job};
use crate::lemma::learn_from;
use crate::ring::Ring;
use crate::walking::walk_first;
use analyze::Analysis;
use ring_port::Port;
use sat_words::Assignment;
use std::alloc::Global;
use watch_prop::Propagated;

/// Propagates, and then learns or decides.
fn search_step<P: Port>(
    alloc: Global,
    port: &mut P,
    ring: &mut Ring,
    analysis: &mut Analysis,
    model: &Option<Assignment>,
) -> Next
    requires search { InSearch (P.state port.old) ring.old }
    requires draws { CanDraw (P.state port.old) ring.old.learned }
    requires decides { Decides (P.state port.old) ring.old.decider }
    requires paced { IsPaced ring.old.restarts ring.old.learned }
    requires offering { IsOffering (P.state port.old) ring.old }
    requires polling { IsPolling (P.state port.old) ring.old }
    requires listed { HasLemmas (P.state port.old) ring.old }
    requires vars { analysis.old.vars ≡ ring.old.trail.vars }
    requires found { IsFound (P.state port.old) model.now }
    ensures leads { Leads (P.state port.old) ring.old (P.state port.new) ring.new result }
    ensures further { result ≡ Next.Go → IsFurther (P.state port.old) ring.old (P.state port.new) ring.new }
    ensures looks { KeepsLooking (P.state port.old) ring.old (P.state port.new) ring.new result }
    ensures paced { IsPaced ring.new.restarts ring.new.learned }
    ensures offering { IsOffering (P.state port.new) ring.new }
    ensures polls { HasPolledBy (P.state port.new) ring.new result }
    ensures imports { KeepsImporting (P.state port.old) ring.old (P.state port.new) ring.new result }
    ensures tidied { KeepsTidy (P.state port.old) (P.state port.new) result }
    ensures took { TakesTurn (P.state port.old) (P.state port.new) ring.old ring.new result }
    ensures in_time { KeepsInTime (P.state port.old) ring.old (P.state port.new) ring.new result }
    ensures sums { SumsUp ring.new.restarts }
    ensures listed { result ≡ Next.Go → HasLemmas (P.state port.new) ring.new }
    ensures odd { ring.new.restarts.odd ≡ ring.old.restarts.odd }
    ensures active { ring.new.decider.active ≡ ring.old.decider.active }
    ensures vars { analysis.new.vars ≡ analysis.old.vars }
    ensures port { IsPort (P.state port.new) }
{
    let Ok(propagated) = ring.watches.propagate(port, &mut ring.trail) else {
        let _level = ring.trail.decision_level();
        return Next::Finish(End::Memory);
    };
    let _lawful = ring.trail.decision_level();
    match propagated {
        Propagated::Conflict(conflict) => learn_from(port, ring, analysis, conflict),
        Propagated::Quiet => decide_next(alloc, port, ring, analysis, model),
    }
}

/// Imports, walks if the job says so, and then searches until an end, as MiniSat does: propagates, and at a conflict learns from it
/// and goes back, or else decides.
pub(crate) fn search<P: Port>(
    alloc: Global,
    port: &mut P,
    ring: &mut Ring,
    analysis: &mut Analysis,
    job: &Job,
) -> End
    requires import { MayImport (P.state port.old) ring.old.trail ring.old.watches ring.old.written }
    requires import_due { ring.old.import_due ≡ true }
    requires goes { GoesOn (P.state port.old) (P.state port.old) ring.old.learned }
    requires decides { Decides (P.state port.old) ring.old.decider }
    requires paced { IsPaced ring.old.restarts ring.old.learned }
    requires offering { IsOffering (P.state port.old) ring.old }
    requires polling { IsPolling (P.state port.old) ring.old }
    requires listed { HasLemmas (P.state port.old) ring.old }
    requires vars { analysis.old.vars ≡ ring.old.trail.vars }
    requires job { IsJobOf (P.state port.old) job.now }
    ensures ends { ComesTo (P.state port.old) (P.state port.new) ring.new.learned result }
    ensures looks { (base : ℕ) → IsLooking base (P.state port.old) ring.old → HasLooked (base + ring.new.learned + last_looks result) (P.state port.new) }
    ensures paced { IsPaced ring.new.restarts ring.new.learned }
    ensures offering { IsOffering (P.state port.new) ring.new }
    ensures polled { HasPolled (P.state port.new) ring.new.restarts.made result }
    ensures imported { (start : PortState) → IsImporting start (P.state port.old) ring.old → ImportsBy start (P.state port.new) ring.new.restarts.made result }
    ensures tidied { (P.state port.old).waiting ≡ [] → IsTidy (P.state port.new) result }
    ensures in_time { IsInTime (P.state port.old) ring.old.restarts.since → IsInTimeAt (P.state port.new) ring.new.restarts result }
    ensures searched { Searched job.now (P.state port.old) (P.state port.new) ring.old ring.new result }
    ensures sums { SumsUp ring.new.restarts }
    ensures odd { ring.new.restarts.odd ≡ ring.old.restarts.odd }
    ensures port { IsPort (P.state port.new) }
{
    if let Next::Finish(end) = import(port, ring, analysis) {
        return end;
    }
    let Ok(model) = walk_first(alloc, port, &ring.trail, &mut ring.decider, job) else {
        return End::Memory;
    };
    loop {
        if let Next::Finish(end) = search_step(alloc, port, ring, analysis, &model) {
            return end;
        }
    }
}
