// A run of a ring, from its job to its end.
ghost use Rattle.std.specs.Prelude.{◌≡◌, ◌≤◌, ◌<◌, ◌+◌, ◌++◌, ◌^◌, ◌%◌, ◌==◌, ◌↔◌, ◌⊎◌, ℕ, All, IfOk, OnOk, [], true};
ghost use Rattle.ring_port.specs.PortState.{PortState, IsPort, HoldsStart, lits_at};
ghost use Rattle.ring_trail.specs.TrailData.{TrailData, IsTrail};
ghost use Rattle.watch_prop.specs.WatchData.{attached};
ghost use Rattle.watch_prop.specs.Watched.{Watched, IsFresh};
ghost use Rattle.ring_run.specs.Ended.{IsJobOf, IsUntouched, Stays, IsOwn, IsCounted, HasOffered, HasRestarted, HasDrawnFor, TicketsAt, HasPolled, ImportsBy, IsTidy, ReducesBy, AreNew, AreNewLines, AreSpaced, AreTimely, HoldsGlued, HoldsRecent, HasLooked, last_looks, stop_kind, Cause, Ends};
ghost use Rattle.ring_run.specs.Searching.{IsHeldBy, OffersNothing};
ghost use Rattle.ring_decide.specs.Phases.{first_phases};
ghost use Rattle.restart_plan.specs.Plan.{IsRestarting, begun};
ghost use Rattle.ring_run.specs.Strategy.{Decides};
ghost use Rattle.ring_run.specs.Course.{last_of};
ghost use Rattle.ring_run.specs.declared.job.Counts.{Counts};
ghost use Rattle.ring_run.specs.Ending.{ComesTo, IsUnset, KeepsRuns, SetsStop};
ghost use Rattle.ring_run.specs.Turn.{RanJob, HasRun};
ghost use Rattle.sat_words.specs.declared.shared.Stop.{Stop};

use crate::job::{Counts, End, Job};
use crate::probing::LEAST_CODE;
use crate::ring::{Place, Ring};
use crate::search::search;
use crate::variables::active_of;
use analyze::Analysis;
use restart_plan::Restarts;
use ring_decide::Decider;
use ring_port::{Port, Set};
use ring_trail::Trail;
use sat_words::{Cref, STOP_MEMORY, STOP_PROOF, STOP_REFUTED, STOP_ROOM, STOP_SAT};
use std::alloc::{AllocError, Global};
use watch_prop::Watches;

/// The counts of a ring that has done nothing.
const NOTHING: Counts = Counts {
    learned: 0,
    exported: 0,
    offered: 0,
    restarts: 0,
};

/// Runs a ring until it has an answer, sees the stop of another ring, or finds no ticket left.
///
/// The port holds each start clause of the job, and has done nothing for this ring yet. Units of the opening get no line.
/// A literal that propagation makes true without a decision gets the line of a unit before the next decision, one line.
///
/// At a conflict above level 0 the ring finds a lemma, and draws a ticket of the port for it. With a ticket it learns the lemma, or is
/// refused, which leaves the ticket in hand. If all tickets have been drawn it learns nothing and ends: it is spent, and the port
/// stands as before but for that draw. Rings that draw from the same tickets learn no more lemmas together than there are tickets.
///
/// A look at the stop comes before each decision, and the ring goes on only if it found none. A lemma takes a decision
/// back, so that no more lemmas were learned than such looks were made; a model comes after one look more, and so does the
/// conflict at which the ring is spent. The looks count up to the last value of 64 bits.
///
/// A restart comes right after a lemma: it goes back to level 0 and not to the lemma's level. A ring of odd number restarts by
/// Luby's sequence (Luby, Sinclair and Zuckerman 1993), the others if the glue of late is greater than on the whole.
///
/// The ring takes what other rings have for it at its start and at each restart, at level 0: their units, and each clause that
/// lies ready, by ring and class, which is attached at once. So it polls each class of each other ring once at its
/// start and once at each restart, ring by ring and class by class, and has looked for units at least as often until no other was
/// listed.
///
/// At a restart, before it imports, the ring reduces its lemmas if that is due: the Reduce entry is written, and the worse half
/// of those that may be dropped goes. So does the worse half of what other rings gave and may be dropped. Then each lemma of
/// glue one or two that is left is vivified, in the order of their numbers, unless it is true at level 0: a shorter clause
/// takes its place in the log, or a unit, which is made true with what follows from it. After that literals without a value are
/// probed (failed literals, Freeman 1995): by code, at most `PROBES`, from where the ring stopped probing last and then from
/// the least code, at most once round. If propagation from one alone makes a clause false, its negation is true: its line is
/// written, and those of what follows from it before the next probe; if that makes a clause false too, the ring has refuted the
/// clauses. The deletion lines come at once. The start clauses stay held as they are. So if a ring of odd number finds a model,
/// or is spent, it had reduced its lemmas in time when it restarted last; and at each end each lemma that was learned since the
/// last Reduce entry is held, or is a unit that is seen.
///
/// The deletion lines of what an offer brought back come after the lemma: if none waited at the start, none does at a model.
///
/// Every end but `Spent` and `Stopped` has set this ring's stop, and was the first to set one: a ring that comes second
/// answers `Stopped` with the stop that stands. A call of the port that was refused for want of memory, room or a write
/// ends the run. After `Memory` the ring has no answer, and its stop says the other rings so.
///
/// What the ring does from turn to turn is told by `ran`: an import, and then turns up to that in which it came to its end. Then the
/// stop of that end is set. The other clauses are of what a run leaves and counts.
pub fn run_ring<P: Port>(alloc: Global, port: &mut P, job: &Job) -> (End, Counts)
    requires job { IsJobOf (P.state port.old) job.now }
    requires untouched { IsUntouched (P.state port.old) }
    requires port { IsPort (P.state port.old) }
    ensures stays { Stays (P.state port.old) (P.state port.new) }
    ensures held { HoldsStart (P.state port.new) }
    ensures wrote { All (IsOwn (P.state port.old).ring (P.state port.old).vars) (P.state port.new).mine }
    ensures new { AreNew (P.state port.new) }
    ensures new_lines { AreNewLines (P.state port.new) }
    ensures spaced { AreSpaced (P.state port.new) }
    ensures timely { AreTimely (P.state port.new) }
    ensures glued { HoldsGlued (P.state port.old) (P.state port.new) }
    ensures lately { HoldsRecent (P.state port.new) }
    ensures looked { HasLooked ((P.state port.old).looks + result.1.learned + last_looks result.0) (P.state port.new) }
    ensures counts { IsCounted (P.state port.new) result.1 }
    ensures restarted { HasRestarted (P.state port.old).ring result.1 }
    ensures polled { HasPolled (P.state port.new) result.1.restarts result.0 }
    ensures imported { ImportsBy (P.state port.old) (P.state port.new) result.1.restarts result.0 }
    ensures tidied { (P.state port.old).waiting ≡ [] → IsTidy (P.state port.new) result.0 }
    ensures in_time { ReducesBy (P.state port.new) result.1 result.0 }
    ensures drawn { HasDrawnFor (P.state port.new) result.1.learned }
    ensures tickets { TicketsAt (P.state port.new) result.0 }
    ensures spent { (result.0 ≡ End.Spent) ↔ ((P.state port.new).limit < (P.state port.new).found) }
    ensures ends { Ends (P.state port.new) result.0 }
    ensures ran { HasRun (P.state port.old) (P.state port.new) job.now result.0 result.1 }
    ensures port { IsPort (P.state port.new) }
{
    let (end, counts) = run_job(alloc, port, job);
    (set_stop(port, end), counts)
}

/// Makes a ring and searches. Answers the end, whose stop is not set yet, and what was counted.
fn run_job<P: Port>(alloc: Global, port: &mut P, job: &Job) -> (End, Counts)
    requires job { IsJobOf (P.state port.old) job.now }
    requires untouched { IsUntouched (P.state port.old) }
    requires port { IsPort (P.state port.old) }
    ensures ends { ComesTo (P.state port.old) (P.state port.new) result.1.learned result.0 }
    ensures looked { HasLooked ((P.state port.old).looks + result.1.learned + last_looks result.0) (P.state port.new) }
    ensures ran { RanJob (P.state port.old) (P.state port.new) job.now result.0 result.1 }
    ensures offers { HasOffered (P.state port.new) result.1.exported result.1.offered }
    ensures restarted { HasRestarted (P.state port.old).ring result.1 }
    ensures polled { HasPolled (P.state port.new) result.1.restarts result.0 }
    ensures imported { ImportsBy (P.state port.old) (P.state port.new) result.1.restarts result.0 }
    ensures tidied { (P.state port.old).waiting ≡ [] → IsTidy (P.state port.new) result.0 }
    ensures in_time { ReducesBy (P.state port.new) result.1 result.0 }
    ensures port { IsPort (P.state port.new) }
{
    let Ok(mut ring) = make_ring(alloc, port, job) else {
        return (End::Memory, NOTHING);
    };
    let Ok(mut analysis) = Analysis::new(alloc, job.vars) else {
        return (End::Memory, NOTHING);
    };
    let end = search(alloc, port, &mut ring, &mut analysis, job);
    (end, counts_of(&ring))
}

/// What a ring has counted.
fn counts_of(ring: &Ring) -> Counts
    ensures learned { result.learned ≡ ring.now.learned }
    ensures exported { result.exported ≡ ring.now.exported }
    ensures offered { result.offered ≡ ring.now.offered }
    ensures restarts { result.restarts ≡ ring.now.restarts.made }
    ensures kept { IsRestarting ring.now.restarts }
{
    Counts {
        learned: ring.learned,
        exported: ring.exported,
        offered: ring.offered,
        restarts: ring.restarts.made(),
    }
}

/// Attaches clauses that are held, in their order.
fn attach_all<P: Port>(
    port: &mut P,
    trail: &Trail,
    watches: &mut Watches,
    clauses: &[Cref],
) -> Result<(), AllocError>
    requires held { All (IsHeldBy (P.state port.old)) clauses.now }
    requires vars { (P.state port.old).vars ≡ watches.old.vars }
    ensures same { P.state port.new ≡ P.state port.old }
    ensures attached { OnOk result (attached watches.new ≡ attached watches.old ++ clauses.now) }
    ensures watched { OnOk result ((t : TrailData) → Watched watches.old (lits_at (P.state port.old)) t → Watched watches.new (lits_at (P.state port.old)) t) }
{
    for clause in clauses {
        watches.attach(port, trail, *clause)?;
    }
    Ok(())
}

/// The greatest address of these clauses, or 0.
fn last_of(clauses: &[Cref]) -> u64
    ensures { result ≡ last_of clauses.now }
{
    let mut last = 0;
    for clause in clauses {
        last = last.max(clause.address);
    }
    last
}

/// A ring that has attached the start clauses, and done nothing else: it is yet to import.
pub(crate) fn make_ring<P: Port>(alloc: Global, port: &mut P, job: &Job) -> Result<Ring, AllocError>
    requires job { IsJobOf (P.state port.old) job.now }
    requires held { HoldsStart (P.state port.old) }
    requires port { IsPort (P.state port.old) }
    ensures same { P.state port.new ≡ P.state port.old }
    ensures trail { IfOk result (λ ring. ring.trail ≡ record { vars = job.now.vars; level = 0; steps = []; done = 0 }) }
    ensures shape { IfOk result (λ ring. IsTrail ring.trail) }
    ensures attached { IfOk result (λ ring. attached ring.watches ≡ job.now.start) }
    ensures watched { IfOk result (λ ring. (t : TrailData) → t.vars ≡ job.now.vars → IsFresh t → Watched ring.watches (lits_at (P.state port.old)) t) }
    ensures learned { IfOk result (λ ring. ring.learned ≡ 0) }
    ensures listed { IfOk result (λ ring. (ring.lemmas.items ≡ []) × (ring.reductions ≡ 0) × (ring.reduced_at ≡ 0)) }
    ensures imports { IfOk result (λ ring. ring.imports.items ≡ []) }
    ensures last_start { IfOk result (λ ring. ring.last_start ≡ last_of job.now.start) }
    ensures written { IfOk result (λ ring. ring.written ≡ 0) }
    ensures decider { IfOk result (λ ring. Decides (P.state port.old) ring.decider) }
    ensures phases { IfOk result (λ ring. ring.decider.phase ≡ first_phases job.now.seed job.now.ring job.now.vars) }
    ensures none { IfOk result (λ ring. (ring.exported ≡ 0) × (ring.offered ≡ 0)) }
    ensures restarts { IfOk result (λ ring. ring.restarts ≡ begun (job.now.ring % 2 == 1)) }
    ensures place { IfOk result (λ ring. ring.place ≡ record { ring = job.now.ring; rings = job.now.rings }) }
    ensures import_due { IfOk result (λ ring. ring.import_due ≡ true) }
    ensures next_probe { IfOk result (λ ring. ring.next_probe ≡ 2) }
{
    let trail = Trail::new(alloc, job.vars)?;
    let mut watches = Watches::new(alloc, job.vars)?;
    attach_all(port, &trail, &mut watches, job.start.as_slice())?;
    let active = active_of(alloc, port, job.vars, job.start.as_slice())?;
    let decider = Decider::new(alloc, active.as_slice(), job.seed, job.ring)?;
    let restarts = Restarts::new(alloc, job.ring)?;
    let bumps = Vec::with_capacity(alloc, job.vars as usize)?;
    let last_start = last_of(job.start.as_slice());
    Ok(Ring {
        place: Place {
            ring: job.ring,
            rings: job.rings,
        },
        trail,
        watches,
        learned: 0,
        lemmas: Vec::new(alloc),
        imports: Vec::new(alloc),
        last_start,
        reductions: 0,
        reduced_at: 0,
        next_probe: LEAST_CODE,
        written: 0,
        decider,
        restarts,
        import_due: true,
        bumps,
        exported: 0,
        offered: 0,
    })
}

/// The kind of stop that the end sets.
fn stop_kind(end: &End) -> Option<u8>
    ensures { result ≡ stop_kind end.now }
{
    match end {
        End::Sat(_) => Some(STOP_SAT),
        End::Refuted => Some(STOP_REFUTED),
        End::Spent | End::Stopped(_) => None,
        End::NoHole(_) => Some(STOP_ROOM),
        End::ProofFault => Some(STOP_PROOF),
        End::Memory => Some(STOP_MEMORY),
    }
}

/// Sets the stop of an end that sets one. If another ring's stands, that is the end.
fn set_stop<P: Port>(port: &mut P, end: End) -> End
    requires cause { Cause (P.state port.old) end }
    requires unset { IsUnset (P.state port.old) end }
    requires port { IsPort (P.state port.old) }
    ensures ends { Ends (P.state port.new) result }
    ensures runs { KeepsRuns (P.state port.old) (P.state port.new) }
    ensures tickets { TicketsAt (P.state port.old) end → TicketsAt (P.state port.new) result }
    ensures looks { (P.state port.new).looks ≡ (P.state port.old).looks }
    ensures nothing { OffersNothing (P.state port.old) (P.state port.new) }
    ensures looked { last_looks result ≤ last_looks end }
    ensures only { P.state port.new ≡ record (P.state port.old) { stop = (P.state port.new).stop } }
    ensures answer { (result ≡ end) ⊎ ((x : Stop) × (result ≡ End.Stopped x)) }
    ensures set { SetsStop (P.state port.old) (P.state port.new) (stop_kind end) end result }
    ensures polled { (made : ℕ) → HasPolled (P.state port.old) made end → HasPolled (P.state port.new) made result }
    ensures imported { (start : PortState) (made : ℕ) → ImportsBy start (P.state port.old) made end → ImportsBy start (P.state port.new) made result }
    ensures tidied { IsTidy (P.state port.old) end → IsTidy (P.state port.new) result }
    ensures in_time { (counts : Counts) → ReducesBy (P.state port.old) counts end → ReducesBy (P.state port.new) counts result }
    ensures port { IsPort (P.state port.new) }
{
    let Some(kind) = stop_kind(&end) else {
        return end;
    };
    match port.stop(kind) {
        Set::Won => end,
        Set::Lost(stop) => End::Stopped(stop),
    }
}
