// The ports of the rings, made over their passes.
ghost use Rattle.std.specs.Prelude.{◌≡◌, ◌≤◌, ◌<◌, ℕ, true, slice_index_or, ◌+◌, ◌++◌, [], ◌∷◌, All, length, IfOk, IfErr, None, vec_capacity};
ghost use Rattle.sat_words.specs.Formats.{has_hints};
ghost use Rattle.share_rule.specs.FirstWords.{addresses};
ghost use Rattle.share_rule.specs.Passes.{IsPassOf};
ghost use Rattle.share_rule.specs.Steps.{new_part};
ghost use Rattle.ring_pass.specs.RingState.{home_of};
ghost use Rattle.portfolio_run.specs.Jobs.{IsReady};
ghost use Rattle.ring_port.specs.Port.{is_usable};
ghost use Rattle.ring_port.specs.PortState.{PortState};
ghost use Rattle.portfolio_run.specs.Ports.{IsAt, IsMade, AreMade};
ghost use Rattle.portfolio_run.specs.Seats.{AreBegun, IsAtRest, HasIdle, AreIdle};

use crate::jobs::RingJob;
use crate::plan::Plan;
use io_edge::Sink;
use log_book::Book;
use ring_pass::RingPass;
use ring_port::Gate;
use ring_run::{Addresses, Job};
use sat_words::Cref;
use share_rule::{Pass, Shared};
use std::alloc::{AllocError, AllocFailed, Global};

/// What the ring is known.
fn job_of<S: Sink>(
    alloc: Global,
    table: &Shared<Book<S>>,
    start: &[Cref],
    plan: &Plan,
    ring: u32,
) -> Result<Job, AllocError>
    ensures { IfOk result (λ job. job ≡ record { ring = ring; rings = table.now.layout.rings; vars = table.now.layout.vars; start = start.now; seed = plan.now.seed; walk = plan.now.walk }) }
{
    let start = start.to_vec(alloc)?;
    Ok(Job {
        ring,
        rings: table.layout.rings,
        vars: table.layout.vars,
        start: Addresses::from_vec(start),
        seed: plan.seed,
        walk: plan.walk,
    })
}

/// The port of the ring that has this pass, with its job. Refused for memory it gives the pass back.
fn make_port<'a, S: Sink, G: Gate, H>(
    alloc: Global,
    table: &'a Shared<Book<S>>,
    gate: &'a G,
    rt: &'a H,
    start: &'a [Cref],
    plan: &Plan,
    ring: u32,
    pass: Pass<Book<S>>,
) -> Result<RingJob<RingPass<'a, S, G, H>>, AllocFailed<Pass<Book<S>>>>
    requires pass { IsAtRest table.now pass × (pass.me.0.stop ≡ None) × (pass.me.0.looks ≡ 0) }
    requires hinted { pass.me.0.opening.hinted ≡ has_hints plan.now.format }
    requires granted { pass.me.0.parts ≡ new_part pass.me.0.opening ring ∷ [] }
    requires start { start.now ≡ addresses pass.me.0.opening.starts }
    ensures made { IfOk result (λ made. IsMade pass.me.0 (home_of pass) plan.now ring made) }
    ensures ready { IfOk result (λ made. IsReady made.port made.job) }
    ensures back { IfErr result (λ refused. refused.value ≡ pass) }
{
    let Ok(job) = job_of(alloc, table, start, plan, ring) else {
        return Err(AllocFailed { value: pass });
    };
    let hinted = plan.format.has_hints();
    let port = RingPass::new(alloc, table, gate, rt, pass, ring, hinted, start)?;
    Ok(RingJob {
        port,
        job,
        end: None,
    })
}

/// Adds the values after those that are there.
fn add_all<T: Drop>(into: &mut Vec<T>, more: Vec<T>)
    requires room { length into.old.items + length more.items ≤ vec_capacity into.old }
    ensures added { into.new.items ≡ into.old.items ++ more.items }
{
    for one in more {
        into.push_reserved(one);
    }
}

/// The pass of a port that has done nothing yet.
fn pass_of<S: Sink, G: Gate, H>(
    table: &Shared<Book<S>>,
    first: &Pass<Book<S>>,
    made: RingJob<RingPass<'_, S, G, H>>,
) -> Pass<Book<S>>
    requires first { IsPassOf table.now first.now }
    requires home { made.port.home ≡ home_of first.now }
    requires idle { made.port.mine ≡ [] }
    requires usable { is_usable made.port.refused ≡ true }
    ensures { HasIdle table.now made.entry.port.ring result }
{
    made.port.into_pass(table, first)
}

/// Adds the passes of ports that have done nothing yet after those that are there, in order.
fn add_passes<S: Sink, G: Gate, H>(
    table: &Shared<Book<S>>,
    first: &Pass<Book<S>>,
    into: &mut Vec<Pass<Book<S>>>,
    made: Vec<RingJob<RingPass<'_, S, G, H>>>,
)
    requires first { IsPassOf table.now first.now }
    requires none { into.old.items ≡ [] }
    requires room { length made.items ≤ vec_capacity into.old }
    requires made { (i : ℕ) (d : RingJob PortState) → i < length made.items → IsAt (home_of first.now) i (slice_index_or made.items i d).port }
    ensures many { length into.new.items ≡ length made.entry.items }
    ensures rings { AreIdle table.now into.new.items }
    ensures room { vec_capacity into.new ≡ vec_capacity into.old }
{
    for one in made {
        into.push_reserved(pass_of(table, first, one));
    }
}

/// The port of each ring that has a pass, with its job, in order. Refused for memory it gives the passes back, and no ring has
/// written anything.
pub(crate) fn make_ports<'a, S: Sink, G: Gate, H>(
    alloc: Global,
    table: &'a Shared<Book<S>>,
    first: &Pass<Book<S>>,
    gate: &'a G,
    rt: &'a H,
    start: &'a [Cref],
    plan: &Plan,
    passes: Vec<Pass<Book<S>>>,
) -> Result<Vec<RingJob<RingPass<'a, S, G, H>>>, AllocFailed<Vec<Pass<Book<S>>>>>
    requires first { IsPassOf table.now first.now }
    requires passes { AreBegun table.now first.now.me.0 passes.items }
    requires many { length passes.items ≤ 16 }
    requires hinted { first.now.me.0.opening.hinted ≡ has_hints plan.now.format }
    requires start { start.now ≡ addresses first.now.me.0.opening.starts }
    ensures many { IfOk result (λ made. length made.items ≡ length passes.items) }
    ensures made { IfOk result (λ made. AreMade first.now.me.0 (home_of first.now) plan.now made.items) }
    ensures ready { IfOk result (λ made. All (λ r. IsReady r.port r.job) made.items) }
    ensures back { IfErr result (λ refused. (length refused.value.items ≡ length passes.items) × AreIdle table.now refused.value.items) }
{
    let rings = passes.len();
    let Ok(mut made) = Vec::with_capacity(alloc, rings) else {
        return Err(AllocFailed { value: passes });
    };
    let Ok(mut rest) = Vec::with_capacity(alloc, rings) else {
        return Err(AllocFailed { value: passes });
    };
    let Ok(mut all) = Vec::with_capacity(alloc, rings) else {
        return Err(AllocFailed { value: passes });
    };
    let mut ring = 0;
    for pass in passes {
        if rest.is_empty() {
            match make_port(alloc, table, gate, rt, start, plan, ring, pass) {
                Ok(one) => {
                    made.push_reserved(one);
                    ring += 1;
                }
                Err(refused) => rest.push_reserved(refused.value),
            }
        } else {
            rest.push_reserved(pass);
        }
    }
    if rest.is_empty() {
        return Ok(made);
    }
    add_passes(table, first, &mut all, made);
    add_all(&mut all, rest);
    Err(AllocFailed { value: all })
}
