// The rings over an open table, run at once, and the answer that their ends come to.
ghost use Rattle.std.specs.Prelude.{◌≡◌, ◌≤◌, [], None, All, length, IfOk, vec_capacity};
ghost use Rattle.sat_words.specs.Formats.{has_hints};
ghost use Rattle.share_rule.specs.FirstWords.{addresses};
ghost use Rattle.ring_pass.specs.RingState.{home_of};
ghost use Rattle.portfolio_run.specs.Jobs.{IsReady};
ghost use Rattle.portfolio_run.specs.Ports.{AreMade};
ghost use Rattle.portfolio_run.specs.Searched.{HasRunTo, HasSearched};
ghost use Rattle.portfolio_run.specs.Seats.{HasRightsFrom, IsAtRest};

use crate::answer::Answer;
use crate::decision::decide;
use crate::jobs::{RingJob, run_all};
use crate::parts::{join_rings, note_counts};
use crate::plan::Plan;
use crate::ports::make_ports;
use crate::seats::{gather, grant_all, hand_out};
use io_edge::Sink;
use log_book::Book;
use model_stack::Stack;
use ring_pass::RingPass;
use ring_port::Gate;
use ring_run::{Counts, End};
use sat_words::{Assignment, Cref, Formula};
use share_rule::{Ledger, Pass, Shared};
use std::alloc::{AllocError, Global};
use std::sync::Wait;
use std::thread::Threads;

/// Room for what is to be had after the runs, taken before the rings have their grants.
#[derive(Drop)]
struct Space<B: Ledger> {
    /// For the passes that are handed out.
    passes: Vec<Pass<B>>,
    /// For the passes that come back.
    back: Vec<Pass<B>>,
    /// For the rings' ends, with what they counted.
    ends: Vec<(End, Counts)>,
    /// For the values of the formula's variables in a model.
    values: Assignment,
}

/// Room for this many rings, and for a model of the formula.
fn make_space<B: Ledger>(
    alloc: Global,
    rings: usize,
    formula: &Formula,
) -> Result<Space<B>, AllocError>
    ensures none { IfOk result (λ space. (space.passes.items ≡ []) × (space.back.items ≡ []) × (space.ends.items ≡ [])) }
    ensures room { IfOk result (λ space. (rings ≤ vec_capacity space.passes) × (rings ≤ vec_capacity space.back) × (rings ≤ vec_capacity space.ends)) }
    ensures long { IfOk result (λ space. length space.values ≡ formula.now.vars) }
{
    let passes = Vec::with_capacity(alloc, rings)?;
    let back = Vec::with_capacity(alloc, rings)?;
    let ends = Vec::with_capacity(alloc, rings)?;
    let values = Assignment::new(alloc, formula.vars())?;
    Ok(Space {
        passes,
        back,
        ends,
        values,
    })
}

/// Runs the rings, takes them in, and takes the answer from the end that counts. It takes no memory but what the rings take.
fn run_rings<S: Sink + Send, G: Gate + Sync, H: Threads + Wait + Sync>(
    rt: &H,
    alloc: Global,
    table: &Shared<Book<S>>,
    first: &mut Pass<Book<S>>,
    plan: &Plan,
    formula: &Formula,
    stack: &Stack,
    tally: &mut Vec<Counts>,
    rings: Vec<RingJob<RingPass<'_, S, G, H>>>,
    back: Vec<Pass<Book<S>>>,
    ends: Vec<(End, Counts)>,
    values: Assignment,
) -> Answer
    requires first { IsAtRest table.now first.old × (first.old.me.0.parts ≡ []) }
    requires many { (length rings.items ≡ first.old.me.0.opening.rings) × (length tally.old.items ≡ first.old.me.0.opening.rings) }
    requires made { AreMade first.old.me.0 (home_of first.old) plan.now rings.items }
    requires ready { All (λ r. IsReady r.port r.job) rings.items }
    requires none { (back.items ≡ []) × (ends.items ≡ []) }
    requires room { (length rings.items ≤ vec_capacity back) × (length rings.items ≤ vec_capacity ends) }
    requires long { length values ≡ formula.now.vars }
    requires more { formula.now.vars ≤ table.now.layout.vars }
    requires fits { All (λ fix. fix.lit.var ≤ table.now.layout.vars) stack.now }
    ensures { HasRunTo table.now first.old.me.0 (home_of first.old) plan.now formula.now.vars stack.now first.new tally.new.items result }
{
    let mut rings = rings;
    run_all(rt, alloc, rings.as_mut_slice());
    let mut ends = ends;
    join_rings(table, first, plan, rings, back, &mut ends);
    note_counts(ends.as_slice(), tally);
    decide(table, first, formula, stack, values, ends)
}

/// Runs all rings over the table and gathers their passes, and takes the answer from the end that counts. Refused for memory
/// before a ring runs, it leaves the first pass with all rings, none of which has written anything.
pub(crate) fn search<S: Sink + Send, G: Gate + Sync, H: Threads + Wait + Sync>(
    rt: &H,
    alloc: Global,
    table: &Shared<Book<S>>,
    first: &mut Pass<Book<S>>,
    gate: &G,
    start: &[Cref],
    plan: &Plan,
    formula: &Formula,
    stack: &Stack,
    tally: &mut Vec<Counts>,
) -> Answer
    requires first { HasRightsFrom table.now first.old 0 }
    requires rings { (first.old.me.0.opening.rings ≡ plan.now.threads) × (1 ≤ plan.now.threads) × (plan.now.threads ≤ 16) }
    requires hinted { first.old.me.0.opening.hinted ≡ has_hints plan.now.format }
    requires start { start.now ≡ addresses first.old.me.0.opening.starts }
    requires more { formula.now.vars ≤ table.now.layout.vars }
    requires fits { All (λ fix. fix.lit.var ≤ table.now.layout.vars) stack.now }
    requires tally { length tally.old.items ≡ plan.now.threads }
    ensures { HasSearched table.now first.old.me.0 (home_of first.old) plan.now formula.now.vars stack.now first.new tally.old.items tally.new.items result }
{
    let Ok(space) = make_space(alloc, plan.threads as usize, formula) else {
        grant_all(table, first, plan.threads);
        return Answer::Memory;
    };
    let Space {
        mut passes,
        back,
        ends,
        values,
    } = space;
    hand_out(table, first, plan.threads, &mut passes);
    match make_ports(alloc, table, first, gate, rt, start, plan, passes) {
        Ok(rings) => run_rings(
            rt, alloc, table, first, plan, formula, stack, tally, rings, back, ends, values,
        ),
        Err(refused) => {
            gather(table, first, refused.value);
            Answer::Memory
        }
    }
}
