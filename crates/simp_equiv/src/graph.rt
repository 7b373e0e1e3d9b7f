// The binary implication graph of a work.
//
// Its nodes are the codes of literals. A clause of two literals gives two edges: from the negation of each to the other.
ghost use Rattle.std.specs.Prelude.{◌≡◌, ◌⊎◌, ℕ, ◌^◌, ◌+◌, ◌*◌, ◌<◌, ◌≤◌, ◌++◌, ◌∷◌, [], List, IfOk, OnOk, length, All, ◌||◌};
ghost use Rattle.sat_words.specs.Literal.{Literal, IsOn, code_of};
ghost use Rattle.simp_base.specs.WorkState.{has_unit};
ghost use Rattle.simp_equiv.specs.Arrows.{Arrow, MoreEdge, Draws, arrows, arrows_of, arrows_in};

use crate::targets::Targets;
use drat_text::LineOut;
use sat_words::Lit;
use simp_base::Work;
use std::alloc::{AllocError, Global};

/// Puts an edge.
fn add_edge(graph: &mut Vec<Targets>, from: Lit, to: Lit) -> Result<(), AllocError>
    requires { code_of from < length graph.old.items }
    ensures { OnOk result (MoreEdge graph.old.items graph.new.items (code_of from) (code_of to)) }
{
    let from = from.code() as usize;
    graph[from].push(to.code() as usize)?;
    Ok(())
}

/// Puts the two edges of a clause of two literals.
fn add_both(graph: &mut Vec<Targets>, a: Lit, b: Lit, vars: u32) -> Result<(), AllocError>
    requires a_on { IsOn vars a }
    requires b_on { IsOn vars b }
    requires a_few { a.var ≤ 2 ^ 30 }
    requires b_few { b.var ≤ 2 ^ 30 }
    requires size { length graph.old.items ≡ 2 * vars + 2 }
    ensures { OnOk result ((given : List Arrow) → Draws vars given graph.old.items → Draws vars (given ++ arrows_of a b) graph.new.items) }
{
    add_edge(graph, a.not(), b)?;
    add_edge(graph, b.not(), a)?;
    Ok(())
}

/// Whether one of the two variables has a unit.
fn is_fixed<L: LineOut>(work: &Work<L>, a: Lit, b: Lit) -> bool
    requires a { IsOn work.now.vars a }
    requires b { IsOn work.now.vars b }
    ensures value { result ≡ (has_unit work.now a.var || has_unit work.now b.var) }
    ensures a_few { a.var ≤ 2 ^ 30 }
    ensures b_few { b.var ≤ 2 ^ 30 }
{
    let (first, second) = (a.var(), b.var());
    work.has_unit(first) || work.has_unit(second)
}

/// Puts the edges of a clause.
fn add_arrows<L: LineOut>(
    graph: &mut Vec<Targets>,
    work: &Work<L>,
    lits: &[Lit],
) -> Result<(), AllocError>
    requires on { All (IsOn work.now.vars) lits.now }
    requires size { length graph.old.items ≡ 2 * work.now.vars + 2 }
    ensures { OnOk result ((given : List Arrow) → Draws work.now.vars given graph.old.items → Draws work.now.vars (given ++ arrows (has_unit work.now) lits.now) graph.new.items) }
{
    match lits {
        [a, b] => {
            if is_fixed(work, *a, *b) {
                Ok(())
            } else {
                add_both(graph, *a, *b, work.vars())?;
                Ok(())
            }
        }
        _ => Ok(()),
    }
}

/// A graph on the codes of literals, with no edge.
fn empty_graph(alloc: Global, vars: u32) -> Result<Vec<Targets>, AllocError>
    ensures { IfOk result (λ g. Draws vars [] g.items) }
{
    let mut graph = Vec::new(alloc);
    for node in 0..2 * vars as usize + 2 {
        graph.push(Targets::new(alloc))?;
    }
    Ok(graph)
}

/// The implications of the clauses of two literals none of whose variables has a unit.
pub(crate) fn graph_of<L: LineOut>(work: &Work<L>) -> Result<Vec<Targets>, AllocError>
    ensures { IfOk result (λ g. Draws work.now.vars (arrows_in (has_unit work.now) work.now.clauses) g.items) }
{
    let mut graph = empty_graph(work.alloc(), work.vars())?;
    for cell in work.clauses() {
        add_arrows(&mut graph, work, cell.1.lits())?;
    }
    Ok(graph)
}
