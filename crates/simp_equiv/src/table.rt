// What stands for each literal: a table by code.
ghost use Rattle.std.specs.Prelude.{IfOk};
ghost use Rattle.simp_base.specs.WorkState.{lists, has_unit};
ghost use Rattle.simp_equiv.specs.Tables.{IsTable, IsClash};

use crate::components::components;
use crate::graph::graph_of;
use crate::least::least_of;
use drat_text::LineOut;
use sat_words::Lit;
use simp_base::Work;
use std::alloc::AllocError;

/// For each literal, by its code, the code of the one of the least variable in its strongly connected component.
pub(crate) fn representatives<L: LineOut>(work: &Work<L>) -> Result<Vec<usize>, AllocError>
    ensures { IfOk result (λ t. IsTable (has_unit work.now) (lists work.now.clauses) work.now.vars t.items) }
{
    let _clauses = work.clauses();
    let graph = graph_of(work)?;
    let numbers = components(work.alloc(), graph.as_slice())?;
    let least = least_of(work.alloc(), numbers.as_slice())?;
    Ok(least)
}

/// A literal that is in one component with its negation, if there is one.
pub(crate) fn clash<L: LineOut>(work: &Work<L>, table: &[usize]) -> Option<Lit>
    requires { IsTable (has_unit work.now) (lists work.now.clauses) work.now.vars table.now }
    ensures { IsClash work.now result }
{
    for var in 1..=work.vars() {
        let code = 2 * var as usize;
        if table[code] == table[code + 1] {
            return Some(Lit::new(var, false));
        }
    }
    None
}
