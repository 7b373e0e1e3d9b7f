// How a work goes on after a journal: with what is alive there, and with the stack that models are mended by.
ghost use Rattle.std.specs.Prelude.{◌≡◌, [], List, false, IfOk, IfErr};
ghost use Rattle.rup_model.specs.declared.journal.Entry.{Entry};
ghost use Rattle.simp_base.specs.WorkState.{IsWork, resumed};
ghost use Rattle.simp_base.specs.Log.{Stands};
ghost use Rattle.simp_base.specs.Resumed.{Resumes, CanResume};

use crate::beginning::table_over;
use crate::hints::Hinter;
use crate::unit_table::UnitTable;
use crate::work::Work;
use drat_text::LineOut;
use model_stack::Stack;
use sat_words::{Clause, Formula, Lit};
use std::alloc::{AllocFailed, Global};

/// How far a log has come.
#[derive(Clone, Copy, PartialEq, Eq, Debug)]
pub struct LogEnd {
    /// The number of its entries.
    pub entries: u64,
    /// The last number given to a clause: the formula's clauses have the first ones, and each addition took the next.
    pub last: u64,
}

impl<L: LineOut> Work<L> {
    /// A work that goes on after a journal of the formula: with clauses that are alive there, under their numbers, with units, whose
    /// clauses are among them, and with the stack of the work before. Clauses that take no part may be left out. The lines go to the output after
    /// those of the journal. Refused for memory it gives the line output back.
    pub fn again(
        alloc: Global,
        formula: &Formula,
        vars: u32,
        clauses: Vec<(u64, Clause)>,
        units: Vec<(Lit, u64)>,
        stack: Stack,
        end: LogEnd,
        output: L,
    ) -> Result<Work<L>, AllocFailed<L>>
        requires unspent { (L.told output).spent ≡ false }
        requires resumes { CanResume formula.now.clauses vars clauses.items units.items stack (L.told output) }
        requires entries { end.entries ≡ (L.told output).entries }
        requires last { end.last ≡ (L.told output).last }
        ensures made { IfOk result (λ w. w ≡ resumed vars clauses.items units.items stack (L.told output)) }
        ensures stands { IfOk result (λ w. (J : List Entry) → Resumes formula.now.clauses vars clauses.items units.items stack (L.told output) J → Stands (record { formula = formula.now.clauses; journal = J; output = L.told output }) [] w) }
        ensures work { IfOk result IsWork }
        ensures back { IfErr result (λ refused. refused.value ≡ output) }
    {
        // The journal is one of this formula.
        let _ = formula;
        let Ok(clauses) = table_over(alloc, vars, end.last, clauses) else {
            return Err(AllocFailed { value: output });
        };
        let Ok(units) = UnitTable::over(alloc, vars, units.as_slice()) else {
            return Err(AllocFailed { value: output });
        };
        Ok(Work {
            alloc,
            vars,
            unheld: vars,
            clauses,
            units,
            hinter: Hinter::new(alloc),
            stack,
            ended: false,
            lines: end.entries,
            output,
        })
    }
}
