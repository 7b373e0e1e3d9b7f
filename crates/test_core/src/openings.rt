// Openings over small formulas, as text.
use crate::core_over;
use crate::events::{lit, lits, words};
use sat_words::{Clause, Formula, Lit};
use share_core::Core;
use std::alloc::Global;
use std::test::Fail;

/// Three start clauses, of which 2 follows.
pub(crate) const THREE: &str = "\
3 variables
20 : 1 2 3
25 : 1 2 -3
30 : -1 2
";

/// All clauses over two variables: unsatisfiable.
pub(crate) const FOUR: &str = "\
2 variables
20 : 1 2
25 : 1 -2
30 : -1 2
35 : -1 -2
";

/// Units in the formula, one of which is listed from the start, and one of which is written with a repeat.
pub(crate) const GIVEN: &str = "\
5 variables
no cell : 1
20 : -1 2
25 : -2 3 4
no cell : 4 -4
no cell : 5 5
unit 1 as 1
";

/// The same clauses, in a log with hints.
pub(crate) const HINTED: &str = "\
2 variables
hinted
20 : 1 2
25 : 1 -2
30 : -1 2
35 : -1 -2
";

/// The empty clause, a unit and one more.
pub(crate) const EMPTY: &str = "\
2 variables
no cell :
20 : 1 2
no cell : 1
";

/// A formula; its start clauses by address and number, the units that are listed, and whether the log has hints.
#[derive(Drop)]
struct Opening {
    formula: Formula,
    start: Vec<(u64, u64)>,
    units: Vec<(Lit, u64)>,
    hinted: bool,
}

fn clause(alloc: Global, ints: &[&'static str]) -> Result<Clause, Fail> {
    let lits = lits(alloc, ints)?;
    Ok(Clause::from_lits(alloc, lits.as_slice())?)
}

impl Opening {
    fn push_clause(&mut self, alloc: Global, ints: &[&'static str]) -> Result<(), Fail> {
        self.formula.push(clause(alloc, ints)?)?;
        Ok(())
    }

    /// A clause with the address of its cell, or one that has none, a unit that is listed as the clause with a number, or that
    /// the log has hints.
    fn add(&mut self, alloc: Global, line: &'static str) -> Result<(), Fail> {
        let words = words(alloc, line)?;
        match words.as_slice() {
            ["hinted"] => self.hinted = true,
            ["unit", n, "as", number] => self.units.push((lit(*n)?, number.parse()?))?,
            ["no", "cell", ":", ints @ ..] => self.push_clause(alloc, ints)?,
            [address, ":", ints @ ..] => {
                self.push_clause(alloc, ints)?;
                let number = self.formula.clauses().len() as u64;
                self.start.push((address.parse()?, number))?;
            }
            _ => return Err(Fail::from("no line of an opening")),
        }
        Ok(())
    }
}

/// The core over an opening as text: the number of variables, and then a line for each clause, by the address of its cell,
/// and for each listed unit.
pub(crate) fn open(
    rt: &impl AllocGlobal,
    text: &'static str,
    rings: u32,
    depth: u32,
    limit: u64,
) -> Result<Core, Fail> {
    let alloc = rt.alloc();
    let Some((vars, lines)) = text.split_once(" variables\n") else {
        return Err(Fail::from("no opening"));
    };
    let mut opening = Opening {
        formula: Formula::new(alloc, vars.parse()?),
        start: Vec::new(alloc),
        units: Vec::new(alloc),
        hinted: false,
    };
    for line in lines.lines() {
        opening.add(alloc, line)?;
    }
    let Opening {
        formula,
        start,
        units,
        hinted,
    } = opening;
    core_over(
        alloc,
        formula,
        start.as_slice(),
        units.as_slice(),
        rings,
        depth,
        limit,
        hinted,
    )
}
