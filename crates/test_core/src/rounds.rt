// Walks over two rounds: what the first leaves to the second, and what it does not.
use crate::events::{lit, lits, words};
use crate::next_over;
use crate::openings::{FOUR, THREE, open};
use crate::reductions::learn_many;
use crate::seen::state;
use crate::tables::walk_through;
use sat_words::Lit;
use share_core::{Core, RoundLine};
use std::alloc::Global;
use std::process::Abort;
use std::test::Fail;

/// Both rings learn the same clause, each in an order of its own, and one of them another.
const FIRST: &str = "\
0 grant = done
0 take-turn = done
0 draw = done
0 learn 50 : 3 2 = done
0 draw = done
0 learn 70 : 2 1 = done
0 draw = done
0 learn 75 : 2 1 = refused # learned before
0 give-turn = done
0 open 50 = done
0 open 70 = done
1 grant = done
1 take-turn = done
1 draw = done
1 learn 60 : 2 3 = done
1 give-turn = done
1 open 60 = done
";

/// The first of the two copies goes on, and so the second is deleted, with the other clause.
const NEXT: &str = "\
delete 6 : 2 3
delete 5 : 1 2
20 : 1
25 : 2
30 : 3
55 : 4
";

/// What was learned in the round before may be learned again, unless it is a start clause. That is deleted in the order of
/// the formula's clauses.
const SECOND: &str = "\
0 read 20 = refused # no ring was granted
0 grant = done
1 grant = done
0 read 70 = refused # the cells of the round before are gone
0 take-turn = done
0 draw = done
0 learn 75 : 2 1 = done
0 draw = done
0 learn 80 : 3 2 = refused # a start clause
0 give-turn = done
0 open 75 = done
0 drop 55 = done
1 drop 55 = done
1 take-turn = done
1 bury 55 = done
1 give-turn = done
";

const LEFT: &str = "\
20 : clause 1, count 2, held 1 by 0, held 1 by 1
25 : clause 2, count 2, held 1 by 0, held 1 by 1
30 : clause 3, count 2, held 1 by 0, held 1 by 1
75 : clause 7, count 1, held 1 by 0
line 3 2 0
line 2 1 0
line 2 3 0
line d 2 3 0
line d 1 2 0
line 2 1 0
line d 2 3 0
units seen 0 0 0 0
drawn 2, ticket of 0
";

/// Lines, start clauses and units, each on a line of its own.
#[derive(Drop)]
struct Beginning {
    lines: Vec<RoundLine>,
    start: Vec<(u64, u64)>,
    units: Vec<(Lit, u64)>,
}

impl Beginning {
    /// A clause that is deleted, a start clause by its address and its number, or a unit that is listed.
    fn add(&mut self, alloc: Global, line: &'static str) -> Result<(), Fail> {
        let words = words(alloc, line)?;
        match words.as_slice() {
            ["delete", number, ":", ints @ ..] => self.lines.push(RoundLine::Del {
                number: number.parse()?,
                lits: lits(alloc, ints)?,
            })?,
            ["unit", n, "as", number] => self.units.push((lit(*n)?, number.parse()?))?,
            [address, ":", number] => self.start.push((address.parse()?, number.parse()?))?,
            _ => return Err(Fail::from("no line of a round")),
        }
        Ok(())
    }

    fn add_all(&mut self, alloc: Global, text: &'static str) -> Result<(), Fail> {
        for line in text.lines() {
            self.add(alloc, line)?;
        }
        Ok(())
    }
}

/// The core in its next round.
fn begin_next(
    rt: &impl AllocGlobal,
    core: Core,
    text: &'static str,
    limit: u64,
) -> Result<Core, Fail> {
    let alloc = rt.alloc();
    let mut beginning = Beginning {
        lines: Vec::new(alloc),
        start: Vec::new(alloc),
        units: Vec::new(alloc),
    };
    beginning.add_all(alloc, text)?;
    next_over(
        alloc,
        core,
        beginning.lines.as_slice(),
        beginning.start.as_slice(),
        beginning.units.as_slice(),
        limit,
    )
}

#[test]
fn a_second_round_begins_anew(rt: HostRuntime) -> Result<(), Fail> {
    let mut core = open(&rt, THREE, 2, 1, 4)?;
    walk_through(&rt, &mut core, FIRST)?;
    let mut core = begin_next(&rt, core, NEXT, 3)?;
    walk_through(&rt, &mut core, SECOND)?;
    let text = state(rt.alloc(), &core)?;
    assert_eq!(rt; text.as_str(), LEFT);
    Ok(())
}

/// The 2000th clause is learned.
const LAST: &str = "\
0 draw = done
0 learn unit 9 = done
";

/// The same start clauses, and the unit that was listed.
const GO_ON: &str = "\
20 : 1
25 : 2
30 : 3
35 : 4
unit 1 as 5
";

/// What was learned in the round before does not count, and may be learned again.
const AFTER: &str = "\
0 take-turn = done
0 reduce = refused
0 grant = done
0 see = done
0 draw = done
0 learn unit 9 = done
0 draw = done
0 learn unit 9 = refused
0 reduce = refused
";

#[test]
fn reductions_count_in_their_round(rt: HostRuntime) -> Result<(), Fail> {
    let mut core = open(&rt, FOUR, 1, 1, 2001)?;
    learn_many(&rt, &mut core)?;
    walk_through(&rt, &mut core, LAST)?;
    let mut core = begin_next(&rt, core, GO_ON, 2001)?;
    walk_through(&rt, &mut core, AFTER)
}
