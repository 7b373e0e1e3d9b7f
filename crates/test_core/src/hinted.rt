// A log with hints: what guards ask of them, what units are listed as, and what stands in the journal.
use crate::openings::{HINTED, open};
use crate::tables::walk_through;
use rup_model::Entry;
use share_core::Core;
use std::fmt::Write;
use std::process::Abort;
use std::test::Fail;

/// The empty clause is shown by units, and a clause by one that was learned before.
const HINTS: &str = "\
0 grant = done
1 grant = done
0 take-turn = done
0 draw = done
0 learn unit 1 = refused # no hints
0 learn unit 1 by 1 = refused # no conflict
0 learn unit 1 by 1 2 3 = refused # the conflict is not the last
0 learn unit 1 by 1 3 = refused # a number too high
0 learn unit 1 by 1 9 = refused # no clause
0 learn unit 1 by 3 4 = refused # shows another unit
0 learn unit 1 by 1 2 = done
0 propagate unit 2 by 5 3 = refused # has not seen the first unit
0 publish 1 as 2 = refused # no unit
0 publish 2 as 5 = refused # another unit
0 publish 1 as 6 = refused # a number too high
0 publish 1 as 5 = done
0 propagate unit 2 by 5 3 = done
0 publish 2 as 6 = done
0 draw = done
0 learn 50 : 3 2 by 6 = done
0 draw = done
0 learn 60 : 4 3 by 7 = refused # a cell that it builds
0 empty by 6 4 = refused # nothing follows of it
0 empty by 4 6 5 = refused # in reverse
0 open 50 = done
0 give-turn = done
1 take-turn = done
1 empty by 5 6 4 = refused # has not seen the units
1 see = done
1 see = done
1 empty by 5 5 6 4 = refused # a unit that is true already
1 empty by 5 6 4 = done
";

const JOURNAL: &str = "\
5 : 1 by 1 2
6 : 2 by 5 3
7 : 3 2 by 6
8 : by 5 6 4
";

/// The additions of the journal with their hints.
fn write_additions(text: &mut String, core: &Core) -> Result<(), Fail> {
    for entry in core.journal() {
        let Entry::Add(x) = entry else {
            continue;
        };
        write!(text, "{} :", x.number)?;
        for lit in x.lits.as_slice() {
            write!(text, " {lit}")?;
        }
        text.push_str(" by")?;
        for hint in x.hints.as_slice() {
            write!(text, " {hint}")?;
        }
        text.push_str("\n")?;
    }
    Ok(())
}

#[test]
fn hints_show_what_is_added(rt: HostRuntime) -> Result<(), Fail> {
    let mut core = open(&rt, HINTED, 2, 1, 10)?;
    walk_through(&rt, &mut core, HINTS)?;
    let mut text = String::new(rt.alloc());
    write_additions(&mut text, &core)?;
    assert_eq!(rt; text.as_str(), JOURNAL);
    Ok(())
}
