// A ring reduces once it has learned 2000 clauses, not before.
use crate::openings::{FOUR, open};
use crate::tables::walk_through;
use rup_model::{ClauseNumbers, Kind};
use sat_words::Lit;
use share_core::{Core, Event, Step};
use std::alloc::Global;
use std::process::Abort;
use std::test::Fail;

/// From here on every clause follows from what the ring knows.
const KNOWS_ALL: &str = "\
0 grant = done
0 take-turn = done
0 propagate unit 1 = done
0 publish 1 as 5 = done
";

/// One short: what is propagated does not count, and what is refused does not.
const AT_1999: &str = "\
0 reduce = refused
0 draw = done
0 learn unit 10 = refused # learned before
0 propagate unit 9 = done
0 reduce = refused
";

/// It counts anew after it has reduced, and may learn again what it has learned.
const AT_2000: &str = "\
0 learn unit 9 = done
0 reduce = done
0 reduce = refused
0 draw = done
0 learn unit 10 = done
";

/// The ring learns 1999 units, each with a ticket that it draws before, all at once.
fn learn_units(alloc: Global, core: &mut Core) -> Result<Step, Fail> {
    let mut events = Vec::new(alloc);
    for var in 10..2009 {
        events.push(Event::Draw { ring: 0 })?;
        events.push(Event::AddUnit {
            ring: 0,
            kind: Kind::Learn,
            lit: Lit::new(var, false),
            hints: ClauseNumbers::from_slice(alloc, &[])?,
        })?;
    }
    Ok(core.run(alloc, events.as_slice())?)
}

/// The ring knows all, and learns 1999 units.
pub(crate) fn learn_many(rt: &(impl Abort + AllocGlobal), core: &mut Core) -> Result<(), Fail> {
    walk_through(rt, core, KNOWS_ALL)?;
    assert_eq!(rt; learn_units(rt.alloc(), core)?, Step::Done);
    Ok(())
}

#[test]
fn reduces_after_two_thousand(rt: HostRuntime) -> Result<(), Fail> {
    let mut core = open(&rt, FOUR, 1, 1, 2001)?;
    learn_many(&rt, &mut core)?;
    walk_through(&rt, &mut core, AT_1999)?;
    walk_through(&rt, &mut core, AT_2000)
}
