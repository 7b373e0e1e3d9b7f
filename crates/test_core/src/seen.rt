// What is seen of a core, as text: its cells, its slots, the lines of its log, its units, whose turn it is, its stop, and
// its tickets.
use sat_words::Line;
use share_core::Core;
use std::alloc::Global;
use std::fmt::Write;
use std::test::Fail;

/// One more than any row has, so that what is said of a ring that is not there is seen too.
const RINGS: u32 = 4;

/// One more than any row has.
const PLACES: u32 = 3;

/// What is seen of the cell at the address: nothing if there is none.
fn write_cell(text: &mut String, core: &Core, address: u64) -> Result<(), Fail> {
    let count = core.count(address);
    let number = core.number(address);
    if number != 0 || count != 0 {
        write!(text, "{address} : clause {number}, count {count}")?;
    }
    for ring in 0..RINGS {
        let times = core.held(ring, address);
        if times != 0 {
            write!(text, ", held {times} by {ring}")?;
        }
        if core.waits(ring, address) {
            write!(text, ", waits at {ring}")?;
        }
    }
    if number != 0 {
        writeln!(text)?;
    }
    Ok(())
}

/// The ring's slots for another that are not empty; there is none of class 4.
fn write_slots(text: &mut String, core: &Core, from: u32, to: u32) -> Result<(), Fail> {
    for slot in 0..5 * PLACES {
        let class = (slot / PLACES) as u8;
        let place = slot % PLACES;
        let address = core.slot(from, to, class, place);
        if address != 0 {
            writeln!(
                text,
                "slot of {from} for {to} class {class} place {place} : {address}"
            )?;
        }
    }
    Ok(())
}

/// The literals, and after them the 0 that ends a line of the log.
fn write_line(text: &mut String, line: &Line) -> Result<(), Fail> {
    let (start, lits) = match line {
        Line::Add(lits) => ("line ", lits),
        Line::Del(lits) => ("line d ", lits),
    };
    text.push_str(start)?;
    for lit in lits.as_slice() {
        write!(text, "{lit} ")?;
    }
    text.push_str("0\n")?;
    Ok(())
}

/// The listed units with their numbers, and how many of them each ring has seen.
fn write_units(text: &mut String, core: &Core) -> Result<(), Fail> {
    text.push_str("units")?;
    for (lit, number) in core.units().iter().zip(core.unit_numbers()) {
        write!(text, " {lit} as {number},")?;
    }
    text.push_str(" seen")?;
    for ring in 0..RINGS {
        let seen = core.seen(ring);
        write!(text, " {seen}")?;
    }
    text.push_str("\n")?;
    Ok(())
}

/// Whose turn it is, and the stop.
fn write_end(text: &mut String, core: &Core) -> Result<(), Fail> {
    if let Some(ring) = core.turn() {
        writeln!(text, "turn of {ring}")?;
    }
    if let Some(stop) = core.stop() {
        writeln!(text, "stop {} by {}", stop.kind, stop.ring)?;
    }
    Ok(())
}

/// How often rings drew, and who has a ticket in hand: nothing if none has drawn.
fn write_tickets(text: &mut String, core: &Core) -> Result<(), Fail> {
    let drawn = core.drawn();
    if drawn == 0 {
        return Ok(());
    }
    write!(text, "drawn {drawn}")?;
    for ring in 0..RINGS {
        if core.ticket(ring) {
            write!(text, ", ticket of {ring}")?;
        }
    }
    text.push_str("\n")?;
    Ok(())
}

fn write_cells(text: &mut String, core: &Core) -> Result<(), Fail> {
    for fifth in 0..20 {
        write_cell(text, core, 5 * fifth)?;
    }
    Ok(())
}

fn write_pools(text: &mut String, core: &Core) -> Result<(), Fail> {
    for pair in 0..RINGS * RINGS {
        write_slots(text, core, pair / RINGS, pair % RINGS)?;
    }
    Ok(())
}

fn write_log(text: &mut String, core: &Core) -> Result<(), Fail> {
    for line in core.lines() {
        write_line(text, line)?;
    }
    Ok(())
}

/// All that is seen of a core, with the cells and slots that tables name.
pub(crate) fn state(alloc: Global, core: &Core) -> Result<String, Fail> {
    let mut text = String::new(alloc);
    write_cells(&mut text, core)?;
    write_pools(&mut text, core)?;
    write_log(&mut text, core)?;
    write_units(&mut text, core)?;
    write_end(&mut text, core)?;
    write_tickets(&mut text, core)?;
    Ok(text)
}
