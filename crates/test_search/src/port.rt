// `ring_port`, the port in memory: a unit that is given and written, its stop, and lines that fail or go to a list.
ghost use Rattle.std.specs.Prelude.{◌≡◌, ◌∷◌, [], false, IfOk};
ghost use Rattle.ring_port.specs.Port.{AreHints};

use crate::list_lines::ListLines;
use drat_text::{CountedLines, LineOut, SinkLines};
use io_edge::MemSink;
use ring_port::{PlainPort, Port, PortStop, Set, Starts};
use sat_words::{Line, Lit, Lits, ProofFormat, STOP_SAT, Stop};
use std::alloc::Global;
use std::test::Fail;

/// The number of a unit's clause, if the log has hints.
fn number_of<P: Port>(port: &P, unit: Lit) -> Option<u64> {
    if !port.has_hints() {
        return None;
    }
    port.unit_number(unit)
}

/// Hints for the line of a unit that has a number: this one, if the log has hints.
fn unit_hints<P: Port>(alloc: Global, port: &P, unit: Lit) -> Result<Vec<u64>, Fail>
    ensures { IfOk result (λ hints. AreHints (P.state port.now) (unit ∷ []) hints.items) }
{
    if !port.has_hints() {
        return Ok(Vec::new(alloc));
    }
    let Some(number) = port.unit_number(unit) else {
        return Err("no number".into());
    };
    Ok(Vec::from_slice(alloc, &[number])?)
}

/// The port over lines for one clause, the unit 1, which was taken, and what became of its line.
fn write_unit<L: LineOut + Drop>(
    alloc: Global,
    lines: L,
) -> Result<(PlainPort<L>, Lit, Result<(), PortStop>), Fail>
    requires none { (L.told lines).entries ≡ 0 }
    requires last { (L.told lines).last ≡ 1 }
    requires unspent { (L.told lines).spent ≡ false }
{
    let one = Lit::new(1, false);
    let starts = Starts::new(alloc);
    let units = Vec::from_slice(alloc, &[(one, 1)])?;
    let Ok(mut port) = PlainPort::new(alloc, 2, starts, units, lines, 0) else {
        return Err("no memory".into());
    };
    let Some(unit) = port.next_unit() else {
        return Err("no unit".into());
    };
    let hints = unit_hints(alloc, &port, unit)?;
    let told = port.unit(unit, hints.as_slice());
    Ok((port, unit, told))
}

#[test]
fn a_unit_is_given_and_written(rt: HostRuntime) -> Result<(), Fail> {
    let alloc = rt.alloc();
    let Ok(lines) = SinkLines::new(alloc, 1, MemSink::new(alloc, 64, &[])?) else {
        return Err("no memory".into());
    };
    let (mut port, unit, told) = write_unit(alloc, lines)?;
    assert!(rt; unit == Lit::new(1, false));
    assert!(rt; told == Ok(()));
    assert!(rt; port.next_unit().is_none());
    assert!(rt; port.stopped().is_none());
    let sets = [port.stop(STOP_SAT), port.stop(STOP_SAT)];
    let mine = Stop {
        kind: STOP_SAT,
        ring: 0,
    };
    assert!(rt; sets == [Set::Won, Set::Lost(mine)]);
    let (end, sink) = port.into_lines().finish();
    assert!(rt; end == Ok(()));
    assert!(rt; sink.bytes() == b"1 0\n".as_slice());
    Ok(())
}

// The unit is the formula's clause 1, and the line gets the next number.
#[test]
fn a_unit_is_written_with_its_hint(rt: HostRuntime) -> Result<(), Fail> {
    let alloc = rt.alloc();
    let sink = MemSink::new(alloc, 64, &[])?;
    let Ok(lines) = SinkLines::with_format(alloc, ProofFormat::Lrat, 1, sink) else {
        return Err("no memory".into());
    };
    let (port, unit, told) = write_unit(alloc, lines)?;
    assert!(rt; told == Ok(()));
    assert!(rt; number_of(&port, unit).is_some());
    let others = [unit.not(), Lit::new(2, false)].map(|lit| number_of(&port, lit));
    assert!(rt; others == [None, None]);
    let (end, sink) = port.into_lines().finish();
    assert!(rt; end == Ok(()));
    assert!(rt; sink.bytes() == b"2 1 0 1 0\n".as_slice());
    Ok(())
}

#[test]
fn a_fault_of_the_lines_is_told(rt: HostRuntime) -> Result<(), Fail> {
    let (_port, _unit, told) = write_unit(rt.alloc(), CountedLines::new(1, 1))?;
    assert!(rt; told == Err(PortStop::ProofFault));
    Ok(())
}

#[test]
fn lines_go_to_a_list(rt: HostRuntime) -> Result<(), Fail> {
    let alloc = rt.alloc();
    let lines = ListLines {
        alloc,
        lines: Vec::new(alloc),
        last: 1,
    };
    let (port, unit, told) = write_unit(alloc, lines)?;
    assert!(rt; told == Ok(()));
    let written = port.into_lines();
    assert!(rt; written.last == 2);
    let wanted = [Line::Add(Lits::from_slice(alloc, &[unit])?)];
    assert!(rt; written.lines.as_slice() == wanted.as_slice());
    Ok(())
}
