// `ring_pass` on threads: of two rings a gate holds one until the other lets it go, which looks at the table meanwhile.
ghost use Rattle.std.specs.Prelude.{◌≡◌, [], IfOk, OnOk};
ghost use Rattle.test_pass.specs.Samples.{IsBegun, IsListener, IsPlayer, Stays};

use crate::ports::{begin_port, join_ring, open_four};
use crate::rows::{
    Miss, draw_first, give_pair_up, hear_once, learn_pair, learn_two, offer_both, offer_pair,
    write_two,
};
use crossbeam_utils::Backoff;
use io_edge::MemSink;
use ring_port::{Gate, Point, Port};
use sat_words::Lit;
use share_rule::{Ledger, Shared, close};
use std::alloc::AllocGlobal;
use std::process::Abort;
use std::sync::Wait;
use std::sync::atomic::{AtomicU64, Ordering};
use std::test::Fail;
use std::thread::{Threads, join};
use test_tables::word_at;

/// How many looks are made at what is waited for.
const TURNS: u32 = 10_000_000;

/// Looks until the count is no longer 0, and says whether it was so in time.
fn comes(count: &AtomicU64) -> bool {
    let backoff = Backoff::new();
    for _ in 0..TURNS {
        if count.load(Ordering::SeqCst) != 0 {
            return true;
        }
        backoff.spin();
    }
    false
}

/// What ring 0 does, which is held once meanwhile.
#[derive(Clone, Copy)]
enum Case {
    /// It learns the pair.
    Lemma,
    /// It learns the unit 2.
    Unit,
    /// It learns the pair and offers it.
    Offer,
    /// It learns the pair, gives it up and deletes it.
    Deletion,
    /// It learns the pair, offers it and gives it up. Then it offers the later clause, with which the pair comes back, and deletes
    /// the pair.
    Return,
}

/// At which point ring 0 is held.
fn point_of(case: Case) -> Point {
    match case {
        Case::Lemma | Case::Unit => Point::Learned,
        Case::Offer => Point::Put,
        Case::Deletion | Case::Return => Point::Dropped,
    }
}

/// Holds ring 0 at a point until ring 1 lets it go.
#[derive(Drop)]
struct Holding {
    point: Point,
    /// The number of clauses that ring 0 had learned when it was held last, as it said.
    learned: AtomicU64,
    /// How often ring 0 was held.
    held: AtomicU64,
    /// How often ring 1 let it go.
    freed: AtomicU64,
    /// How often somebody waited in vain.
    missed: AtomicU64,
}

impl Holding {
    fn new(point: Point) -> Holding {
        Holding {
            point,
            learned: AtomicU64::new(0),
            held: AtomicU64::new(0),
            freed: AtomicU64::new(0),
            missed: AtomicU64::new(0),
        }
    }

    fn wait_for(&self, count: &AtomicU64) {
        if !comes(count) {
            self.missed.fetch_add(1, Ordering::SeqCst);
        }
    }
}

impl Gate for Holding {
    fn at(&self, ring: u32, point: Point, learned: u64) {
        if ring == 0 && point == self.point {
            self.learned.store(learned, Ordering::SeqCst);
            self.held.fetch_add(1, Ordering::SeqCst);
            self.wait_for(&self.freed);
        }
    }
}

/// What ring 1 finds while ring 0 is held.
#[derive(Clone, Copy, PartialEq, Eq, Debug)]
struct Moment {
    /// The number of clauses that ring 0 has learned, as it said.
    learned: u64,
    /// The turn, which is free: 256 for each entry of the log.
    turn: u64,
    /// The number of listed units.
    units: u64,
    /// The address in the slot of ring 0 for ring 1, of the class of two literals.
    slot: u64,
    /// The count of the cell of the pair that ring 0 learned.
    pair: u64,
    /// The number of the first listed unit.
    number: u64,
}

// The places of these words in a table for two rings and three variables that begins with the four clauses.
const TURN: usize = 0;

const UNITS: usize = 2;

const SLOT: usize = 15;

const PAIR: usize = 45;

const NUMBER: usize = 92;

/// What is found now; nothing if the table is too short.
fn look<B: Ledger>(table: &Shared<B>, gate: &Holding) -> Option<Moment> {
    Some(Moment {
        learned: gate.learned.load(Ordering::SeqCst),
        turn: word_at(table, TURN)?,
        units: word_at(table, UNITS)?,
        slot: word_at(table, SLOT)?,
        pair: word_at(table, PAIR)?,
        number: word_at(table, NUMBER)?,
    })
}

/// Learns the pair and offers it.
fn put_pair<P: Port>(port: &mut P) -> Result<(), Miss>
    requires { IsBegun (P.state port.old) }
    ensures { OnOk result (Stays (P.state port.old) (P.state port.new)) }
{
    draw_first(port)?;
    let pair = learn_pair(port)?;
    match offer_pair(port, pair) {
        1 => Ok(()),
        _ => Err(Miss::NotOffered),
    }
}

/// Deletes the clauses that wait.
fn delete<P: Port>(port: &mut P) -> Result<(), Miss>
    requires { IsPlayer (P.state port.old) }
    ensures { OnOk result (Stays (P.state port.old) (P.state port.new)) }
{
    match port.tidy() {
        Ok(()) => Ok(()),
        Err(_) => Err(Miss::NotDeleted),
    }
}

/// Learns the pair, gives it up and deletes it.
fn bury_pair<P: Port>(port: &mut P) -> Result<(), Miss>
    requires { IsBegun (P.state port.old) }
    ensures { OnOk result (Stays (P.state port.old) (P.state port.new)) }
{
    draw_first(port)?;
    let pair = learn_pair(port)?;
    give_pair_up(port, pair)?;
    delete(port)
}

/// Offers the pair and the later clause, each as it is learned, and deletes the pair, which came back.
fn bury_returned<P: Port>(port: &mut P) -> Result<(), Miss>
    requires { IsBegun (P.state port.old) }
    ensures { OnOk result (Stays (P.state port.old) (P.state port.new)) }
{
    let _offered = offer_both(port)?;
    delete(port)
}

/// Does what the case says.
fn go_on<P: Port>(port: &mut P, case: Case) -> Result<(), Miss>
    requires { IsBegun (P.state port.old) }
    ensures { OnOk result (Stays (P.state port.old) (P.state port.new)) }
{
    match case {
        Case::Lemma => {
            draw_first(port)?;
            let _pair = learn_pair(port)?;
            Ok(())
        }
        Case::Unit => {
            draw_first(port)?;
            learn_two(port)
        }
        Case::Offer => put_pair(port),
        Case::Deletion => bury_pair(port),
        Case::Return => bury_returned(port),
    }
}

/// Ring 0. Its port is given back.
fn play_zero<P: Port + Drop>(port: P, case: Case) -> Result<P, Miss>
    requires { IsBegun (P.state port) }
    ensures { IfOk result (λ p. Stays (P.state port) (P.state p)) }
{
    let mut port = port;
    go_on(&mut port, case)?;
    Ok(port)
}

/// Learns the pair too, and writes the unit 2.
fn write_lines<P: Port>(port: &mut P) -> Result<(), Miss>
    requires { IsBegun (P.state port.old) }
    ensures { OnOk result (Stays (P.state port.old) (P.state port.new)) }
{
    draw_first(port)?;
    let _pair = learn_pair(port)?;
    write_two(port)
}

/// Takes the pair that ring 0 has put, and finds no second clause.
fn take_pair<P: Port>(port: &mut P) -> Result<(), Miss>
    requires { IsListener (P.state port.old) [] }
    ensures { OnOk result (Stays (P.state port.old) (P.state port.new)) }
{
    let (_found, _head, first, second) = hear_once(port)?;
    if first == Lit::new(1, false) && second == Lit::new(2, false) {
        Ok(())
    } else {
        Err(Miss::AnotherClause)
    }
}

/// Is given the unit 2, which ring 0 has listed.
fn take_two<P: Port>(port: &mut P) -> Result<(), Miss>
    ensures { OnOk result (Stays (P.state port.old) (P.state port.new)) }
{
    match port.next_unit() {
        Some(lit) if lit == Lit::new(2, false) => Ok(()),
        Some(_) => Err(Miss::AnotherClause),
        None => Err(Miss::Nothing),
    }
}

/// What ring 1 does while ring 0 is held.
fn act<P: Port>(port: &mut P, case: Case) -> Result<(), Miss>
    requires begun { IsBegun (P.state port.old) }
    requires ring { (P.state port.old).ring ≡ 1 }
    ensures { OnOk result (Stays (P.state port.old) (P.state port.new)) }
{
    match case {
        Case::Offer => take_pair(port),
        Case::Unit => take_two(port),
        Case::Lemma | Case::Deletion | Case::Return => write_lines(port),
    }
}

/// Ring 1: once ring 0 is held it looks and acts, and then lets ring 0 go. Its port is given back, with what it found.
fn play_one<B: Ledger, P: Port + Drop>(
    port: P,
    table: &Shared<B>,
    gate: &Holding,
    case: Case,
) -> Result<(P, Option<Moment>), Miss>
    requires begun { IsBegun (P.state port) }
    requires ring { (P.state port).ring ≡ 1 }
    ensures { IfOk result (λ x. Stays (P.state port) (P.state x.0)) }
{
    let mut port = port;
    gate.wait_for(&gate.held);
    let moment = look(table, gate);
    let acted = act(&mut port, case);
    gate.freed.fetch_add(1, Ordering::SeqCst);
    acted?;
    Ok((port, moment))
}

/// The ports of both rings after their parts, with what ring 1 found, or why there is none.
type Played<P> = (Result<P, Miss>, Result<(P, Option<Moment>), Miss>);

/// Both rings, each in a thread of its own if threads can be made.
fn play_both<B: Ledger + Send, P: Port + Drop + Send, R: Threads>(
    rt: &R,
    table: &Shared<B>,
    gate: &Holding,
    case: Case,
    zero: P,
    one: P,
) -> Played<P>
    requires zero { IsBegun (P.state zero) }
    requires one { IsBegun (P.state one) }
    requires ring { (P.state one).ring ≡ 1 }
    ensures zero { IfOk result.0 (λ p. Stays (P.state zero) (P.state p)) }
    ensures one { IfOk result.1 (λ x. Stays (P.state one) (P.state x.0)) }
{
    join(
        rt,
        || play_zero(zero, case),
        || play_one(one, table, gate, case),
    )
}

/// Holds ring 0 while ring 1 acts: it finds this then, and these lines are written.
fn hold(
    rt: &(impl Abort + AllocGlobal + Threads + Wait + Sync),
    case: Case,
    wanted: Moment,
    lines: &[u8],
) -> Result<(), Fail> {
    let alloc = rt.alloc();
    let (table, mut first, cells) = open_four(alloc, 1, MemSink::new(alloc, 64, &[])?)?;
    let gate = Holding::new(point_of(case));
    let start = cells.as_slice();
    let zero = begin_port(rt, alloc, &table, &gate, &mut first, 0, start)?;
    let one = begin_port(rt, alloc, &table, &gate, &mut first, 1, start)?;
    let (zero, one) = play_both(rt, &table, &gate, case, zero, one);
    let zero = zero?;
    let (one, moment) = one?;
    join_ring(&table, &mut first, one, 1);
    join_ring(&table, &mut first, zero, 0);
    let counts = [
        gate.held.load(Ordering::SeqCst),
        gate.missed.load(Ordering::SeqCst),
    ];
    assert!(rt; counts == [1, 0]);
    assert!(rt; moment == Some(wanted), "{moment:?}");
    let (end, sink, _) = close(table, first).finish();
    assert!(rt; end == Ok(()));
    assert!(rt; sink.bytes() == lines);
    Ok(())
}

/// A ring that has learned a clause holds its cell, and keeps no other one from writing.
#[test]
fn held_after_a_lemma(rt: HostRuntime) -> Result<(), Fail> {
    let wanted = Moment {
        learned: 1,
        turn: 256,
        units: 0,
        slot: 0,
        pair: 1,
        number: 0,
    };
    hold(&rt, Case::Lemma, wanted, b"1 2 0\n1 2 0\n2 0\n")
}

/// A unit that a ring has learned is given to another one, also before the ring goes on.
#[test]
fn held_after_a_unit(rt: HostRuntime) -> Result<(), Fail> {
    let wanted = Moment {
        learned: 1,
        turn: 256,
        units: 1,
        slot: 0,
        pair: 0,
        number: 5,
    };
    hold(&rt, Case::Unit, wanted, b"2 0\n")
}

/// What a ring has put has one count more, and is taken once, also before the ring goes on.
#[test]
fn held_after_a_put(rt: HostRuntime) -> Result<(), Fail> {
    let wanted = Moment {
        learned: 1,
        turn: 256,
        units: 0,
        slot: 45,
        pair: 2,
        number: 0,
    };
    hold(&rt, Case::Offer, wanted, b"1 2 0\n")
}

/// A clause that a ring has given up is held by nobody. Its deletion may be written after what another ring writes meanwhile,
/// whose copy stays.
#[test]
fn held_before_a_deletion(rt: HostRuntime) -> Result<(), Fail> {
    let wanted = Moment {
        learned: 1,
        turn: 256,
        units: 0,
        slot: 0,
        pair: 0,
        number: 0,
    };
    hold(&rt, Case::Deletion, wanted, b"1 2 0\n1 2 0\n2 0\nd 1 2 0\n")
}

/// The same with a clause that came back from a slot, in which another one lies then.
#[test]
fn held_after_a_return(rt: HostRuntime) -> Result<(), Fail> {
    let wanted = Moment {
        learned: 2,
        turn: 512,
        units: 0,
        slot: 49,
        pair: 0,
        number: 0,
    };
    let lines = b"1 2 0\n2 -3 0\n1 2 0\n2 0\nd 1 2 0\n";
    hold(&rt, Case::Return, wanted, lines)
}
