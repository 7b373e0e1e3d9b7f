//! The two literals of a clause that are best to watch: literals that aren't false, and after them those false at the
//! highest levels, which going back makes open first. No literal that is left out may rank above the two. A clause of two
//! literals isn't looked at: they are its watches.
ghost use Rattle.std.specs.Prelude.{◌≡◌, ◌≤◌, All, IsSome, length};
ghost use Rattle.rup_model.specs.Opening.{IsLong};
ghost use Rattle.ring_port.specs.PortState.{held_at, lits_at};
ghost use Rattle.watch_prop.specs.Watched.{IsPair};
ghost use Rattle.watch_prop.specs.Choice.{IsRank, first_two, better_of, IsBest};

use crate::watch::Watch;
use ring_port::Port;
use ring_trail::Trail;
use sat_words::{Cref, Lit};

/// The two literals with the highest ranks so far, and these.
#[derive(Clone, Copy)]
pub(crate) struct Best {
    pub(crate) first: Lit,
    pub(crate) second: Lit,
    pub(crate) high: u32,
    pub(crate) low: u32,
}

/// The level at which the literal is false, or one more than the present level.
fn rank(trail: &Trail, lit: Lit) -> u32
    requires { lit.var ≤ trail.now.vars }
    ensures { IsRank trail.now lit result }
{
    let not_false = trail.decision_level() + 1;
    if trail.is_false(lit) {
        trail.level(lit.var()).unwrap_or(0)
    } else {
        not_false
    }
}

fn start(first: Lit, high: u32, second: Lit, low: u32) -> Best
    ensures { result ≡ first_two first high second low }
{
    if high < low {
        Best {
            first: second,
            second: first,
            high: low,
            low: high,
        }
    } else {
        Best {
            first,
            second,
            high,
            low,
        }
    }
}

fn better(best: Best, lit: Lit, rank: u32) -> Best
    ensures { result ≡ better_of best lit rank }
{
    if best.high < rank {
        Best {
            first: lit,
            second: best.first,
            high: rank,
            low: best.high,
        }
    } else if best.low < rank {
        Best {
            first: best.first,
            second: lit,
            high: best.high,
            low: rank,
        }
    } else {
        best
    }
}

/// The two literals of the clause that are best to watch.
fn choose<P: Port>(port: &mut P, trail: &Trail, clause: Cref) -> Best
    requires held { IsSome (held_at (P.state port.old) clause.address) }
    requires long { IsLong (lits_at (P.state port.old) clause.address) }
    requires in_range { All (λ l. l.var ≤ trail.now.vars) (lits_at (P.state port.old) clause.address) }
    ensures same { P.state port.new ≡ P.state port.old }
    ensures best { IsBest trail.now (lits_at (P.state port.old) clause.address) (length (lits_at (P.state port.old) clause.address)) result }
{
    let size = port.shape(clause).size;
    let first = port.read_lit(clause, 0);
    let second = port.read_lit(clause, 1);
    let mut best = start(first, rank(trail, first), second, rank(trail, second));
    for i in 2..size {
        let lit = port.read_lit(clause, i);
        best = better(best, lit, rank(trail, lit));
    }
    best
}

/// The two literals of the clause of a watch that are best to watch.
pub(crate) fn best_watches<P: Port>(port: &mut P, trail: &Trail, watch: &Watch) -> Best
    requires held { IsSome (held_at (P.state port.old) watch.now.clause.address) }
    requires long { IsLong (lits_at (P.state port.old) watch.now.clause.address) }
    requires in_range { All (λ l. l.var ≤ trail.now.vars) (lits_at (P.state port.old) watch.now.clause.address) }
    requires pair { IsPair (lits_at (P.state port.old) watch.now.clause.address) watch.now }
    ensures same { P.state port.new ≡ P.state port.old }
    ensures best { IsBest trail.now (lits_at (P.state port.old) watch.now.clause.address) (length (lits_at (P.state port.old) watch.now.clause.address)) result }
{
    if watch.binary {
        return start(
            watch.first,
            rank(trail, watch.first),
            watch.second,
            rank(trail, watch.second),
        );
    }
    choose(port, trail, watch.clause)
}
