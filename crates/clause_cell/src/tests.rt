// Cells written and read back, worked holes, and holes compared with a plain bitmap.
ghost use Rattle.std.specs.Prelude.{◌≡◌, ◌<◌, ◌≤◌, ◌+◌, ◌^◌};

use crate::{HoleStop, Holes, glue_of, half, head_word, lit_word, pair_word, size_of, words_for};
use sat_words::Lit;
use std::alloc::Global;
use std::process::Abort;
use std::test::Fail;

/// Sizes of clauses, and the number of words that each takes.
const SIZES: &[(u32, u64)] = &[(2, 4), (3, 5), (4, 5), (5, 6), (40, 23)];

#[test]
fn clauses_take_their_words(rt: HostRuntime) -> Result<(), Fail> {
    for (size, words) in SIZES {
        assert_eq!(rt; words_for(*size), *words, "of {size}");
    }
    assert_eq!(rt; pair_word(7, 9), 9 * 4294967296 + 7);
    let head = head_word(3, 2);
    assert_eq!(rt; (size_of(head), glue_of(head)), (3, 2));
    Ok(())
}

/// Literals on the variables from 1 on, every third negated.
fn literals(alloc: Global, size: u32) -> Result<Vec<Lit>, Fail>
    requires { size < 100 }
{
    let mut lits = Vec::new(alloc);
    for var in 1..size {
        lits.push(Lit::new(var, var % 3 == 0))?;
    }
    lits.push(Lit::new(1 << 30, true))?;
    Ok(lits)
}

#[test]
fn literals_are_read_back(rt: HostRuntime) -> Result<(), Fail> {
    for size in 2..41 {
        let lits = literals(rt.alloc(), size)?;
        let mut words = Vec::new(rt.alloc());
        for place in 0..words_for(size).saturating_sub(3) as usize {
            let word = if place <= lits.len() {
                lit_word(lits.as_slice(), place)
            } else {
                0
            };
            words.push(word)?;
        }
        let mut place: u32 = 0;
        for lit in lits.as_slice() {
            let word = words.get(place as usize / 2).copied();
            assert_eq!(rt;
                word.map(|word| half(word, place)),
                Some(lit.code()),
                "{place} of {size}"
            );
            place = place.saturating_add(1);
        }
    }
    Ok(())
}

/// This number of words from the place on, all free.
fn hole(alloc: Global, first: u64, len: u64) -> Result<Holes, Fail>
    requires { first + len ≤ 2 ^ 63 }
{
    match Holes::new(alloc, first, len) {
        Ok(holes) => Ok(holes),
        Err(_) => Err(Fail::from("no memory")),
    }
}

/// Gives the words back, if none of them is free.
fn give(holes: &mut Holes, first: u64, len: u64) -> Result<(), Fail> {
    if len == 0 || first > 1 << 32 || len > 1 << 32 || !holes.is_clear(first, len) {
        return Err(Fail::from("not taken"));
    }
    match holes.give(first, len) {
        Ok(()) => Ok(()),
        Err(_) => Err(Fail::from("no memory")),
    }
}

/// Four of ten words from 100 on are taken and given back.
#[test]
fn words_are_taken_and_given_back(rt: HostRuntime) -> Result<(), Fail> {
    let mut holes = hole(rt.alloc(), 100, 10)?;
    assert_eq!(rt; holes.take(4), Ok(100));
    assert_eq!(rt;
        holes.take(7),
        Err(HoleStop::NoHole {
            need: 7,
            largest: 6
        })
    );
    give(&mut holes, 100, 4)?;
    assert_eq!(rt; holes.largest(), 10);
    Ok(())
}

/// The high bits of Knuth's linear congruential generator of MMIX.
#[derive(Drop)]
struct Numbers {
    state: u64,
}

impl Numbers {
    /// A number below the bound.
    fn below(&mut self, bound: u32) -> u32
        requires { 0 < bound }
        ensures { result < bound }
    {
        self.state = self
            .state
            .wrapping_mul(6364136223846793005)
            .wrapping_add(1442695040888963407);
        ((self.state >> 33) as u32) % bound
    }
}

/// The number of words that the map has.
const WORDS: u64 = 2048;

/// Which words are free, one by one, and the ranges that were taken.
#[derive(Drop)]
struct Map {
    free: Vec<bool>,
    taken: Vec<(u64, u64)>,
}

fn all_free(free: &[bool], first: usize, need: usize) -> bool {
    free.iter().skip(first).take(need).all(|word| *word)
}

impl Map {
    fn new(alloc: Global) -> Result<Map, Fail> {
        let mut free = Vec::new(alloc);
        free.resize(WORDS as usize, true)?;
        Ok(Map {
            free,
            taken: Vec::new(alloc),
        })
    }

    /// The first place from which on this number of words is free.
    fn first_fit(&self, need: u64) -> Option<u64> {
        for first in 0..WORDS {
            if first.saturating_add(need) <= WORDS
                && all_free(self.free.as_slice(), first as usize, need as usize)
            {
                return Some(first);
            }
        }
        None
    }

    /// The longest run of free words.
    fn largest(&self) -> u64 {
        let mut most: u64 = 0;
        let mut run: u64 = 0;
        for word in self.free.as_slice() {
            run = if *word { run.saturating_add(1) } else { 0 };
            most = most.max(run);
        }
        most
    }

    fn mark(&mut self, first: u64, len: u64, free: bool) {
        let mut place: u64 = 0;
        for word in self.free.iter_mut() {
            if first <= place && place < first.saturating_add(len) {
                *word = free;
            }
            place = place.saturating_add(1);
        }
    }
}

/// Takes words of both, and compares what is answered.
fn take_both(rt: &impl Abort, holes: &mut Holes, map: &mut Map, need: u64) -> Result<(), Fail>
    requires { 0 < need }
{
    let largest = map.largest();
    match map.first_fit(need) {
        Some(first) => {
            assert_eq!(rt; holes.take(need), Ok(first));
            map.mark(first, need, false);
            map.taken.push((first, need))?;
        }
        None => assert_eq!(rt; holes.take(need), Err(HoleStop::NoHole { need, largest })),
    }
    Ok(())
}

/// Gives some range that was taken back to both.
fn give_both(holes: &mut Holes, map: &mut Map, numbers: &mut Numbers) -> Result<(), Fail> {
    if map.taken.is_empty() || map.taken.len() > 1 << 20 {
        return Ok(());
    }
    let place = numbers.below(map.taken.len() as u32) as usize;
    let (first, len) = map.taken.swap_remove(place);
    map.mark(first, len, true);
    give(holes, first, len)
}

// All words are taken one by one. Then more are given back than taken, so that the holes come to several blocks and run
// together again.
#[test]
fn holes_are_those_of_a_map(rt: HostRuntime) -> Result<(), Fail> {
    let mut holes = hole(rt.alloc(), 0, WORDS)?;
    let mut map = Map::new(rt.alloc())?;
    let mut numbers = Numbers { state: 1 };
    for _ in 0..WORDS {
        take_both(&rt, &mut holes, &mut map, 1)?;
    }
    for _ in 0..6000 {
        if numbers.below(3) == 0 {
            let need = 1 + numbers.below(9) as u64;
            take_both(&rt, &mut holes, &mut map, need)?;
        } else {
            give_both(&mut holes, &mut map, &mut numbers)?;
        }
        assert_eq!(rt; holes.largest(), map.largest());
    }
    Ok(())
}

// The next two are what bench/cells measures.

/// The number of holes.
const HOLES: u64 = 100_000;

/// Holes of two words, and after them one of three.
fn many_holes(alloc: Global) -> Result<Holes, Fail> {
    let mut holes = hole(alloc, 0, 0)?;
    for i in 0..HOLES {
        give(&mut holes, 4 * i, 2)?;
    }
    give(&mut holes, 4 * HOLES, 3)?;
    Ok(holes)
}

#[test]
fn many_holes_stand(rt: HostRuntime) -> Result<(), Fail> {
    assert_eq!(rt; many_holes(rt.alloc())?.largest(), 3);
    Ok(())
}

// The first hole that is long enough is the last one, and then the first one.
#[test]
fn many_holes_are_taken_and_given_back(rt: HostRuntime) -> Result<(), Fail> {
    let mut holes = many_holes(rt.alloc())?;
    for _ in 0..100_000 {
        assert_eq!(rt; holes.take(3), Ok(4 * HOLES));
        give(&mut holes, 4 * HOLES, 3)?;
        assert_eq!(rt; holes.take(2), Ok(0));
        give(&mut holes, 0, 2)?;
    }
    assert_eq!(rt; holes.largest(), 3);
    Ok(())
}
