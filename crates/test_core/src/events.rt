// Events as text, with what is to become of each.
//
// A table has a line for each event: the ring, what it does, and whether that is done or refused. In the line
//     0 learn 50 : 1 2 = refused # no turn
// ring 0 is to learn the clause of 1 and 2, with a cell at 50. Literals are as in a file, and a comment stands behind '#'.
// In a log with hints they stand behind the literals, after 'by'. A unit is listed 'as' the clause with a number.
// Behind the line "leaves" stands what is seen of the core then, as `seen` writes it.
use rup_model::{ClauseNumbers, Kind};
use sat_words::{Lit, Lits};
use share_core::{Event, Step};
use std::alloc::Global;
use std::test::Fail;

pub(crate) fn lit(word: &str) -> Result<Lit, Fail> {
    let n = word.parse::<i32>()?;
    let var = n.unsigned_abs();
    if var == 0 || var > 1 << 30 {
        return Err(Fail::from("no literal"));
    }
    Ok(Lit::new(var, n < 0))
}

pub(crate) fn lits(alloc: Global, words: &[&'static str]) -> Result<Lits, Fail> {
    let mut all = Vec::new(alloc);
    for word in words {
        all.push(lit(*word)?)?;
    }
    Ok(Lits::from_vec(all))
}

/// The words of a line.
pub(crate) fn words(alloc: Global, line: &'static str) -> Result<Vec<&'static str>, Fail> {
    Ok(line.split_whitespace().collect(alloc)?)
}

/// Why a clause is added.
fn kind(word: &str) -> Option<Kind> {
    match word {
        "ruler" => Some(Kind::Ruler),
        "learn" => Some(Kind::Learn),
        "derive" => Some(Kind::Derive),
        "propagate" => Some(Kind::UnitLine),
        _ => None,
    }
}

/// The words up to 'by', and the numbers after it.
fn hinted_words(
    alloc: Global,
    words: &[&'static str],
) -> Result<(Vec<&'static str>, ClauseNumbers), Fail> {
    let mut before = Vec::new(alloc);
    let mut numbers = Vec::new(alloc);
    let mut hints = false;
    for word in words {
        if hints {
            numbers.push(word.parse::<u64>()?)?;
        } else if *word == "by" {
            hints = true;
        } else {
            before.push(*word)?;
        }
    }
    Ok((
        before,
        ClauseNumbers::from_slice(alloc, numbers.as_slice())?,
    ))
}

/// A clause that is added, with the address of its cell, or a unit.
fn addition(alloc: Global, ring: u32, kind: Kind, words: &[&'static str]) -> Result<Event, Fail> {
    let (words, hints) = hinted_words(alloc, words)?;
    match words.as_slice() {
        ["unit", n] => Ok(Event::AddUnit {
            ring,
            kind,
            lit: lit(*n)?,
            hints,
        }),
        [address, ":", ints @ ..] => Ok(Event::AddClause {
            ring,
            kind,
            lits: lits(alloc, ints)?,
            hints,
            address: address.parse()?,
        }),
        _ => Err(Fail::from("no clause")),
    }
}

fn empty(alloc: Global, ring: u32, words: &[&'static str]) -> Result<Event, Fail> {
    let (words, hints) = hinted_words(alloc, words)?;
    match words.as_slice() {
        [] => Ok(Event::AddEmpty { ring, hints }),
        _ => Err(Fail::from("no empty clause")),
    }
}

fn publish(ring: u32, words: &[&'static str]) -> Result<Event, Fail> {
    let [n, "as", number] = words else {
        return Err(Fail::from("no unit with its number"));
    };
    Ok(Event::Publish {
        ring,
        lit: lit(*n)?,
        number: number.parse()?,
    })
}

fn put(ring: u32, words: &[&'static str]) -> Result<Event, Fail> {
    let [address, "for", to, "class", class, "place", place] = words else {
        return Err(Fail::from("no put"));
    };
    Ok(Event::Put {
        ring,
        to: to.parse()?,
        class: class.parse()?,
        place: place.parse()?,
        address: address.parse()?,
    })
}

fn get(ring: u32, words: &[&'static str]) -> Result<Event, Fail> {
    let ["from", from, "class", class, "place", place] = words else {
        return Err(Fail::from("no get"));
    };
    Ok(Event::Get {
        ring,
        from: from.parse()?,
        class: class.parse()?,
        place: place.parse()?,
    })
}

/// An event that is told by one word.
fn plain_event(ring: u32, word: &str) -> Result<Event, Fail> {
    match word {
        "grant" => Ok(Event::Grant { ring }),
        "take-turn" => Ok(Event::TakeTurn { ring }),
        "give-turn" => Ok(Event::GiveTurn { ring }),
        "reduce" => Ok(Event::Reduce { ring }),
        "see" => Ok(Event::See { ring }),
        "draw" => Ok(Event::Draw { ring }),
        _ => Err(Fail::from("no event")),
    }
}

/// An event that is told by a word and a number.
fn numbered_event(ring: u32, word: &str, number: &str) -> Result<Event, Fail> {
    match word {
        "stop" => Ok(Event::Stop {
            ring,
            kind: number.parse()?,
        }),
        _ => cell_event(ring, word, number.parse()?),
    }
}

/// An event of a cell.
fn cell_event(ring: u32, word: &str, address: u64) -> Result<Event, Fail> {
    match word {
        "open" => Ok(Event::OpenCell { ring, address }),
        "read" => Ok(Event::Read { ring, address }),
        "share" => Ok(Event::Share { ring, address }),
        "drop" => Ok(Event::DropCount { ring, address }),
        "bury" => Ok(Event::Bury { ring, address }),
        _ => Err(Fail::from("no event of a cell")),
    }
}

/// The event of a word and those after it.
fn event(
    alloc: Global,
    ring: u32,
    word: &'static str,
    words: &[&'static str],
) -> Result<Event, Fail> {
    if let Some(kind) = kind(word) {
        return addition(alloc, ring, kind, words);
    }
    match word {
        "empty" => empty(alloc, ring, words),
        "publish" => publish(ring, words),
        "put" => put(ring, words),
        "get" => get(ring, words),
        _ => match words {
            [] => plain_event(ring, word),
            [number] => numbered_event(ring, word, *number),
            _ => Err(Fail::from("too many words")),
        },
    }
}

fn step(word: &str) -> Result<Step, Fail> {
    match word {
        "done" => Ok(Step::Done),
        "refused" => Ok(Step::Refused),
        _ => Err(Fail::from("neither done nor refused")),
    }
}

/// The event of a line, and what is to become of it.
fn told(alloc: Global, words: &[&'static str]) -> Result<(Event, Step), Fail> {
    let [ring, word, rest @ .., "=", end] = words else {
        return Err(Fail::from("no line of a table"));
    };
    let step = step(*end)?;
    let event = event(alloc, ring.parse()?, *word, rest)?;
    Ok((event, step))
}

fn without_comment(line: &'static str) -> &'static str {
    match line.split_once('#') {
        Some((text, _)) => text,
        None => line,
    }
}

/// Events, with what is to become of each.
#[derive(Drop)]
pub(crate) struct Row {
    pub(crate) events: Vec<Event>,
    pub(crate) steps: Vec<Step>,
}

impl Row {
    fn push(&mut self, event: Event, step: Step) -> Result<(), Fail> {
        self.events.push(event)?;
        self.steps.push(step)?;
        Ok(())
    }

    fn add(&mut self, alloc: Global, line: &'static str) -> Result<(), Fail> {
        let words = words(alloc, without_comment(line))?;
        let (event, step) = told(alloc, words.as_slice())?;
        self.push(event, step)
    }

    fn add_all(&mut self, alloc: Global, table: &'static str) -> Result<(), Fail> {
        if table.is_empty() {
            return Err(Fail::from("no table"));
        }
        for line in table.lines() {
            self.add(alloc, line)?;
        }
        Ok(())
    }
}

/// The events of a table.
pub(crate) fn read(alloc: Global, table: &'static str) -> Result<Row, Fail> {
    let mut row = Row {
        events: Vec::new(alloc),
        steps: Vec::new(alloc),
    };
    row.add_all(alloc, table)?;
    Ok(row)
}
