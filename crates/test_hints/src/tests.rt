// The follower by itself: lines that may come one after another, and lines that may not.
use crate::Follower;
use sat_words::{Clause, Formula, Lit};
use std::alloc::Global;
use std::test::Fail;

/// The four clauses on two variables, which no assignment satisfies: 1 2, 1 -2, -1 2 and -1 -2.
fn four_clauses(alloc: Global) -> Result<Formula, Fail> {
    let mut formula = Formula::new(alloc, 2);
    for (one, two) in [(false, false), (false, true), (true, false), (true, true)] {
        let lits = [Lit::new(1, one), Lit::new(2, two)];
        formula.push(Clause::from_lits(alloc, &lits)?)?;
    }
    Ok(formula)
}

/// Whether each line of the text may come next, after the formula's clauses.
fn is_followed(alloc: Global, text: &str) -> Result<bool, Fail> {
    let mut follower = Follower::new(alloc, &four_clauses(alloc)?)?;
    Ok(follower.follow_all(text.as_bytes())?)
}

#[test]
fn a_refutation_is_followed(rt: HostRuntime) -> Result<(), Fail> {
    let alloc = rt.alloc();
    let mut follower = Follower::new(alloc, &four_clauses(alloc)?)?;
    assert!(rt; follower.follow_all(b"5 1 0 1 2 0\n5 d 1 0\n")?);
    assert!(rt; !follower.is_refuted());
    assert!(rt; follower.clause(5).map(|clause| clause.lits().len()) == Some(1));
    assert!(rt; follower.follow_all(b"6 0 5 3 4 0\n")?);
    assert!(rt; follower.is_refuted());
    assert!(rt; (follower.lines(), follower.deletions(), follower.last()) == (3, 1, 6));
    assert!(rt; follower.clause(1).is_none());
    Ok(())
}

/// Lines of which the last may not come there.
const REFUSED: &[&str] = &[
    // another number than the next one
    "6 1 0 1 2 0\n",
    // hints in an order that shows nothing, none at all, and one of a clause that is not alive
    "5 1 0 1 2 0\n6 0 4 5 3 0\n",
    "5 1 0 0\n",
    "5 1 0 1 2 0\n5 d 1 0\n6 1 0 1 2 0\n",
    // no 0 behind the literals
    "5 1 1 2\n",
    // a deletion under the number before, and one of what is gone
    "5 1 0 1 2 0\n4 d 1 0\n",
    "5 1 0 1 2 0\n5 d 1 0\n5 d 1 0\n",
    // two numbers deleted at once
    "5 1 0 1 2 0\n5 d 1 2 0\n",
    // a negative hint, no 0 at the end, another variable, no number, and a word of no digit
    "5 1 0 -1 2 0\n",
    "5 1 0 1 2\n",
    "5 3 0 1 2 0\n",
    "-5 1 0 1 2 0\n",
    "5 - 0 1 2 0\n",
];

#[test]
fn wrong_lines_are_refused(rt: HostRuntime) -> Result<(), Fail> {
    for text in REFUSED {
        assert!(rt; !is_followed(rt.alloc(), text)?, "{text}");
    }
    Ok(())
}
