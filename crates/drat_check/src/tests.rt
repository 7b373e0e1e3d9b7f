use crate::{Verdict, check};
use sat_words::{Clause, Formula, Line, Lit, Lits};
use std::alloc::{AllocError, Global};
use std::test::Fail;

/// Whether a line adds or deletes.
#[derive(Clone, Copy)]
enum Way {
    Adds,
    Deletes,
}

/// The verdict on these lines over these clauses, on three variables.
fn verdict(
    alloc: Global,
    clauses: &[&[Lit]],
    lines: &[(Way, &[Lit])],
) -> Result<Verdict, AllocError> {
    let mut formula = Formula::new(alloc, 3);
    for lits in clauses {
        formula.push(Clause::from_lits(alloc, lits)?)?;
    }
    let mut log = Vec::new(alloc);
    for (way, lits) in lines {
        log.push(line(*way, Lits::from_slice(alloc, lits)?))?;
    }
    check(alloc, &formula, log.as_slice())
}

fn line(way: Way, lits: Lits) -> Line {
    match way {
        Way::Adds => Line::Add(lits),
        Way::Deletes => Line::Del(lits),
    }
}

// All four clauses on two variables, and logs over them.
#[test]
fn verdicts_over_four_clauses(rt: HostRuntime) -> Result<(), Fail> {
    let alloc = rt.alloc();
    let (a, b, c) = (Lit::new(1, false), Lit::new(2, false), Lit::new(3, false));
    let (x, y) = (Lit::new(1, true), Lit::new(2, true));
    let four: [&[Lit]; 4] = [&[a, b], &[a, y], &[x, b], &[x, y]];
    let refutes: [(Way, &[Lit]); 2] = [(Way::Adds, &[a]), (Way::Adds, &[])];
    assert_eq!(rt;
        verdict(alloc, &four, &refutes)?,
        Verdict::Accepted { empty: true }
    );
    let deletes_first: [(Way, &[Lit]); 2] = [(Way::Deletes, &[a, b]), (Way::Adds, &[a])];
    assert_eq!(rt;
        verdict(alloc, &four, &deletes_first)?,
        Verdict::Refused { line: 2 }
    );
    let deletes_another: [(Way, &[Lit]); 1] = [(Way::Deletes, &[a, c])];
    assert_eq!(rt;
        verdict(alloc, &four, &deletes_another)?,
        Verdict::Refused { line: 1 }
    );
    assert_eq!(rt;
        verdict(alloc, &four, &[])?,
        Verdict::Accepted { empty: false }
    );
    Ok(())
}

// A clause with a new variable is RAT; a unit is not deleted, and each copy once.
#[test]
fn verdicts_over_one_clause(rt: HostRuntime) -> Result<(), Fail> {
    let alloc = rt.alloc();
    let (a, b, c) = (Lit::new(1, false), Lit::new(2, false), Lit::new(3, false));
    let one: [&[Lit]; 1] = [&[a, b]];
    let new_variable: [(Way, &[Lit]); 1] = [(Way::Adds, &[c])];
    assert_eq!(rt;
        verdict(alloc, &one, &new_variable)?,
        Verdict::Accepted { empty: false }
    );
    let deletes_unit: [(Way, &[Lit]); 2] = [(Way::Adds, &[c]), (Way::Deletes, &[c, c])];
    assert_eq!(rt;
        verdict(alloc, &one, &deletes_unit)?,
        Verdict::Refused { line: 2 }
    );
    let deletes_twice: [(Way, &[Lit]); 2] = [(Way::Deletes, &[b, a]), (Way::Deletes, &[a, b])];
    assert_eq!(rt;
        verdict(alloc, &one, &deletes_twice)?,
        Verdict::Refused { line: 2 }
    );
    Ok(())
}
