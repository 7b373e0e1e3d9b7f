use crate::{CLAUSES, VARS, make};
use sat_words::{Clause, Lit};
use std::test::Fail;

/// The clause of three literals in the manner of DIMACS, if it is one.
fn is_clause(clause: &Clause, numbers: [(u32, bool); 3]) -> bool {
    let lits = clause.lits();
    lits.len() == 3
        && (0..3).all(|i| lits[i].var() == numbers[i].0 && lits[i].is_neg() == numbers[i].1)
}

// The first three clauses of number 7 and its last one, computed by another program. The third was false under the hidden
// values.
#[test]
fn clauses_of_number_7(rt: HostRuntime) -> Result<(), Fail> {
    let formula = make(rt.alloc(), 7)?;
    assert_eq!(rt; formula.vars(), VARS);
    let clauses = formula.clauses();
    assert_eq!(rt; clauses.len(), CLAUSES as usize);
    for (place, numbers) in [
        (0usize, [(6753u32, true), (8257, false), (10015, true)]),
        (1, [(5582, false), (15078, false), (16380, false)]),
        (2, [(11302, true), (12615, true), (15780, false)]),
        (59999, [(2990, false), (7516, true), (15688, true)]),
    ] {
        assert_eq!(rt;
            clauses
                .get(place)
                .map_or(false, |clause| is_clause(clause, numbers)),
            true
        );
    }
    Ok(())
}
