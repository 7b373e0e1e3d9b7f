// A formula made clause by clause.
use crate::Problem;
use sat_words::Lit;
use std::process::Abort;
use std::test::Fail;

#[test]
fn clauses_come_with_their_numbers(rt: HostRuntime) -> Result<(), Fail> {
    let alloc = rt.alloc();
    let one = Lit::new(1, false);
    let two = Lit::new(2, false);
    let problem = Problem::new(alloc, 2).with_unit(alloc, two)?;
    let problem = problem.with(alloc, &[two.not(), one])?;
    assert_eq!(rt; problem.formula.clauses().len(), 2);
    assert_eq!(rt; problem.units.len(), 1);
    assert_eq!(rt; problem.start.len(), 1);
    let (number, clause) = &problem.start[0];
    assert_eq!(rt; *number, 2);
    assert!(rt; clause.lits() == [one, two.not()].as_slice());
    Ok(())
}
