// `watch_prop`: units that are propagated over the small port, with clauses that come and go.
ghost use Rattle.std.specs.Prelude.{◌≡◌, ◌⊎◌, IfOk};
ghost use Rattle.test_search.specs.Sampled.{IsSampled};

use crate::sampled::{SampleClause, Sampled};
use sat_words::Lit;
use std::alloc::Global;
use std::test::Fail;
use watch_prop::Propagated;

/// What is done with watches and a trail.
#[derive(Clone, Copy)]
enum Step {
    /// Attaches a clause.
    Attach(SampleClause),
    /// Detaches one.
    Detach(SampleClause),
    /// Detaches the first and the third one at once.
    DetachTwo,
    /// Attaches the third one and detaches it, this often.
    ComeAndGo(u32),
    /// Makes the unit 1 true, and propagates.
    One,
    /// Makes the unit 4 true, and propagates.
    Four,
    /// Propagates.
    Again,
}

/// Whether a step was quiet, and how often a clause was looked at.
type Told = (bool, u64);

fn told_of(propagated: (Propagated, u64)) -> Told {
    (propagated.0 == Propagated::Quiet, propagated.1)
}

/// Makes a unit that was seen true, if its variable has no value, and propagates.
fn set_unit(sampled: &mut Sampled, var: u32) -> Result<Told, Fail>
    requires sampled { IsSampled sampled.old.watches sampled.old.trail }
    requires seen { (var ≡ 1) ⊎ (var ≡ 4) }
    ensures { IsSampled sampled.new.watches sampled.new.trail }
{
    if sampled.trail.value(var).is_some() {
        return Err(Fail::from("the variable has a value"));
    }
    Ok(told_of(sampled.propagate_unit(Lit::new(var, false))?))
}

/// Detaches, if nothing is true.
fn detach(sampled: &mut Sampled, step: Step) -> Result<(), Fail>
    requires { IsSampled sampled.old.watches sampled.old.trail }
    ensures { IsSampled sampled.new.watches sampled.new.trail }
{
    if !sampled.trail.is_empty() {
        return Err(Fail::from("a literal is true"));
    }
    match step {
        Step::Detach(clause) => sampled.detach(clause),
        Step::ComeAndGo(count) => sampled.come_and_go(count)?,
        _ => sampled.detach_two(),
    }
    Ok(())
}

/// Takes a step.
fn take(sampled: &mut Sampled, step: Step) -> Result<Told, Fail>
    requires { IsSampled sampled.old.watches sampled.old.trail }
    ensures { IsSampled sampled.new.watches sampled.new.trail }
{
    match step {
        Step::One => set_unit(sampled, 1),
        Step::Four => set_unit(sampled, 4),
        Step::Again => Ok(told_of(sampled.propagate()?)),
        Step::Attach(clause) => {
            sampled.attach(clause)?;
            Ok((true, 0))
        }
        _ => {
            detach(sampled, step)?;
            Ok((true, 0))
        }
    }
}

/// Takes the steps, all but the last of which are quiet: what they come to, and what the last one tells.
fn take_all(alloc: Global, steps: &[Step]) -> Result<(Sampled, Told), Fail>
    ensures { IfOk result (λ x. IsSampled x.0.watches x.0.trail) }
{
    let mut sampled = Sampled::new(alloc)?;
    let mut told = (true, 0);
    for step in steps {
        if !told.0 {
            return Err(Fail::from("an early conflict"));
        }
        told = take(&mut sampled, *step)?;
    }
    Ok((sampled, told))
}

/// Steps, and the values of 1 to 5 after them; none if the last step finds a conflict.
struct Row {
    steps: &'static [Step],
    values: &'static [Option<bool>],
}

/// Whether the row's steps come to its values, all at level 0.
fn comes_true(alloc: Global, row: &Row) -> Result<bool, Fail> {
    let (sampled, told) = take_all(alloc, row.steps)?;
    let trail = &sampled.trail;
    let found = [
        trail.value(1),
        trail.value(2),
        trail.value(3),
        trail.value(4),
        trail.value(5),
    ];
    let wanted = if told.0 {
        found.as_slice() == row.values
    } else {
        row.values.is_empty()
    };
    Ok(wanted && trail.decision_level() == 0)
}

const FIRST: Step = Step::Attach(SampleClause::First);

const SECOND: Step = Step::Attach(SampleClause::Second);

const THIRD: Step = Step::Attach(SampleClause::Third);

const NO_FIRST: Step = Step::Detach(SampleClause::First);

const NO_SECOND: Step = Step::Detach(SampleClause::Second);

const TRUE: Option<bool> = Some(true);

const FALSE: Option<bool> = Some(false);

static ROWS: [Row; 9] = [
    // Decided as units, 1 gives 2 by the first clause, and then 4 makes one of the two long clauses false.
    Row {
        steps: &[FIRST, SECOND, THIRD, Step::One],
        values: &[TRUE, TRUE, None, None, None],
    },
    Row {
        steps: &[FIRST, SECOND, THIRD, Step::One, Step::Four],
        values: &[],
    },
    // Without the first two clauses, 1 and 4 give nothing, until the first is back, which gives 2, and -5 by the third.
    Row {
        steps: &[FIRST, SECOND, THIRD, NO_FIRST, NO_SECOND, Step::One],
        values: &[TRUE, None, None, None, None],
    },
    Row {
        steps: &[
            FIRST,
            SECOND,
            THIRD,
            NO_FIRST,
            NO_SECOND,
            Step::One,
            Step::Four,
        ],
        values: &[TRUE, None, None, TRUE, None],
    },
    Row {
        steps: &[
            FIRST,
            SECOND,
            THIRD,
            NO_FIRST,
            NO_SECOND,
            Step::One,
            Step::Four,
            FIRST,
            Step::Again,
        ],
        values: &[TRUE, TRUE, None, TRUE, FALSE],
    },
    // Without the first and the third clause, 1 and 4 give 5 by the second, and nothing of 2.
    Row {
        steps: &[FIRST, SECOND, THIRD, Step::DetachTwo, Step::One],
        values: &[TRUE, None, None, None, None],
    },
    Row {
        steps: &[FIRST, SECOND, THIRD, Step::DetachTwo, Step::One, Step::Four],
        values: &[TRUE, None, None, TRUE, TRUE],
    },
    // Once most slots are free they are compacted, and the two other clauses stay: 1 gives 2 by the first, and then 4 gives 5
    // by the second, which the third would make false.
    Row {
        steps: &[FIRST, SECOND, Step::ComeAndGo(40), Step::One],
        values: &[TRUE, TRUE, None, None, None],
    },
    Row {
        steps: &[FIRST, SECOND, Step::ComeAndGo(40), Step::One, Step::Four],
        values: &[TRUE, TRUE, None, TRUE, TRUE],
    },
];

#[test]
fn steps_come_to_values(rt: HostRuntime) -> Result<(), Fail> {
    for (place, row) in ROWS.iter().enumerate() {
        assert!(rt; comes_true(rt.alloc(), row)?, "row {place}");
    }
    Ok(())
}

// 1 gives 2 by a clause of two literals, at which nobody looks again once it is attached.
#[test]
fn two_literals_without_a_look(rt: HostRuntime) -> Result<(), Fail> {
    let (sampled, told) = take_all(rt.alloc(), &[FIRST, Step::One])?;
    assert!(rt; told == (true, 0));
    assert!(rt; sampled.trail.value(2) == TRUE);
    Ok(())
}
