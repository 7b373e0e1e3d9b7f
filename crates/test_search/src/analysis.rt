// `analyze`: the lemma of a conflict over the small port, by each of the two clauses that oppose each other.
ghost use Rattle.std.specs.Prelude.{◌≡◌, IfOk};
ghost use Rattle.test_search.specs.Sampled.{sample_steps};

use analyze::{Analysis, Conclusion};
use ring_trail::Trail;
use sat_words::{Cref, Lit};
use std::alloc::{AllocError, Global};
use std::test::Fail;
use test_ports::SamplePort;

/// Decides 1, which gives 2, and then 4, which gives 5 or its negation by the clause at an address.
fn trail_to_conflict(alloc: Global, neg: bool, address: u64) -> Result<Trail, AllocError>
    ensures steps { IfOk result (λ t. t.steps ≡ sample_steps neg address) }
    ensures vars { IfOk result (λ t. t.vars ≡ 5) }
{
    let mut trail = Trail::new(alloc, 5)?;
    trail.decide(Lit::new(1, false));
    trail.assign(Lit::new(2, false), Some(Cref { address: 1 }));
    trail.decide(Lit::new(4, false));
    trail.assign(Lit::new(5, neg), Some(Cref { address }));
    Ok(trail)
}

/// Whether this was learned: the walk leaves -4, -2 and -1, and the first clause lets -2 go. The lemma goes back to level 1, and
/// has one level beside its own.
fn is_learned(conclusion: Conclusion, lits: &[Lit]) -> bool {
    let wanted = [Lit::new(4, true), Lit::new(1, true)];
    conclusion == Conclusion::Lemma { back: 1, glue: 1 } && lits == wanted.as_slice()
}

// 4 gives 5 by the second clause, and makes the third one false.
#[test]
fn learns_from_the_third_clause(rt: HostRuntime) -> Result<(), Fail> {
    let trail = trail_to_conflict(rt.alloc(), false, 2)?;
    let mut analysis = Analysis::new(rt.alloc(), 5)?;
    let mut port = SamplePort {
        stage: 0,
        drawn: false,
        loads: 0,
    };
    let conclusion = analysis.analyze(&mut port, &trail, Cref { address: 3 });
    assert!(rt; is_learned(conclusion, analysis.lits()));
    // 2 by the first clause, though it is not in the lemma, and then 5 by the second one
    assert!(rt; analysis.hints() == [1, 2, 3].as_slice());
    Ok(())
}

// 4 gives -5 by the third clause, and makes the second one false.
#[test]
fn learns_from_the_second_clause(rt: HostRuntime) -> Result<(), Fail> {
    let trail = trail_to_conflict(rt.alloc(), true, 3)?;
    let mut analysis = Analysis::new(rt.alloc(), 5)?;
    let mut port = SamplePort {
        stage: 0,
        drawn: false,
        loads: 0,
    };
    let conclusion = analysis.analyze(&mut port, &trail, Cref { address: 2 });
    assert!(rt; is_learned(conclusion, analysis.lits()));
    assert!(rt; analysis.hints() == [1, 3, 2].as_slice());
    Ok(())
}
