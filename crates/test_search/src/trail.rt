// `ring_trail`: what a trail answers while literals become true and are taken back.
use ring_trail::Trail;
use sat_words::{Cref, Lit};
use std::test::Fail;

// Decides 1, forces 2, decides 4 and goes back: what each look-up says on the way.
#[test]
fn values_levels_and_reasons(rt: HostRuntime) -> Result<(), Fail> {
    let mut trail = Trail::new(rt.alloc(), 5)?;
    let reason = Cref { address: 7 };
    let not_two = Lit::new(2, true);
    let not_four = Lit::new(4, true);
    trail.decide(Lit::new(1, false));
    trail.assign(not_two, Some(reason));
    trail.decide(not_four.not());
    let sizes = [trail.decision_level(), trail.len(), trail.start(2)];
    let values = [trail.value(1), trail.value(2), trail.value(3)];
    let truths = [trail.truth(not_two), trail.truth(not_four)];
    let tests = [trail.is_true(not_two), trail.is_false(not_four)];
    let places = [trail.level(2), trail.level(5), trail.place(4)];
    let reasons = [trail.reason(2), trail.reason(1)];
    assert!(rt; sizes == [2, 3, 2]);
    assert!(rt; values == [Some(true), Some(false), None]);
    assert!(rt; truths == [Some(true), Some(false)]);
    assert!(rt; tests == [true, true]);
    assert!(rt; places == [Some(1), None, Some(2)]);
    assert!(rt; reasons == [Some(reason), None]);
    Ok(())
}

// Two of three literals are propagated, then the second level is taken back: one level, two literals and both of the
// propagated ones are left.
#[test]
fn goes_back(rt: HostRuntime) -> Result<(), Fail> {
    let mut trail = Trail::new(rt.alloc(), 5)?;
    let one = Lit::new(1, false);
    trail.decide(one);
    trail.assign(Lit::new(2, true), None);
    trail.decide(Lit::new(4, false));
    let first = trail.next();
    trail.advance_head();
    trail.advance_head();
    trail.advance_head();
    let last = trail.next();
    trail.back_to(1);
    let sizes = [trail.decision_level(), trail.len(), trail.propagated()];
    let values = [trail.value(4), trail.value(2)];
    assert!(rt; [first, last] == [Some(one), None]);
    assert!(rt; sizes == [1, 2, 2]);
    assert!(rt; values == [None, Some(false)]);
    assert!(rt; !trail.is_empty());
    Ok(())
}
