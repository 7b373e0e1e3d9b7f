//! The lemma as it is learned: its literals, the level to backjump to, and its glue (Audemard and Simon 2009). The
//! asserting literal must stand first, and must count for neither level nor glue.
ghost use Rattle.std.specs.Prelude.{◌≡◌, ◌<◌, ◌≤◌, ◌+◌, ◌∷◌, false, All, length, map, nat_eq};
ghost use Rattle.std.specs.Set.{distinct_count};
ghost use Rattle.std.specs.Vec.{vec_capacity};
ghost use Rattle.ring_trail.specs.TrailData.{IsTrail, level_at, var_at};
ghost use Rattle.analyze.specs.Levels.{greatest};
ghost use Rattle.analyze.specs.Lemma.{negated_at};
ghost use Rattle.analyze.specs.MarksData.{all_blank};

use crate::marks::Marks;
use ring_trail::Trail;
use sat_words::Lit;

/// The negations of the trail's literals at these places, that of the point in front.
pub(crate) fn write_lemma(trail: &Trail, point: u32, kept_places: &[u32], lits: &mut Vec<Lit>)
    requires point { point < length trail.now.steps }
    requires in_range { All (λ p. p < length trail.now.steps) kept_places.now }
    requires room { length kept_places.now < vec_capacity lits.old }
    ensures lits { lits.new.items ≡ negated_at trail.now.steps point ∷ map (negated_at trail.now.steps) kept_places.now }
    ensures room { vec_capacity lits.new ≡ vec_capacity lits.old }
{
    lits.clear();
    lits.push_reserved(trail.lit_at(point).not());
    for place in kept_places {
        lits.push_reserved(trail.lit_at(*place).not());
    }
}

/// The variables of the trail's literals at these places.
pub(crate) fn write_analyzed(trail: &Trail, places: &[u32], analyzed: &mut Vec<u32>)
    requires in_range { All (λ p. p < length trail.now.steps) places.now }
    requires room { length places.now ≤ vec_capacity analyzed.old }
    ensures analyzed { analyzed.new.items ≡ map (var_at trail.now.steps) places.now }
    ensures room { vec_capacity analyzed.new ≡ vec_capacity analyzed.old }
{
    analyzed.clear();
    for place in places {
        analyzed.push_reserved(trail.lit_at(*place).var());
    }
}

/// The level to backjump to: the greatest of the places' levels, 0 if there are none.
pub(crate) fn backjump_level(trail: &Trail, kept_places: &[u32]) -> u32
    requires { All (λ p. p < length trail.now.steps) kept_places.now }
    ensures { result ≡ greatest (map (level_at trail.now.steps) kept_places.now) }
{
    let mut most: u32 = 0;
    for place in kept_places {
        most = most.max(trail.level_at(*place));
    }
    most
}

/// The glue: how many levels the places have. `found` has a place for each level, and is blank before and after.
pub(crate) fn glue_of(trail: &Trail, kept_places: &[u32], found: &mut Marks<bool>) -> u32
    requires shape { IsTrail trail.now }
    requires in_range { All (λ p. p < length trail.now.steps) kept_places.now }
    requires blank { found.old ≡ all_blank (trail.now.vars + 1) false }
    ensures count { result ≡ distinct_count nat_eq (map (level_at trail.now.steps) kept_places.now) }
    ensures blank { found.new ≡ found.old }
{
    for place in kept_places {
        let at = trail.level_at(*place);
        if !found.at(at) {
            found.mark(at, true);
        }
    }
    let count = found.touched().len() as u32;
    found.reset();
    count
}
