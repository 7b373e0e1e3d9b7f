// Whether the queue or the scores decide. They fail on different formulas, so they take turns, in stages that are counted in
// conflicts and grow (as the two modes of CaDiCaL and Kissat: Biere, Fazekas, Fleury and Heisinger 2020). Rings begin
// differently by their numbers, so that those beside each other search in different ways.
ghost use Rattle.std.specs.Prelude.{◌≡◌, ◌≤◌, ◌<◌, ◌%◌, ◌⊎◌, IsTrue, ◌↔◌, ◌*◌, false};
ghost use Rattle.ring_decide.specs.Turning.{HasTurned, IsInTurn};

/// Whose turn it is. Stage k lasts for 1000 k k conflicts, once for each of the two.
#[derive(Drop)]
pub(crate) struct Turns {
    /// Whether the scores decide, and not the queue.
    pub by_scores: bool,
    /// Whether the other one ever has its turn.
    pub changes: bool,
    /// The stage, from 1.
    pub stage: u16,
    /// Whether this is the second turn of the stage.
    pub second: bool,
    /// How many conflicts the turn still lasts.
    pub left: u64,
}

impl Turns {
    /// How a ring begins, by its number modulo 4: in turn from the queue on, in turn from the scores on, the scores alone, the
    /// queue alone.
    pub fn of_ring(ring: u32) -> Turns
        ensures scores { IsTrue result.by_scores ↔ ((ring % 4 ≡ 1) ⊎ (ring % 4 ≡ 2)) }
        ensures changes { IsTrue result.changes ↔ (ring % 4 < 2) }
        ensures first { (result.stage ≡ 1) × (result.second ≡ false) × (result.left ≡ 1000) }
    {
        let kind = ring % 4;
        Turns {
            by_scores: kind == 1 || kind == 2,
            changes: kind < 2,
            stage: 1,
            second: false,
            left: 1000,
        }
    }

    /// Counts a conflict: after the last one of a turn the next turn begins.
    pub fn count(&mut self)
        ensures stays { 1 < self.old.left → IsInTurn self.old self.new }
        ensures turned { self.old.left ≤ 1 → HasTurned self.old self.new }
    {
        if self.left > 1 {
            self.left -= 1;
            return;
        }
        if self.changes {
            self.by_scores = !self.by_scores;
        }
        if self.second {
            self.stage = self.stage.saturating_add(1);
        }
        self.second = !self.second;
        self.left = lasts(self.stage);
    }
}

/// How many conflicts a turn of a stage lasts.
fn lasts(stage: u16) -> u64
    ensures { result ≡ 1000 * (stage * stage) }
{
    let stage = stage as u64;
    1000 * (stage * stage)
}
