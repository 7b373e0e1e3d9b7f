//! What growing, going back and detaching keep of the invariant between watches, clauses and trail.
ghost use Rattle.std.specs.Prelude.{◌≡◌, ◌≢◌, ◌≤◌, ◌<◌, ◌+◌, ◌↔◌, ℕ, List, Option, Some, IsSome, true, length, Contains};
ghost use Rattle.sat_words.specs.Literal.{Literal};
ghost use Rattle.sat_words.specs.Clause.{has};
ghost use Rattle.sat_words.specs.declared.shared.Cref.{Cref};
ghost use Rattle.ring_port.specs.PortState.{PortState, held_at, lits_at, clause_at};
ghost use Rattle.ring_trail.specs.declared.step.TrailStep.{TrailStep};
ghost use Rattle.ring_trail.specs.TrailData.{TrailData, IsTrail, reason_at, decided, assigned, cut_back};
ghost use Rattle.ring_trail.specs.Reasoned.{IsReasoned, IsSeen};
ghost use Rattle.ring_trail.specs.Closed.{IsClosed};
ghost use Rattle.watch_prop.specs.WatchData.{WatchData, Lits, attached, without, clauses_of};
ghost use Rattle.watch_prop.specs.Watched.{Watched};
ghost use Rattle.watch_prop.specs.Propagation.{attached_at, HasReasons, IsClosedBelow};
ghost use Rattle.watch_prop.specs.Aside.{but, only};

/// A literal at the present level keeps the watches.
pub fn an_assignment_keeps_watches()
    ensures { (w : WatchData) (lits : Lits) (t : TrailData) (l : Literal) (r : Option Cref) → IsTrail t → Watched w lits t → Watched w lits (assigned t l r) }
{}

/// A decision keeps the watches, once every literal is propagated.
pub fn a_decision_keeps_watches()
    ensures { (w : WatchData) (lits : Lits) (t : TrailData) (l : Literal) → t.done ≡ length t.steps → Watched w lits t → Watched w lits (decided t l) }
{}

/// Going back to a level keeps the watches.
pub fn going_back_keeps_watches()
    ensures { (w : WatchData) (lits : Lits) (t : TrailData) (k : ℕ) → IsTrail t → k ≤ t.level → Watched w lits t → Watched w lits (cut_back t k) }
{}

/// What else is held may change: the watches stay if each attached clause has its literals.
pub fn attached_clauses_keep_watches()
    ensures { (w : WatchData) (lits more : Lits) (t : TrailData) → ((c : Cref) → Contains (attached w) c → more c.address ≡ lits c.address) → Watched w lits t → Watched w more t }
{}

/// What is attached, held and seen may change: the reasons stay if each attached clause stays attached and held with its
/// literals, and each unit seen stays so.
pub fn attached_clauses_keep_reasons()
    ensures { (cs ds : List Cref) (s r : PortState) (steps : List TrailStep) → ((c : Cref) → Contains cs c → Contains ds c × (clause_at r c.address ≡ clause_at s c.address))
        → ((l : Literal) → has s.seen l ≡ true → has r.seen l ≡ true) → HasReasons cs s steps → HasReasons ds r steps }
{}

/// Reasons that are attached are held.
pub fn attached_reasons_are_held()
    ensures { (cs : List Cref) (s : PortState) (steps : List TrailStep) → HasReasons cs s steps → IsReasoned (clause_at s) s.seen steps }
{}

/// An attached clause that is held may be the reason of a literal that it forces.
pub fn attached_clauses_may_be_reasons()
    ensures { (cs : List Cref) (s : PortState) (c : Cref) → Contains cs c → IsSome (held_at s c.address) → attached_at cs s c.address ≡ Some (lits_at s c.address) }
{}

/// Once a clause is detached, those at other addresses are left.
pub fn detaching_leaves_the_others()
    ensures { (cs : List Cref) (a : ℕ) (c : Cref) → Contains (without cs a) c ↔ (Contains cs c × (c.address ≢ a)) }
{}

/// Detaching a clause keeps the reasons if it is none of them, or one at level 0 whose unit is seen.
pub fn detaching_keeps_reasons()
    ensures { (cs : List Cref) (s : PortState) (steps : List TrailStep) (a : ℕ) → ((p : ℕ) (c : Cref) → p < length steps → reason_at steps p ≡ Some c → c.address ≡ a → IsSeen s.seen steps p)
        → HasReasons cs s steps → HasReasons (without cs a) s steps }
{}

/// Detaching a clause leaves the others closed, at each level and below the present one.
pub fn detaching_keeps_closed()
    ensures at { (w x : WatchData) (lits : Lits) (steps : List TrailStep) (a k : ℕ) → attached x ≡ without (attached w) a → IsClosed (clauses_of w lits) steps k → IsClosed (clauses_of x lits) steps k }
    ensures below { (w x : WatchData) (lits : Lits) (t : TrailData) (a : ℕ) → attached x ≡ without (attached w) a → IsClosedBelow w lits t → IsClosedBelow x lits t }
{}

/// A clause is set aside by taking the watches without its own, over which the others are attached; and both parts make up
/// the whole.
pub fn clauses_may_be_set_aside()
    ensures others { (w : WatchData) (c : Cref) → attached (but (Some c) w) ≡ without (attached w) c.address }
    ensures parts { (w : WatchData) (lits : Lits) (t : TrailData) (c : Cref) → Watched w lits t → Watched (but (Some c) w) lits t × Watched (only c w) lits t }
    ensures whole { (w : WatchData) (lits : Lits) (t : TrailData) (c : Cref) → Watched (but (Some c) w) lits t → Watched (only c w) lits t → Watched w lits t }
{}
