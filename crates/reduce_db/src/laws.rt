//! How a ring's lemmas change; the calls compute nothing.
ghost use Rattle.std.specs.Prelude.{◌≡◌, ◌≢◌, ◌++◌, ◌∷◌, [], ℕ, List, All, Contains};
ghost use Rattle.sat_words.specs.Literal.{Literal};
ghost use Rattle.sat_words.specs.declared.shared.Cref.{Cref};
ghost use Rattle.rup_model.specs.declared.journal.Kind.{Kind};
ghost use Rattle.ring_port.specs.PortState.{PortState, IsPort, held_at};
ghost use Rattle.ring_port.specs.Port.{AddedClause, KeepsHeld};
ghost use Rattle.ring_port.specs.Deleting.{IsNotTaken};
ghost use Rattle.watch_prop.specs.WatchData.{without};
ghost use Rattle.reduce_db.specs.Lemmas.{AreDistinct, AreLemmas};

/// There may be no lemmas; one that was added and attached joins the others; one that is detached is none any more; and else
/// port and watches may change if each lemma stays attached and held and none is taken.
pub fn lemmas_come_and_go()
    ensures none { (s : PortState) (cs : List Cref) → AreLemmas s cs [] }
    ensures joins { (old new : PortState) (cs lemmas : List Cref) (lits : List Literal) (glue : ℕ) (kind : Kind) (c : Cref) → IsPort old → AddedClause old new lits glue kind c → KeepsHeld old new
        → AreLemmas old cs lemmas → AreLemmas new (cs ++ c ∷ []) (lemmas ++ c ∷ []) }
    ensures leaves { (s : PortState) (cs front back : List Cref) (c : Cref) → AreLemmas s cs (front ++ c ∷ back) → AreLemmas s (without cs c.address) (front ++ back) }
    ensures apart { (s : PortState) (cs front back : List Cref) (c : Cref) → AreLemmas s cs (front ++ c ∷ back) → All (λ (d : Cref). d.address ≢ c.address) (front ++ back) }
    ensures stay { (old new : PortState) (cs ds lemmas : List Cref) → ((c : Cref) → Contains lemmas c → Contains ds c × (held_at new c.address ≡ held_at old c.address) × IsNotTaken new c.address)
        → AreLemmas old cs lemmas → AreLemmas new ds lemmas }
{}
