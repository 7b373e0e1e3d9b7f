//! What every list of enabled events keeps.
ghost use Rattle.std.specs.Prelude.{◌≡◌, ◌<◌, ◌≤◌, ℕ, true, List, ◌++◌, map, length, fold, All};
ghost use Rattle.rup_model.specs.declared.journal.Entry.{Entry};
ghost use Rattle.rup_model.specs.Basics.{EachAfter};
ghost use Rattle.rup_model.specs.Journal.{ring_of, recent};
ghost use Rattle.rup_model.specs.NumberedLines.{IsHinted, AreHinted};
ghost use Rattle.share_core.specs.declared.event.Event.{Event};
ghost use Rattle.share_core.specs.State.{later, Placed, CoreOpening, IsCoreOpening, State, opened};
ghost use Rattle.share_core.specs.Enabled.{IsEnabled, AllEnabled};
ghost use Rattle.share_core.specs.Events.{after};
ghost use Rattle.share_core.specs.Left.{Left};
ghost use Rattle.share_core.specs.Sound.{Sound};
ghost use Rattle.share_core.specs.Readable.{Plain};

/// Every list of enabled events from an opening leaves a sound state, and so does each front of it: the state is sound
/// after each event.
pub fn events_keep_sound()
    ensures fronts { (o : CoreOpening) → IsCoreOpening o → (es fs : List Event) → AllEnabled (opened o) (es ++ fs) → Sound (fold after (opened o) es) }
    ensures whole { (o : CoreOpening) → IsCoreOpening o → (es : List Event) → AllEnabled (opened o) es → Sound (fold after (opened o) es) }
{}

/// An opening is a sound state.
pub fn openings_are_sound()
    ensures { (o : CoreOpening) → IsCoreOpening o → Sound (opened o) }
{}

/// An enabled event leaves a sound state sound.
pub fn enabled_events_keep_sound()
    ensures { (c : State) (e : Event) → Sound c → IsEnabled c e → Sound (after c e) }
{}

/// Events only add to the journal, and never change what the core was opened with.
pub fn journals_grow()
    ensures journal { (c : State) (es : List Event) → (added : List Entry) × ((fold after c es).journal ≡ c.journal ++ added) }
    ensures opening { (c : State) (es : List Event) → (fold after c es).opening ≡ c.opening }
{}

/// The journal begins with the opening's, after which all entries are those of the rings.
pub fn entries_are_of_rings()
    ensures longer { (c : State) → Sound c → length c.opening.journal ≤ length c.journal }
    ensures rings { (c : State) → Sound c → (added : List Entry) × (c.journal ≡ c.opening.journal ++ added) × All (λ e. ring_of e < c.opening.rings) added }
{}

/// In a log with hints, those of each addition after the opening's journal show that it follows from what is alive before it;
/// so do those of the whole journal, if those of the opening's do.
pub fn additions_are_hinted()
    ensures later { (c : State) → Sound c → c.opening.hinted ≡ true
        → (added : List Entry) × (c.journal ≡ c.opening.journal ++ added) × EachAfter (IsHinted c.opening.formula) c.opening.journal added }
    ensures whole { (c : State) → Sound c → c.opening.hinted ≡ true → AreHinted c.opening.formula c.opening.journal → AreHinted c.opening.formula c.journal }
{}

/// What a ring learned since it last reduced is told by its own entries.
pub fn recent_by_own_entries()
    ensures { (c : State) (r : ℕ) → Sound c → r < c.opening.rings → recent r (later c.opening c.journal) ≡ recent r (map (λ (p : Placed). p.entry) (c.part r).wrote) }
{}

/// What a sound state says in plain words.
pub fn sound_is_plain()
    ensures { (c : State) → Sound c → Plain c }
{}

/// What enabled events leave: the opening, if there is none; what one more or a list more makes of it. It is sound,
/// and was opened with what the opening says.
pub fn events_leave_states()
    ensures none { (o : CoreOpening) → IsCoreOpening o → Left o (opened o) }
    ensures one { (o : CoreOpening) (c : State) (e : Event) → Left o c → IsEnabled c e → Left o (after c e) }
    ensures more { (o : CoreOpening) (c : State) (es : List Event) → Left o c → AllEnabled c es → Left o (fold after c es) }
    ensures sound { (o : CoreOpening) (c : State) → Left o c → Sound c }
    ensures opening { (o : CoreOpening) (c : State) → Left o c → c.opening ≡ o }
{}

/// A list of events is enabled exactly if its front is, and its rest in the state that the front leaves.
pub fn enabled_lists_join()
    ensures front { (c : State) (es fs : List Event) → AllEnabled c (es ++ fs) → AllEnabled c es }
    ensures rest { (c : State) (es fs : List Event) → AllEnabled c (es ++ fs) → AllEnabled (fold after c es) fs }
    ensures join { (c : State) (es fs : List Event) → AllEnabled c es → AllEnabled (fold after c es) fs → AllEnabled c (es ++ fs) }
{}
