//! What a sound state says of the clauses that rings hold, build and are to delete, and of those in cells.
ghost use Rattle.std.specs.Prelude.{◌≡◌, ◌≢◌, ℕ, ◌+◌, ◌*◌, ◌<◌, ◌≤◌, List, ◌++◌, true, false, Contains, Some};
ghost use Rattle.sat_words.specs.Literal.{Literal};
ghost use Rattle.sat_words.specs.Clause.{two_or_more};
ghost use Rattle.rup_model.specs.Hints.{numbered, hinted};
ghost use Rattle.rup_model.specs.Rup.{rup};
ghost use Rattle.rup_model.specs.Log.{alive};
ghost use Rattle.rup_model.specs.declared.journal.TheConstants.{RULER_RING};
ghost use Rattle.rup_model.specs.declared.journal.Addition.{Addition};
ghost use Rattle.rup_model.specs.declared.journal.Entry.{Entry};
ghost use Rattle.rup_model.specs.Journal.{book, lines, additions};
ghost use Rattle.rup_model.specs.Opening.{IsLong};
ghost use Rattle.share_core.specs.declared.event.TheConstants.{MAX_SHARES};
ghost use Rattle.share_core.specs.declared.stored.ClauseAt.{ClauseAt};
ghost use Rattle.share_core.specs.declared.stored.Cell.{Cell};
ghost use Rattle.share_core.specs.State.{times_at, State, count_at, clause_at, slots};
ghost use Rattle.share_core.specs.Learning.{known, follows};
ghost use Rattle.share_core.specs.Sound.{Sound};
ghost use Rattle.share_core.specs.Readable.{deleted, IsInCell, IsOpenCell};

/// What a ring holds at an address is the clause of an open cell with a count above 0, and is alive in the log under
/// its number.
pub fn what_a_ring_holds()
    ensures address { (c : State) (r a : ℕ) → 0 < times_at a (c.part r).held → (h : ClauseAt) × Contains (c.part r).held h × (h.address ≡ a) }
    ensures clause { (c : State) (r : ℕ) (h : ClauseAt) → Sound c → r < c.opening.rings → Contains (c.part r).held h → h ≡ clause_at c h.address }
    ensures cell { (c : State) (r : ℕ) (h : ClauseAt) → Sound c → r < c.opening.rings → Contains (c.part r).held h
        → (x : Cell) × IsOpenCell c h.address x × (0 < x.count) }
    ensures alive { (c : State) (r : ℕ) (h : ClauseAt) → Sound c → r < c.opening.rings → Contains (c.part r).held h
        → (book c.opening.formula c.journal).clause h.number ≡ Some h.lits }
    ensures long { (c : State) (r : ℕ) (h : ClauseAt) → Sound c → r < c.opening.rings → Contains (c.part r).held h → IsLong h.lits }
{}

/// What a ring builds at an address is the clause of a cell with count 0 that it builds, and is alive in the log under
/// its number.
pub fn what_a_ring_builds()
    ensures address { (c : State) (r a : ℕ) → 0 < times_at a (c.part r).making → (h : ClauseAt) × Contains (c.part r).making h × (h.address ≡ a) }
    ensures clause { (c : State) (r : ℕ) (h : ClauseAt) → Sound c → r < c.opening.rings → Contains (c.part r).making h → h ≡ clause_at c h.address }
    ensures cell { (c : State) (r : ℕ) (h : ClauseAt) → Sound c → r < c.opening.rings → Contains (c.part r).making h
        → (x : Cell) × (c.cell h.address ≡ Some x) × (x.maker ≡ Some r) × (x.count ≡ 0) }
    ensures alive { (c : State) (r : ℕ) (h : ClauseAt) → Sound c → r < c.opening.rings → Contains (c.part r).making h
        → (book c.opening.formula c.journal).clause h.number ≡ Some h.lits }
{}

/// What waits at a ring is the clause of an open cell with count 0, and is alive in the log under its number.
pub fn what_waits()
    ensures address { (c : State) (r a : ℕ) → 0 < times_at a (c.part r).waiting → (h : ClauseAt) × Contains (c.part r).waiting h × (h.address ≡ a) }
    ensures clause { (c : State) (r : ℕ) (h : ClauseAt) → Sound c → r < c.opening.rings → Contains (c.part r).waiting h → h ≡ clause_at c h.address }
    ensures cell { (c : State) (r : ℕ) (h : ClauseAt) → Sound c → r < c.opening.rings → Contains (c.part r).waiting h
        → (x : Cell) × IsOpenCell c h.address x × (x.count ≡ 0) }
    ensures alive { (c : State) (r : ℕ) (h : ClauseAt) → Sound c → r < c.opening.rings → Contains (c.part r).waiting h
        → (book c.opening.formula c.journal).clause h.number ≡ Some h.lits }
{}

/// An address in a slot is that of an open cell with a count above 0.
pub fn slots_have_open_cells()
    ensures { (c : State) (s : ℕ) → Sound c → s < slots c.opening → c.slot s ≢ 0 → (x : Cell) × IsOpenCell c (c.slot s) x × (0 < x.count) }
{}

/// No count is above one for each ring and one for each share that rings may make.
pub fn counts_are_bounded()
    ensures { (c : State) (a : ℕ) → Sound c → count_at (c.cell a) ≤ RULER_RING * (MAX_SHARES + 1) }
{}

/// The numbers of cells and of start clauses are below the number of the next addition.
pub fn numbers_are_below_the_next()
    ensures cells { (c : State) (a : ℕ) (x : Cell) → Sound c → c.cell a ≡ Some x → x.number < (book c.opening.formula c.journal).next }
    ensures starts { (c : State) (s : ClauseAt) → Sound c → Contains c.opening.starts s → s.number < (book c.opening.formula c.journal).next }
{}

/// A clause that follows from what a ring knows is RUP over what the log leaves alive; in a log with hints they show that it
/// follows from that, too. Each number that a ring knows names its clause.
pub fn what_follows_is_valid()
    ensures valid { (c : State) (r : ℕ) (lits : List Literal) (hints : List ℕ) → Sound c → r < c.opening.rings → follows c.opening.hinted (c.part r) lits hints ≡ true
        → rup (alive c.opening.formula (lines c.opening.formula c.journal)) lits ≡ true }
    ensures hints { (c : State) (r : ℕ) (lits : List Literal) (hints : List ℕ) → Sound c → r < c.opening.rings → c.opening.hinted ≡ true
        → follows c.opening.hinted (c.part r) lits hints ≡ true → hinted (book c.opening.formula c.journal).clause lits hints ≡ true }
    ensures named { (c : State) (r n : ℕ) (lits : List Literal) → Sound c → r < c.opening.rings → numbered (known (c.part r)) n ≡ Some lits
        → (book c.opening.formula c.journal).clause n ≡ Some lits }
{}

/// Each start clause, and each addition of two literals or more after the opening's journal, is the clause of a cell,
/// unless a deletion names it.
pub fn cells_hold_the_clauses()
    ensures starts { (c : State) (s : ClauseAt) → Sound c → Contains c.opening.starts s → deleted c.journal s.number ≡ false → IsInCell c s.number s.lits }
    ensures additions { (c : State) (K : List Entry) (x : Addition) → Sound c → c.journal ≡ c.opening.journal ++ K → Contains (additions K) x
        → two_or_more x.lits ≡ true → deleted c.journal x.number ≡ false → IsInCell c x.number x.lits }
{}
