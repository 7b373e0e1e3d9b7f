//! Minimisation of the walk's clause (Sörensson and Biere 2009). A place of a lower level is removable if the others of its
//! reason are at level 0, marked, or removable too. The reasons are scanned depth first, with a stack in place of
//! recursion. What is found of a place may rest only on marks and on what was found of earlier places.
ghost use Rattle.std.specs.Prelude.{◌≡◌, ◌≤◌, ◌<◌, ◌⊎◌, ℕ, true, Some, All, length};
ghost use Rattle.std.specs.Vec.{vec_capacity};
ghost use Rattle.ring_port.specs.PortState.{clause_at};
ghost use Rattle.ring_trail.specs.TrailData.{IsTrail, level_at, reason_at};
ghost use Rattle.ring_trail.specs.Reasoned.{IsReasoned};
ghost use Rattle.analyze.specs.MarksData.{all_blank};
ghost use Rattle.analyze.specs.Marks.{marked, IsMarking};
ghost use Rattle.analyze.specs.Scanning.{CanScan};
ghost use Rattle.analyze.specs.Minimising.{CanLook, IsLook, IsScan, IsJudged, is_kept, is_known, kept_of, removability_at};

use crate::marks::Marks;
use ring_port::Port;
use ring_trail::Trail;
use sat_words::{Cref, Lit};

/// What minimisation has found of a place.
#[derive(Clone, Copy, PartialEq, Eq)]
pub(crate) enum Removability {
    /// Nothing yet.
    Unknown,
    /// It has a reason, whose other literals are settled.
    Removable,
    /// It has no reason, or its reason has another literal that isn't settled.
    Needed,
}

/// A place whose reason is being scanned, and the index of the literal that is next.
#[derive(Clone, Copy)]
pub(crate) struct Frame {
    pub(crate) place: u32,
    pub(crate) next: u32,
}

/// The buffers of minimisation: what was found of each place, and the scans that wait for an earlier place.
#[derive(Drop)]
pub(crate) struct Minimisation {
    pub(crate) table: Marks<Removability>,
    pub(crate) waiting: Vec<Frame>,
}

/// What a literal of a reason says of the place that the reason forced.
#[derive(Clone, Copy)]
enum Look {
    /// It is that place's own, at level 0, left by the walk, or removable.
    Settled,
    /// It is none of these, so the place is needed.
    Blocked,
    /// This earlier place must be judged first.
    Depends(u32),
}

/// How far the scan of a place's reason came.
#[derive(Clone, Copy)]
enum Scan {
    /// To its end.
    Found(Removability),
    /// To the literal with the index `next`, whose place is an earlier one that must be judged first.
    Waits { place: u32, next: u32 },
}

/// What a literal of the reason of the place `bound` says of that place.
fn look_at(trail: &Trail, lit: Lit, bound: u32, marks: &[bool], table: &[Removability]) -> Look
    requires shape { IsTrail trail.now }
    requires can { CanLook trail.now.steps bound lit }
    requires marks { length marks.now ≡ trail.now.vars }
    requires table { length table.now ≡ trail.now.vars }
    ensures { IsLook trail.now.steps marks.now table.now bound lit result }
{
    let Some(place) = trail.place(lit.var()) else {
        // `can`: the literal is the one at the bound, or is false before it
        unreachable!();
    };
    if place >= bound || marks[place as usize] || trail.level_at(place) == 0 {
        return Look::Settled;
    }
    match table[place as usize] {
        Removability::Unknown => Look::Depends(place),
        Removability::Removable => Look::Settled,
        Removability::Needed => Look::Blocked,
    }
}

/// Scans the reason of the frame's place on from its next literal.
fn scan_reason<P: Port>(
    port: &mut P,
    trail: &Trail,
    reason: Cref,
    frame: Frame,
    marks: &[bool],
    table: &[Removability],
) -> Scan
    requires can { CanScan (P.state port.old) trail.now marks.now table.now frame }
    requires reason { reason_at trail.now.steps frame.place ≡ Some reason }
    ensures same { P.state port.new ≡ P.state port.old }
    ensures scan { IsScan (clause_at (P.state port.old)) trail.now.steps marks.now table.now frame.place result }
{
    let size = port.head(reason).size;
    for i in frame.next..size {
        let lit = port.read_lit(reason, i);
        match look_at(trail, lit, frame.place, marks, table) {
            Look::Settled => {}
            Look::Blocked => return Scan::Found(Removability::Needed),
            Look::Depends(place) => return Scan::Waits { place, next: i },
        }
    }
    Scan::Found(Removability::Removable)
}

/// Scans on what forced the frame's place.
fn scan_place<P: Port>(
    port: &mut P,
    trail: &Trail,
    frame: Frame,
    marks: &[bool],
    table: &[Removability],
) -> Scan
    requires can { CanScan (P.state port.old) trail.now marks.now table.now frame }
    ensures same { P.state port.new ≡ P.state port.old }
    ensures scan { IsScan (clause_at (P.state port.old)) trail.now.steps marks.now table.now frame.place result }
{
    match trail.reason_at(frame.place) {
        None => Scan::Found(Removability::Needed),
        Some(reason) => scan_reason(port, trail, reason, frame, marks, table),
    }
}

/// Judges a place, and first the places without marks that it depends on. Each scan that waits does so for an earlier place,
/// so the places of the waiting scans fall strictly.
fn judge<P: Port>(
    port: &mut P,
    trail: &Trail,
    root: u32,
    marks: &[bool],
    minimisation: &mut Minimisation,
)
    requires shape { IsTrail trail.now }
    requires reasoned { IsReasoned (clause_at (P.state port.old)) (P.state port.old).seen trail.now.steps }
    requires marks { length marks.now ≡ trail.now.vars }
    requires in_range { root < length trail.now.steps }
    requires above { 1 ≤ level_at trail.now.steps root }
    requires open { removability_at minimisation.old.table.values root ≡ Removability.Unknown }
    requires judged { IsJudged (clause_at (P.state port.old)) trail.now.steps trail.now.vars marks.now minimisation.old.table }
    requires waiting_room { trail.now.vars ≤ vec_capacity minimisation.old.waiting }
    ensures same { P.state port.new ≡ P.state port.old }
    ensures judged { IsJudged (clause_at (P.state port.old)) trail.now.steps trail.now.vars marks.now minimisation.new.table }
    ensures found { is_known minimisation.new.table.values root ≡ true }
    ensures kept { (p : ℕ) → is_known minimisation.old.table.values p ≡ true → is_known minimisation.new.table.values p ≡ true }
    ensures others { (p : ℕ) → marked marks.now p ≡ true → is_known minimisation.new.table.values p ≡ true → (p ≡ root) ⊎ (is_known minimisation.old.table.values p ≡ true) }
    ensures waiting_room { vec_capacity minimisation.new.waiting ≡ vec_capacity minimisation.old.waiting }
{
    minimisation.waiting.clear();
    let mut frame = Frame {
        place: root,
        next: 0,
    };
    'frames: loop {
        match scan_place(port, trail, frame, marks, minimisation.table.values()) {
            Scan::Waits { place, next } => {
                minimisation.waiting.push_reserved(Frame {
                    place: frame.place,
                    next,
                });
                frame = Frame { place, next: 0 };
            }
            Scan::Found(removability) => {
                minimisation.table.mark(frame.place, removability);
                let Some(parent) = minimisation.waiting.pop() else {
                    return;
                };
                frame = parent;
            }
        }
    }
}

/// Judges the marked places of lower levels.
pub(crate) fn judge_all<P: Port>(
    port: &mut P,
    trail: &Trail,
    level: u32,
    marks: &Marks<bool>,
    minimisation: &mut Minimisation,
)
    requires shape { IsTrail trail.now }
    requires reasoned { IsReasoned (clause_at (P.state port.old)) (P.state port.old).seen trail.now.steps }
    requires marking { IsMarking trail.now.steps trail.now.vars level marks.now }
    requires blank { minimisation.old.table ≡ all_blank trail.now.vars Removability.Unknown }
    requires waiting_room { trail.now.vars ≤ vec_capacity minimisation.old.waiting }
    ensures same { P.state port.new ≡ P.state port.old }
    ensures judged { IsJudged (clause_at (P.state port.old)) trail.now.steps trail.now.vars marks.now.values minimisation.new.table }
    ensures found { (p : ℕ) → marked marks.now.values p ≡ true → level_at trail.now.steps p < level → is_known minimisation.new.table.values p ≡ true }
    ensures waiting_room { vec_capacity minimisation.new.waiting ≡ vec_capacity minimisation.old.waiting }
{
    for place in marks.touched() {
        if trail.level_at(*place) < level {
            judge(port, trail, *place, marks.values(), minimisation);
        }
    }
}

/// Whether the place is of a lower level and isn't removable.
fn is_kept(trail: &Trail, level: u32, table: &[Removability], place: u32) -> bool
    requires place { place < length trail.now.steps }
    requires size { length trail.now.steps ≤ length table.now }
    ensures { result ≡ is_kept trail.now.steps level table.now place }
{
    trail.level_at(place) < level && table[place as usize] != Removability::Removable
}

/// Writes the places of lower levels that aren't removable, in their order.
pub(crate) fn write_kept_places(
    trail: &Trail,
    level: u32,
    touched: &[u32],
    table: &[Removability],
    kept_places: &mut Vec<u32>,
)
    requires in_range { All (λ p. p < length trail.now.steps) touched.now }
    requires size { length trail.now.steps ≤ length table.now }
    requires room { length touched.now ≤ vec_capacity kept_places.old }
    ensures kept { kept_places.new.items ≡ kept_of trail.now.steps level table.now touched.now }
    ensures room { vec_capacity kept_places.new ≡ vec_capacity kept_places.old }
{
    kept_places.clear();
    for place in touched {
        if is_kept(trail, level, table, *place) {
            kept_places.push_reserved(*place);
        }
    }
}
