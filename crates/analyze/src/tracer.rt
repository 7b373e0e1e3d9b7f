//! Hints for a line: the numbers of clauses that show one after another, by unit propagation, that the line follows. From the
//! clause that is false the tracer goes back along the trail, from each place to the others of its reason. It stops at the places
//! that the line's negation gives. The places that it noted, in the order of the trail, are the order of the hints: each clause
//! must have just one literal that isn't false yet.
ghost use Rattle.std.specs.Prelude.{◌≡◌, ◌⊎◌, ◌<◌, ◌≤◌, ◌+◌, ◌∷◌, [], ℕ, Bool, true, List, IsSome, Contains, MatchOption, Some, length};
ghost use Rattle.std.specs.List.Sorted.{IsNonDecreasing};
ghost use Rattle.std.specs.Vec.{vec_capacity};
ghost use Rattle.sat_words.specs.Literal.{Literal, opposite};
ghost use Rattle.sat_words.specs.Clause.{has};
ghost use Rattle.rup_model.specs.Hints.{numbered, hinted, hinted_from};
ghost use Rattle.ring_port.specs.Port.{AreHints};
ghost use Rattle.ring_port.specs.PortState.{held_at, lits_at, clause_at, known_at};
ghost use Rattle.ring_trail.specs.TrailData.{IsTrail, IsFalseOn, level_at, lit_at};
ghost use Rattle.ring_trail.specs.Reasoned.{IsReasoned, WasUnit};
ghost use Rattle.analyze.specs.MarksData.{all_blank};
ghost use Rattle.analyze.specs.Tracing.{CanTraceClause, CanTraceLiteral};
ghost use Rattle.analyze.specs.HintOrder.{IsToldAt, IsCause, AreInTrailOrder};
ghost use Rattle.analyze.specs.Noting.{source_lits, IsSource, IsBacked, note_at, is_found_note, IsNoting, HasNoted, IsStarted, HasNotedAll, IsClosedAt, AreUsed, IsStartSet, CanTrace};

use crate::marks::Marks;
use ring_port::Port;
use ring_trail::Trail;
use sat_words::{Cref, Lit};

/// What the tracer has found of a place.
#[derive(Clone, Copy)]
pub(crate) enum Note {
    /// Nothing.
    Free,
    /// Its literal is the negation of one of the line.
    Given,
    /// Its literal has to be derived.
    Noted,
}

/// A clause that hints name.
#[derive(Clone, Copy)]
pub(crate) enum Source {
    /// A unit that the port knows, and its number.
    Told { lit: Lit, number: u64 },
    /// A clause that is held.
    Clause(Cref),
}

/// The buffers of the tracer: what it found of each place, and the hints found last.
#[derive(Drop)]
pub(crate) struct Tracer {
    pub(crate) table: Marks<Note>,
    pub(crate) hints: Vec<u64>,
}

/// The place that makes the literal false.
fn place_against(trail: &Trail, lit: Lit) -> Option<u32>
    ensures place { MatchOption result (IsFalseOn trail.now.steps lit → ⊥)
        (λ p. (p < length trail.now.steps) × (lit_at trail.now.steps p ≡ opposite lit)) }
{
    if lit.var() > trail.vars() {
        return None;
    }
    let place = trail.place(lit.var())?;
    if trail.lit_at(place) == lit.not() {
        Some(place)
    } else {
        None
    }
}

/// Gives this note to the place that makes the literal false, if it has none yet.
fn note_lit(trail: &Trail, lit: Lit, note: Note, table: &mut Marks<Note>)
    requires shape { IsTrail trail.now }
    requires note { is_found_note note ≡ true }
    requires noting { IsNoting trail.now.steps trail.now.vars table.old }
    ensures noting { IsNoting trail.now.steps trail.now.vars table.new }
    ensures noted { HasNoted trail.now.steps note table.old table.new (lit ∷ []) }
{
    if let Some(place) = place_against(trail, lit) {
        if let Note::Free = table.at(place) {
            table.mark(place, note);
        }
    }
}

/// Marks the places that make literals of the line false.
fn mark_given(trail: &Trail, line: &[Lit], table: &mut Marks<Note>)
    requires shape { IsTrail trail.now }
    requires noting { IsNoting trail.now.steps trail.now.vars table.old }
    ensures noting { IsNoting trail.now.steps trail.now.vars table.new }
    ensures given { HasNoted trail.now.steps Note.Given table.old table.new line.now }
{
    for lit in line {
        note_lit(trail, *lit, Note::Given, table);
    }
}

/// Notes the places that make literals of the clause false.
fn note_clause<P: Port>(port: &mut P, trail: &Trail, c: Cref, table: &mut Marks<Note>)
    requires held { IsSome (held_at (P.state port.old) c.address) }
    requires shape { IsTrail trail.now }
    requires noting { IsNoting trail.now.steps trail.now.vars table.old }
    ensures same { P.state port.new ≡ P.state port.old }
    ensures noting { IsNoting trail.now.steps trail.now.vars table.new }
    ensures noted { HasNoted trail.now.steps Note.Noted table.old table.new (lits_at (P.state port.old) c.address) }
{
    let size = port.head(c).size;
    for i in 0..size {
        let lit = port.read_lit(c, i);
        note_lit(trail, lit, Note::Noted, table);
    }
}

/// Notes the places that make literals of the source false.
fn note_source<P: Port>(port: &mut P, trail: &Trail, source: Source, table: &mut Marks<Note>)
    requires source { IsSource (P.state port.old) source }
    requires shape { IsTrail trail.now }
    requires noting { IsNoting trail.now.steps trail.now.vars table.old }
    ensures same { P.state port.new ≡ P.state port.old }
    ensures noting { IsNoting trail.now.steps trail.now.vars table.new }
    ensures noted { HasNoted trail.now.steps Note.Noted table.old table.new (source_lits (P.state port.old) source) }
{
    match source {
        Source::Told { lit, .. } => note_lit(trail, lit, Note::Noted, table),
        Source::Clause(c) => note_clause(port, trail, c, table),
    }
}

/// The number of the unit at a place of level 0, if the port knows one.
fn told_number<P: Port>(port: &P, trail: &Trail, place: u32) -> Option<u64>
    requires hinted { (P.state port.now).hinted ≡ true }
    requires in_range { place < length trail.now.steps }
    ensures told { MatchOption result (IsToldAt (P.state port.now) trail.now.steps place → ⊥)
        (λ n. (level_at trail.now.steps place ≡ 0) × Contains (P.state port.now).told (lit_at trail.now.steps place, n)) }
{
    if trail.level_at(place) != 0 {
        return None;
    }
    port.unit_number(trail.lit_at(place))
}

/// The clause that shows why the literal at the place is true: its unit if that is told, else its reason.
fn source_of<P: Port>(port: &P, trail: &Trail, place: u32) -> Source
    requires hinted { (P.state port.now).hinted ≡ true }
    requires reasoned { IsReasoned (clause_at (P.state port.now)) (P.state port.now).seen trail.now.steps }
    requires in_range { place < length trail.now.steps }
    requires backed { IsBacked trail.now.steps place }
    ensures source { IsSource (P.state port.now) result }
    ensures cause { IsCause (P.state port.now) trail.now.steps place (source_lits (P.state port.now) result) }
    ensures unit { WasUnit trail.now.steps place (source_lits (P.state port.now) result) }
{
    let _hinted = port.has_hints();
    if let Some(number) = told_number(port, trail, place) {
        let lit = trail.lit_at(place);
        return Source::Told { lit, number };
    }
    let Some(reason) = trail.reason_at(place) else {
        // `backed`: it is at level 0, and a unit that was seen there has a number
        unreachable!();
    };
    Source::Clause(reason)
}

/// The number of the source's clause.
fn number_of<P: Port>(port: &mut P, source: Source) -> u64
    requires hinted { (P.state port.old).hinted ≡ true }
    requires source { IsSource (P.state port.old) source }
    ensures same { P.state port.new ≡ P.state port.old }
    ensures names { numbered (known_at (P.state port.old)) result ≡ Some (source_lits (P.state port.old) source) }
{
    let _hinted = port.has_hints();
    match source {
        Source::Told { number, .. } => number,
        Source::Clause(c) => port.head(c).number,
    }
}

/// Notes what the noted places rest on, and what those do, up to the given ones.
fn note_all<P: Port>(port: &mut P, trail: &Trail, table: &mut Marks<Note>)
    requires hinted { (P.state port.old).hinted ≡ true }
    requires shape { IsTrail trail.now }
    requires reasoned { IsReasoned (clause_at (P.state port.old)) (P.state port.old).seen trail.now.steps }
    requires started { IsStarted (P.state port.old) trail.now.steps trail.now.vars table.old }
    ensures same { P.state port.new ≡ P.state port.old }
    ensures noted { HasNotedAll (P.state port.old) trail.now.steps trail.now.vars table.old table.new }
{
    for i in 0..trail.len() {
        let Some(&place) = table.touched().get(i as usize) else {
            return;
        };
        if let Note::Noted = table.at(place) {
            let source = source_of(port, trail, place);
            note_source(port, trail, source, table);
        }
    }
}

/// Writes the numbers of the sources of the noted places, in the order of the trail, and behind them that of the clause that is
/// false.
fn write_hints<P: Port>(
    port: &mut P,
    trail: &Trail,
    last: &Source,
    table: &Marks<Note>,
    hints: &mut Vec<u64>,
)
    requires hinted { (P.state port.old).hinted ≡ true }
    requires shape { IsTrail trail.now }
    requires reasoned { IsReasoned (clause_at (P.state port.old)) (P.state port.old).seen trail.now.steps }
    requires noting { IsNoting trail.now.steps trail.now.vars table.now }
    requires closed { (p : ℕ) → note_at table.now.values p ≡ Note.Noted → IsClosedAt (P.state port.old) trail.now.steps table.now.values p }
    requires backed { (p : ℕ) → note_at table.now.values p ≡ Note.Noted → IsBacked trail.now.steps p }
    requires used { AreUsed (P.state port.old) trail.now.steps table.now.values (source_lits (P.state port.old) last.now) }
    requires rising { IsNonDecreasing table.now.touched }
    requires last { IsSource (P.state port.old) last.now }
    requires room { trail.now.vars < vec_capacity hints.old }
    ensures same { P.state port.new ≡ P.state port.old }
    ensures hints { (A : Literal → Bool) → IsStartSet trail.now.steps table.now.values (source_lits (P.state port.old) last.now) A
        → hinted_from (numbered (known_at (P.state port.old))) A hints.new.items ≡ true }
    ensures order { AreInTrailOrder (P.state port.old) trail.now.steps (source_lits (P.state port.old) last.now) hints.new.items }
    ensures room { vec_capacity hints.new ≡ vec_capacity hints.old }
{
    hints.clear();
    for place in table.touched() {
        if let Note::Noted = table.at(*place) {
            let source = source_of(port, trail, *place);
            let number = number_of(port, source);
            hints.push_reserved(number);
        }
    }
    let number = number_of(port, *last);
    hints.push_reserved(number);
}

/// Finds hints for a line, of which the last names this clause.
fn trace<P: Port>(port: &mut P, trail: &Trail, line: &[Lit], last: &Source, tracer: &mut Tracer)
    requires hinted { (P.state port.old).hinted ≡ true }
    requires reasoned { IsReasoned (clause_at (P.state port.old)) (P.state port.old).seen trail.now.steps }
    requires last { IsSource (P.state port.old) last.now }
    requires can { CanTrace (P.state port.old) trail.now.steps line.now (source_lits (P.state port.old) last.now) }
    requires blank { tracer.old.table ≡ all_blank trail.now.vars Note.Free }
    requires room { trail.now.vars < vec_capacity tracer.old.hints }
    ensures same { P.state port.new ≡ P.state port.old }
    ensures hints { hinted (numbered (known_at (P.state port.old))) line.now tracer.new.hints.items ≡ true }
    ensures order { AreInTrailOrder (P.state port.old) trail.now.steps (source_lits (P.state port.old) last.now) tracer.new.hints.items }
    ensures blank { tracer.new.table ≡ tracer.old.table }
    ensures room { vec_capacity tracer.new.hints ≡ vec_capacity tracer.old.hints }
{
    let _places = trail.len();
    mark_given(trail, line, &mut tracer.table);
    note_source(port, trail, *last, &mut tracer.table);
    note_all(port, trail, &mut tracer.table);
    tracer.table.sort();
    write_hints(port, trail, last, &tracer.table, &mut tracer.hints);
    tracer.table.reset();
}

/// Finds hints for a line that follows from a clause that the negations of its literals and the trail make false.
pub(crate) fn trace_clause<P: Port>(
    port: &mut P,
    trail: &Trail,
    line: &[Lit],
    c: Cref,
    tracer: &mut Tracer,
)
    requires held { IsSome (held_at (P.state port.old) c.address) }
    requires reasoned { IsReasoned (clause_at (P.state port.old)) (P.state port.old).seen trail.now.steps }
    requires can { CanTraceClause (clause_at (P.state port.old)) trail.now.steps line.now (lits_at (P.state port.old) c.address) }
    requires blank { tracer.old.table ≡ all_blank trail.now.vars Note.Free }
    requires room { trail.now.vars < vec_capacity tracer.old.hints }
    ensures same { P.state port.new ≡ P.state port.old }
    ensures hints { AreHints (P.state port.old) line.now tracer.new.hints.items }
    ensures order { (P.state port.old).hinted ≡ true → AreInTrailOrder (P.state port.old) trail.now.steps (lits_at (P.state port.old) c.address) tracer.new.hints.items }
    ensures blank { tracer.new.table ≡ tracer.old.table }
    ensures room { vec_capacity tracer.new.hints ≡ vec_capacity tracer.old.hints }
{
    if !port.has_hints() {
        tracer.hints.clear();
        return;
    }
    trace(port, trail, line, &Source::Clause(c), tracer);
}

/// Finds hints for a line with the literal at this place: the line's negation makes it false, though the trail makes it true.
pub(crate) fn trace_literal<P: Port>(
    port: &mut P,
    trail: &Trail,
    line: &[Lit],
    place: u32,
    tracer: &mut Tracer,
)
    requires reasoned { IsReasoned (clause_at (P.state port.old)) (P.state port.old).seen trail.now.steps }
    requires can { CanTraceLiteral (clause_at (P.state port.old)) trail.now.steps line.now place }
    requires blank { tracer.old.table ≡ all_blank trail.now.vars Note.Free }
    requires room { trail.now.vars < vec_capacity tracer.old.hints }
    ensures same { P.state port.new ≡ P.state port.old }
    ensures hints { AreHints (P.state port.old) line.now tracer.new.hints.items }
    ensures order { (P.state port.old).hinted ≡ true
        → (c : List Literal) × IsCause (P.state port.old) trail.now.steps place c × AreInTrailOrder (P.state port.old) trail.now.steps c tracer.new.hints.items }
    ensures blank { tracer.new.table ≡ tracer.old.table }
    ensures room { vec_capacity tracer.new.hints ≡ vec_capacity tracer.old.hints }
{
    if !port.has_hints() {
        tracer.hints.clear();
        return;
    }
    let _places = trail.len();
    let source = source_of(port, trail, place);
    trace(port, trail, line, &source, tracer);
}

/// Finds hints for the empty clause if a unit that is seen is false. The trail is at level 0.
pub(crate) fn trace_unit<P: Port>(port: &mut P, trail: &Trail, unit: Lit, tracer: &mut Tracer)
    requires level { trail.now.level ≡ 0 }
    requires reasoned { IsReasoned (clause_at (P.state port.old)) (P.state port.old).seen trail.now.steps }
    requires seen { has (P.state port.old).seen unit ≡ true }
    requires opposed { IsFalseOn trail.now.steps unit }
    requires blank { tracer.old.table ≡ all_blank trail.now.vars Note.Free }
    requires room { trail.now.vars < vec_capacity tracer.old.hints }
    ensures same { P.state port.new ≡ P.state port.old }
    ensures hints { AreHints (P.state port.old) [] tracer.new.hints.items }
    ensures order { (P.state port.old).hinted ≡ true → AreInTrailOrder (P.state port.old) trail.now.steps (unit ∷ []) tracer.new.hints.items }
    ensures blank { tracer.new.table ≡ tracer.old.table }
    ensures room { vec_capacity tracer.new.hints ≡ vec_capacity tracer.old.hints }
{
    if !port.has_hints() {
        tracer.hints.clear();
        return;
    }
    let _places = trail.len();
    let Some(number) = port.unit_number(unit) else {
        // `seen`: each unit that is seen has a number
        unreachable!();
    };
    trace(
        port,
        trail,
        &[],
        &Source::Told { lit: unit, number },
        tracer,
    );
}
