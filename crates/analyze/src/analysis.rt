//! The calls of conflict analysis: the walk, minimisation, the lemma, the variables to bump and the hints. The buffers are kept from
//! conflict to conflict. Each call must take its marks away.
ghost use Rattle.std.specs.Prelude.{◌≡◌, ◌<◌, ◌≤◌, ◌^◌, ◌∷◌, [], true, List, All, IfOk, IsSome};
ghost use Rattle.analyze.specs.AnalysisData.{IsVariable};
ghost use Rattle.ring_port.specs.PortState.{held_at, lits_at};
ghost use Rattle.ring_trail.specs.TrailData.{IsFalseClause, IsFalseOn};
ghost use Rattle.ring_trail.specs.Reasoned.{IsReasoned};
ghost use Rattle.ring_port.specs.PortState.{clause_at};
ghost use Rattle.ring_port.specs.Port.{AreHints};
ghost use Rattle.sat_words.specs.Literal.{Literal};
ghost use Rattle.sat_words.specs.Clause.{has};
ghost use Rattle.analyze.specs.Tracing.{CanTraceClause, CanTraceLiteral};
ghost use Rattle.analyze.specs.HintOrder.{IsCause, AreInTrailOrder};
ghost use Rattle.analyze.specs.Levels.{clause_level};
ghost use Rattle.analyze.specs.Lemma.{IsConclusion};
ghost use Rattle.analyze.specs.ReasonSide.{AreAnalyzed};

use crate::lemma::{backjump_level, glue_of, write_analyzed, write_lemma};
use crate::marks::Marks;
use crate::minimise::{Minimisation, Removability, judge_all, write_kept_places};
use crate::reason_side::mark_reason_side;
use crate::tracer::{Note, Tracer, trace_clause, trace_literal, trace_unit};
use crate::walk::{find_first_uip, level_of_clause};
use ring_port::Port;
use ring_trail::Trail;
use sat_words::{Cref, Lit};
use std::alloc::{AllocError, Global};
use std::marker::Model;

/// What follows from a conflict.
#[derive(Clone, Copy, PartialEq, Eq, Debug)]
pub enum Conclusion {
    /// The conflict is at level 0, and the empty clause follows.
    Empty,
    /// A clause, whose literals are those of `Analysis::lits`.
    Lemma {
        /// The level to backjump to: the greatest level of its literals except the asserting one, 0 if there are no others.
        /// After the backjump only the asserting literal isn't false.
        back: u32,
        /// How many levels its literals except the asserting one have. It is one less than the literal block distance of
        /// Audemard and Simon (2009).
        glue: u32,
    },
}

/// The buffers of conflict analysis for one number of variables, and the lemma found last. Only `new` takes memory.
#[derive(Drop)]
pub struct Analysis {
    vars: u32,
    marks: Marks<bool>,
    kept_places: Vec<u32>,
    levels: Marks<bool>,
    minimisation: Minimisation,
    lits: Vec<Lit>,
    analyzed: Vec<u32>,
    tracer: Tracer,
}

impl Model for Analysis {
    ghost use Rattle.analyze.specs.AnalysisData.{AnalysisData};

    ghost Value = { AnalysisData };

    ghost use Rattle.analyze.specs.AnalysisData.{IsReady};

    ghost view = { λ a. record { vars = a.vars; lits = a.lits.items; analyzed = a.analyzed.items; hints = a.tracer.hints.items } };

    ghost invariant = { IsReady };
}

impl Analysis {
    /// For trails over this many variables. It has no lemma yet.
    pub fn new(alloc: Global, vars: u32) -> Result<Analysis, AllocError>
        requires { vars ≤ 2 ^ 30 }
        ensures { IfOk result (λ a. a ≡ record { vars = vars; lits = []; analyzed = []; hints = [] }) }
    {
        let room = vars as usize;
        Ok(Analysis {
            vars,
            marks: Marks::new(alloc, room, false)?,
            kept_places: Vec::with_capacity(alloc, room)?,
            levels: Marks::new(alloc, room + 1, false)?,
            minimisation: Minimisation {
                table: Marks::new(alloc, room, Removability::Unknown)?,
                waiting: Vec::with_capacity(alloc, room)?,
            },
            lits: Vec::with_capacity(alloc, room + 1)?,
            analyzed: Vec::with_capacity(alloc, room)?,
            tracer: Tracer {
                table: Marks::new(alloc, room, Note::Free)?,
                hints: Vec::with_capacity(alloc, room + 1)?,
            },
        })
    }

    /// The literals of the lemma found last, the asserting one first.
    pub fn lits(&self) -> &[Lit]
        ensures { result.now ≡ self.now.lits }
    {
        self.lits.as_slice()
    }

    /// The variables to bump after the last conflict: those that the walk reached, and those of the reasons of the lemma's
    /// literals. They stand in no particular order.
    pub fn analyzed(&self) -> &[u32]
        ensures { result.now ≡ self.now.analyzed }
    {
        self.analyzed.as_slice()
    }

    /// The hints found last, in the order of the trail, the clause that is false last. Without hints in the log there are none.
    pub fn hints(&self) -> &[u64]
        ensures { result.now ≡ self.now.hints }
    {
        self.tracer.hints.as_slice()
    }

    /// Finds hints for a line that follows from a clause that the negations of its literals and the trail make false.
    pub fn trace_clause<P: Port>(&mut self, port: &mut P, trail: &Trail, line: &[Lit], c: Cref)
        requires vars { trail.now.vars ≡ self.old.vars }
        requires held { IsSome (held_at (P.state port.old) c.address) }
        requires reasoned { IsReasoned (clause_at (P.state port.old)) (P.state port.old).seen trail.now.steps }
        requires can { CanTraceClause (clause_at (P.state port.old)) trail.now.steps line.now (lits_at (P.state port.old) c.address) }
        ensures same { P.state port.new ≡ P.state port.old }
        ensures kept { self.new ≡ record self.old { hints = self.new.hints } }
        ensures hints { AreHints (P.state port.old) line.now self.new.hints }
        ensures order { (P.state port.old).hinted ≡ true → AreInTrailOrder (P.state port.old) trail.now.steps (lits_at (P.state port.old) c.address) self.new.hints }
    {
        trace_clause(port, trail, line, c, &mut self.tracer);
    }

    /// Finds hints for a line with the literal at this place: the line's negation makes it false, though the trail makes it true.
    pub fn trace_literal<P: Port>(&mut self, port: &mut P, trail: &Trail, line: &[Lit], place: u32)
        requires vars { trail.now.vars ≡ self.old.vars }
        requires reasoned { IsReasoned (clause_at (P.state port.old)) (P.state port.old).seen trail.now.steps }
        requires can { CanTraceLiteral (clause_at (P.state port.old)) trail.now.steps line.now place }
        ensures same { P.state port.new ≡ P.state port.old }
        ensures kept { self.new ≡ record self.old { hints = self.new.hints } }
        ensures hints { AreHints (P.state port.old) line.now self.new.hints }
        ensures order { (P.state port.old).hinted ≡ true
            → (c : List Literal) × IsCause (P.state port.old) trail.now.steps place c × AreInTrailOrder (P.state port.old) trail.now.steps c self.new.hints }
    {
        trace_literal(port, trail, line, place, &mut self.tracer);
    }

    /// Finds hints for the empty clause if a unit that is seen is false. The trail is at level 0.
    pub fn trace_unit<P: Port>(&mut self, port: &mut P, trail: &Trail, unit: Lit)
        requires vars { trail.now.vars ≡ self.old.vars }
        requires level { trail.now.level ≡ 0 }
        requires reasoned { IsReasoned (clause_at (P.state port.old)) (P.state port.old).seen trail.now.steps }
        requires seen { has (P.state port.old).seen unit ≡ true }
        requires opposed { IsFalseOn trail.now.steps unit }
        ensures same { P.state port.new ≡ P.state port.old }
        ensures kept { self.new ≡ record self.old { hints = self.new.hints } }
        ensures hints { AreHints (P.state port.old) [] self.new.hints }
        ensures order { (P.state port.old).hinted ≡ true → AreInTrailOrder (P.state port.old) trail.now.steps (unit ∷ []) self.new.hints }
    {
        trace_unit(port, trail, unit, &mut self.tracer);
    }

    /// Analyses a conflict, which is a clause that is false on the trail. The walk starts at the clause's level, which is the
    /// greatest of its literals'. Minimisation removes a literal of a lower level if the others of its reason are at level 0,
    /// left by the walk, or removable too. After a lemma `lits` has its literals and `analyzed` the variables to bump. After
    /// `Empty` both have nothing. The hints are those of the lemma, or of the empty clause.
    pub fn analyze<P: Port>(&mut self, port: &mut P, trail: &Trail, conflict: Cref) -> Conclusion
        requires vars { trail.now.vars ≡ self.old.vars }
        requires held { IsSome (held_at (P.state port.old) conflict.address) }
        requires conflict { IsFalseClause trail.now.steps (lits_at (P.state port.old) conflict.address) }
        requires reasoned { IsReasoned (clause_at (P.state port.old)) (P.state port.old).seen trail.now.steps }
        ensures same { P.state port.new ≡ P.state port.old }
        ensures vars { self.new.vars ≡ self.old.vars }
        ensures found { IsConclusion (P.state port.old) trail.now (lits_at (P.state port.old) conflict.address) self.new.lits result }
        ensures none { result ≡ Conclusion.Empty → self.new.lits ≡ [] }
        ensures variables { All (IsVariable self.new.vars) self.new.analyzed }
        ensures analyzed { 0 < clause_level trail.now.steps (lits_at (P.state port.old) conflict.address)
            → AreAnalyzed (clause_at (P.state port.old)) trail.now.steps (lits_at (P.state port.old) conflict.address) self.new.lits self.new.analyzed }
        ensures hints { AreHints (P.state port.old) self.new.lits self.new.hints }
        ensures order { (P.state port.old).hinted ≡ true → AreInTrailOrder (P.state port.old) trail.now.steps (lits_at (P.state port.old) conflict.address) self.new.hints }
        ensures none_analyzed { result ≡ Conclusion.Empty → self.new.analyzed ≡ [] }
    {
        let level = level_of_clause(port, trail, conflict);
        if level == 0 {
            self.lits.clear();
            self.analyzed.clear();
            trace_clause(port, trail, &[], conflict, &mut self.tracer);
            return Conclusion::Empty;
        }
        let point = find_first_uip(port, trail, conflict, level, &mut self.marks);
        judge_all(port, trail, level, &self.marks, &mut self.minimisation);
        write_kept_places(
            trail,
            level,
            self.marks.touched(),
            self.minimisation.table.values(),
            &mut self.kept_places,
        );
        mark_reason_side(
            port,
            trail,
            point,
            self.kept_places.as_slice(),
            level,
            &mut self.marks,
        );
        write_analyzed(trail, self.marks.touched(), &mut self.analyzed);
        self.marks.reset();
        self.minimisation.table.reset();
        let kept_places = self.kept_places.as_slice();
        write_lemma(trail, point, kept_places, &mut self.lits);
        trace_clause(
            port,
            trail,
            self.lits.as_slice(),
            conflict,
            &mut self.tracer,
        );
        let back = backjump_level(trail, kept_places);
        let glue = glue_of(trail, kept_places, &mut self.levels);
        Conclusion::Lemma { back, glue }
    }
}
