// The clauses that are alive, the units, the reconstruction stack and the log.
//
// Each call that changes a work says which entries the journal has gained. Whatever journal stood after the work before,
// with these entries it stands behind the work afterwards, each of its lines valid where it stands.
ghost use Rattle.std.specs.Prelude.{◌≡◌, ◌<◌, ◌≤◌, ◌+◌, ◌^◌, ℕ, List, ◌++◌, [], ◌∷◌, true, false, OnOk, OnErr, IfOk, IfErr, IfSome, IfNone, All, Contains, length};
ghost use Rattle.sat_words.specs.Literal.{Literal, IsOn, code_of};
ghost use Rattle.sat_words.specs.Clause.{has, has_opposites, two_or_more};
ghost use Rattle.sat_words.specs.Formats.{has_hints};
ghost use Rattle.rup_model.specs.Rup.{rup};
ghost use Rattle.simp_base.specs.WorkState.{IsWork, HaveOwnNumbers, AreHeld, known, lists, begun, is_unit, has_unit, unit_lits};
ghost use Rattle.simp_base.specs.Log.{Stands, Continues};
ghost use Rattle.simp_base.specs.Calls.{ruler_deletes, on_ok, AddsToLog, ListsInLog, WasAdded, WasAddedLine, WasDeleted, WasListed};

mod extension;
mod look_ups;
mod resumption;

use crate::beginning::table_of;
use crate::clause_table::ClauseTable;
use crate::hints::Hinter;
use crate::unit_table::UnitTable;
use drat_text::{LineOut, LineStop};
use model_stack::Stack;
pub use resumption::LogEnd;
use sat_words::{Clause, Formula, Lit};
use std::alloc::{AllocFailed, Global};
use std::marker::Model;

/// How a simplifier ended.
#[derive(Clone, Copy, PartialEq, Eq, Debug)]
pub enum Run {
    /// Nothing is left to do.
    Done,
    /// The empty clause was added.
    Refuted,
}

/// What a work holds: the clauses with their numbers, the units, the stack and the line output.
#[derive(Drop)]
pub struct Parts<L: LineOut> {
    /// The clauses alive, each with its number.
    pub clauses: Vec<(u64, Clause)>,
    /// The units listed, each with the number of its clause.
    pub units: Vec<(Lit, u64)>,
    /// What models have to be mended for.
    pub stack: Stack,
    /// Where the lines go.
    pub output: L,
}

/// What a simplifier works on: clauses under their numbers, units, the stack, and the output of the log's lines.
///
/// After an error of a call the work is as it was, except that after a fault the output takes no more lines.
#[derive(Drop)]
pub struct Work<L: LineOut> {
    alloc: Global,
    vars: u32,
    /// No clause that is alive and not held has a variable above this one.
    unheld: u32,
    clauses: ClauseTable,
    units: UnitTable,
    hinter: Hinter,
    stack: Stack,
    ended: bool,
    lines: u64,
    output: L,
}

impl<L: LineOut> Model for Work<L> {
    ghost use Rattle.std.specs.Prelude.{◌≡◌, ◌+◌, ◌*◌};
    ghost use Rattle.simp_base.specs.WorkState.{WorkState, IsWork, AreHeld, unit_lits};

    ghost Value = { WorkState };

    ghost view = { λ w. record {
      vars = w.vars;
      unheld = w.unheld;
      clauses = w.clauses.clauses;
      units = unit_lits w.units.items;
      stack = w.stack;
      ended = w.ended;
      output = L.told w.output;
    } };

    ghost invariant = { λ w. IsWork (record {
      vars = w.vars;
      unheld = w.unheld;
      clauses = w.clauses.clauses;
      units = unit_lits w.units.items;
      stack = w.stack;
      ended = w.ended;
      output = L.told w.output;
    }) × (w.clauses.next ≡ (L.told w.output).last + 1) × (w.clauses.codes ≡ 2 * (w.vars + 1)) × (w.units.codes ≡ 2 * (w.vars + 1)) × (w.lines ≡ (L.told w.output).entries) × AreHeld w.clauses.clauses w.units.items };
}

/// Puts the line that adds a clause to these, with hints if the format has them. Answers its number.
fn add_line<L: LineOut>(
    clauses: &ClauseTable,
    hinter: &mut Hinter,
    output: &mut L,
    lits: &[Lit],
) -> Result<u64, LineStop>
    requires unspent { (L.told output.old).spent ≡ false }
    requires own { HaveOwnNumbers clauses.now.clauses }
    requires codes { All (λ l. code_of l < clauses.now.codes) lits.now }
    requires rup { has_hints (L.told output.old).format ≡ true → (rup (lists clauses.now.clauses) lits.now ≡ true) × (has_opposites lits.now ≡ false) }
    ensures { WasAddedLine (L.told output.old) (L.told output.new) clauses.now.clauses lits.now result }
{
    if !output.format().has_hints() {
        return output.add(lits, &[]);
    }
    if hinter.find(clauses, lits).is_err() {
        return Err(LineStop::Memory);
    }
    output.add(lits, hinter.hints())
}

impl<L: LineOut> Work<L> {
    /// A work on the formula's clauses, under their numbers, with no unit and an empty stack. Refused for memory it
    /// gives the line output back.
    pub fn new(alloc: Global, formula: &Formula, output: L) -> Result<Work<L>, AllocFailed<L>>
        requires unspent { (L.told output).spent ≡ false }
        requires blank { (L.told output).entries ≡ 0 }
        requires last { (L.told output).last ≡ length formula.now.clauses }
        requires on { All (All (IsOn formula.now.vars)) formula.now.clauses }
        ensures made { IfOk result (λ w. w ≡ begun formula.now (L.told output)) }
        ensures stands { IfOk result (λ w. Stands (record { formula = formula.now.clauses; journal = []; output = L.told output }) [] w) }
        ensures work { IfOk result IsWork }
        ensures back { IfErr result (λ refused. refused.value ≡ output) }
    {
        let Ok(clauses) = table_of(alloc, formula) else {
            return Err(AllocFailed { value: output });
        };
        let Ok(units) = UnitTable::new(alloc, formula.vars()) else {
            return Err(AllocFailed { value: output });
        };
        Ok(Work {
            alloc,
            vars: formula.vars(),
            unheld: 0,
            clauses,
            units,
            hinter: Hinter::new(alloc),
            stack: Stack::new(alloc),
            ended: false,
            lines: 0,
            output,
        })
    }

    /// Adds a clause that follows by unit propagation. Answers its number. The empty clause ends the log. If the proof has hints
    /// they are found here: unit clauses count as given, then clauses are tried along what became false, and only what the last
    /// false clause rests on is kept.
    pub fn add_rup(&mut self, lits: &[Lit]) -> Result<u64, LineStop>
        requires unspent { self.old.output.spent ≡ false }
        requires going { self.old.ended ≡ false }
        requires rup { rup (known self.old) lits.now ≡ true }
        requires no_opposites { has_opposites lits.now ≡ false }
        requires on { All (IsOn self.old.vars) lits.now }
        ensures added { WasAdded self.old self.new lits.now result }
        ensures log { AddsToLog self.old self.new lits.now result }
        ensures work { IsWork self.new }
    {
        // The check knows the work's invariant once a field is used.
        let _ = &self.alloc;
        self.put_clause(lits)
    }

    /// Puts the line that adds the clause, and keeps the clause under its number.
    fn put_clause(&mut self, lits: &[Lit]) -> Result<u64, LineStop>
        requires unspent { self.old.output.spent ≡ false }
        requires rup { has_hints self.old.output.format ≡ true → (rup (known self.old) lits.now ≡ true) × (has_opposites lits.now ≡ false) }
        requires on { All (IsOn self.old.vars) lits.now }
        ensures { WasAdded self.old self.new lits.now result }
    {
        let Ok(clause) = Clause::from_lits(self.alloc, lits) else {
            return Err(LineStop::Memory);
        };
        if self.clauses.make_ready(clause.lits()).is_err() {
            return Err(LineStop::Memory);
        }
        let added = add_line(&self.clauses, &mut self.hinter, &mut self.output, lits);
        match added {
            Ok(number) => {
                self.ended = lits.is_empty();
                self.lines += 1;
                self.clauses.push(number, clause);
                Ok(number)
            }
            Err(stop) => Err(stop),
        }
    }

    /// Deletes the clause with this number, which is alive and has two literals or more.
    pub fn delete(&mut self, number: u64) -> Result<(), LineStop>
        requires unspent { self.old.output.spent ≡ false }
        requires going { self.old.ended ≡ false }
        requires alive { (c : List Literal) × Contains self.old.clauses (number, c) × (two_or_more c ≡ true) }
        ensures deleted { WasDeleted self.old self.new number result }
        ensures log { Continues (on_ok result (ruler_deletes number ∷ [])) self.old self.new }
        ensures work { IsWork self.new }
    {
        // The check knows the work's invariant once a field is used.
        let _ = &self.alloc;
        self.take_clause(number)
    }

    fn take_clause(&mut self, number: u64) -> Result<(), LineStop>
        requires unspent { self.old.output.spent ≡ false }
        requires alive { (c : List Literal) × Contains self.old.clauses (number, c) × (two_or_more c ≡ true) }
        ensures deleted { WasDeleted self.old self.new number result }
        ensures work { IsWork self.new }
    {
        let Some(clause) = self.clauses.get(number) else {
            // `alive`: a clause has this number
            unreachable!()
        };
        match self.output.del(number, clause.lits()) {
            Ok(()) => {
                self.lines += 1;
                self.clauses.remove(number);
                Ok(())
            }
            Err(stop) => Err(stop),
        }
    }

    /// Lists a unit that follows by unit propagation, unless it is listed already. Its clause is added if it is not
    /// alive.
    pub fn unit(&mut self, lit: Lit) -> Result<(), LineStop>
        requires unspent { self.old.output.spent ≡ false }
        requires going { self.old.ended ≡ false }
        requires rup { rup (known self.old) (lit ∷ []) ≡ true }
        requires on { IsOn self.old.vars lit }
        ensures listed { WasListed self.old self.new lit result }
        ensures log { ListsInLog self.old self.new lit result }
        ensures work { IsWork self.new }
    {
        // The check knows the work's invariant once a field is used.
        let _ = &self.alloc;
        self.list(lit)
    }

    fn list(&mut self, lit: Lit) -> Result<(), LineStop>
        requires unspent { self.old.output.spent ≡ false }
        requires rup { rup (known self.old) (lit ∷ []) ≡ true }
        requires going { self.old.ended ≡ false }
        requires on { IsOn self.old.vars lit }
        ensures listed { WasListed self.old self.new lit result }
        ensures work { IsWork self.new }
    {
        if self.units.is_listed(lit) {
            return Ok(());
        }
        if self.units.make_room().is_err() {
            return Err(LineStop::Memory);
        }
        if let Some(number) = self.clauses.unit_number(lit) {
            self.units.push(lit, number);
            return Ok(());
        }
        let Ok(clause) = Clause::from_lits(self.alloc, &[lit]) else {
            return Err(LineStop::Memory);
        };
        if self.clauses.make_ready(clause.lits()).is_err() {
            return Err(LineStop::Memory);
        }
        let added = add_line(&self.clauses, &mut self.hinter, &mut self.output, &[lit]);
        match added {
            Ok(number) => {
                self.lines += 1;
                self.clauses.push(number, clause);
                self.units.push(lit, number);
                Ok(())
            }
            Err(stop) => Err(stop),
        }
    }

    /// Puts an entry onto the stack: a model is mended by making the literal true if the clause is false. It writes no
    /// line.
    pub fn push_fix(&mut self, lit: Lit, clause: Clause) -> Result<(), LineStop>
        requires holds { has clause lit ≡ true }
        requires on { All (IsOn self.old.vars) clause }
        ensures ok { OnOk result (self.new ≡ record self.old { stack = self.old.stack ++ record { lit = lit; clause = clause } ∷ [] }) }
        ensures err { OnErr result (self.new ≡ self.old) }
        ensures memory { IfErr result (λ stop. stop ≡ LineStop.Memory) }
        ensures log { Continues [] self.old self.new }
        ensures work { IsWork self.new }
    {
        let Ok(()) = self.stack.push(lit, clause) else {
            return Err(LineStop::Memory);
        };
        Ok(())
    }

    /// Takes the work apart.
    pub fn into_parts(self) -> Parts<L>
        ensures clauses { result.clauses.items ≡ self.clauses }
        ensures units { unit_lits result.units.items ≡ self.units }
        ensures held { AreHeld result.clauses.items result.units.items }
        ensures stack { result.stack ≡ self.stack }
        ensures output { L.told result.output ≡ self.output }
    {
        let Work {
            clauses,
            units,
            stack,
            output,
            ..
        } = self;
        Parts {
            clauses: clauses.into_clauses(),
            units: units.into_list(),
            stack,
            output,
        }
    }
}
