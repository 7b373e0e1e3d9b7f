// The units listed, found by literal.
ghost use Rattle.std.specs.Prelude.{◌≡◌, ◌<◌, ◌≤◌, ◌+◌, ◌*◌, [], ◌∷◌, ◌++◌, IfOk, OnOk, All};
ghost use Rattle.sat_words.specs.Literal.{IsOn, code_of};
ghost use Rattle.sat_words.specs.Clause.{has};
ghost use Rattle.simp_base.specs.WorkState.{unit_lits};

use sat_words::Lit;
use std::alloc::{AllocError, Global};
use std::marker::Model;

/// Units in the order in which they came, each with the number of its clause, and for each literal, by its code, whether it is among them.
#[derive(Drop)]
pub(crate) struct UnitTable {
    list: Vec<(Lit, u64)>,
    listed: Vec<bool>,
}

impl Model for UnitTable {
    ghost use Rattle.std.specs.Prelude.{◌≡◌, ◌<◌, ◌-◌, false, vec_len, vec_capacity};
    ghost use Rattle.std.specs.List.{slice_index_or};
    ghost use Rattle.sat_words.specs.Literal.{Literal, code_of};
    ghost use Rattle.sat_words.specs.Clause.{has};
    ghost use Rattle.simp_base.specs.WorkState.{unit_lits};
    ghost use Rattle.simp_base.specs.Tables.{UnitData};

    ghost Value = { UnitData };

    ghost view = { λ t. record {
      items = t.list.items;
      codes = vec_len t.listed;
      room = vec_capacity t.list - vec_len t.list;
      code_room = vec_capacity t.listed - vec_len t.listed;
    } };

    ghost invariant = { λ t. (l : Literal) → code_of l < vec_len t.listed → slice_index_or t.listed.items (code_of l) false ≡ has (unit_lits t.list.items) l };
}

impl UnitTable {
    /// No unit, over the variables up to this one.
    pub(crate) fn new(alloc: Global, vars: u32) -> Result<Self, AllocError>
        ensures items { IfOk result (λ t. t.items ≡ []) }
        ensures codes { IfOk result (λ t. t.codes ≡ 2 * (vars + 1)) }
    {
        let listed = vec![in alloc; false; 2 * (vars as usize + 1)]?;
        Ok(UnitTable {
            list: Vec::new(alloc),
            listed,
        })
    }

    /// These units, in this order.
    pub(crate) fn over(alloc: Global, vars: u32, units: &[(Lit, u64)]) -> Result<Self, AllocError>
        requires { All (λ u. IsOn vars u.0) units.now }
        ensures items { IfOk result (λ t. t.items ≡ units.now) }
        ensures codes { IfOk result (λ t. t.codes ≡ 2 * (vars + 1)) }
    {
        let mut table = UnitTable::new(alloc, vars)?;
        for unit in units {
            table.make_room()?;
            table.push(unit.0, unit.1);
        }
        Ok(table)
    }

    /// The units, each once, with their numbers.
    pub(crate) fn as_slice(&self) -> &[(Lit, u64)]
        ensures { result.now ≡ self.now.items }
    {
        self.list.as_slice()
    }

    /// The list alone.
    pub(crate) fn into_list(self) -> Vec<(Lit, u64)>
        ensures { result.items ≡ self.items }
    {
        let UnitTable { list, .. } = self;
        list
    }

    /// Whether the unit is listed.
    pub(crate) fn is_listed(&self, lit: Lit) -> bool
        requires { code_of lit < self.now.codes }
        ensures { result ≡ has (unit_lits self.now.items) lit }
    {
        self.listed[lit.code() as usize]
    }

    /// Takes room for one more.
    pub(crate) fn make_room(&mut self) -> Result<(), AllocError>
        ensures items { self.new.items ≡ self.old.items }
        ensures codes { self.new.codes ≡ self.old.codes }
        ensures room { OnOk result (1 ≤ self.new.room) }
    {
        self.list.reserve(1)?;
        Ok(())
    }

    /// Lists the unit with the number of its clause. There is room for it.
    pub(crate) fn push(&mut self, lit: Lit, number: u64)
        requires room { 1 ≤ self.old.room }
        requires code { code_of lit < self.old.codes }
        ensures items { self.new.items ≡ self.old.items ++ (lit, number) ∷ [] }
        ensures codes { self.new.codes ≡ self.old.codes }
    {
        self.list.push_reserved((lit, number));
        self.listed[lit.code() as usize] = true;
    }

    /// Takes room for the codes of one variable more.
    pub(crate) fn make_code_room(&mut self) -> Result<(), AllocError>
        ensures items { self.new.items ≡ self.old.items }
        ensures codes { self.new.codes ≡ self.old.codes }
        ensures room { OnOk result (2 ≤ self.new.code_room) }
    {
        self.listed.reserve(2)?;
        Ok(())
    }

    /// Has one variable more, for the codes of which there is room. It has no unit.
    pub(crate) fn widen(&mut self)
        requires room { 2 ≤ self.old.code_room }
        requires known { All (λ l. code_of l < self.old.codes) (unit_lits self.old.items) }
        ensures items { self.new.items ≡ self.old.items }
        ensures codes { self.new.codes ≡ self.old.codes + 2 }
    {
        self.listed.push_reserved(false);
        self.listed.push_reserved(false);
    }
}
