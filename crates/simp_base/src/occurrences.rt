// For each literal the numbers of clauses that hold it.
ghost use Rattle.std.specs.Prelude.{◌≡◌, ◌<◌, ◌+◌, ◌*◌, ℕ, List, [], ◌∷◌, ◌++◌, length, replicate, slice_set, IfOk, OnOk, OnErr, All};
ghost use Rattle.std.specs.List.{slice_index_or};
ghost use Rattle.sat_words.specs.Literal.{Literal, code_of};
ghost use Rattle.simp_base.specs.Tables.{Noted, KeptNotes};

use sat_words::Lit;
use std::alloc::{AllocError, Global};
use std::marker::Model;

/// For each literal, by its code, the numbers that were noted for it.
#[derive(Drop)]
pub(crate) struct Occurrences {
    lists: Vec<Vec<u64>>,
}

impl Model for Occurrences {
    ghost use Rattle.std.specs.Prelude.{List, ℕ, map};

    ghost Value = { List (List ℕ) };

    ghost view = { λ o. map (λ v. v.items) o.lists.items };
}

impl Occurrences {
    /// Nothing is noted for the literals of the variables up to this one.
    pub(crate) fn blank(alloc: Global, vars: u32) -> Result<Self, AllocError>
        ensures { IfOk result (λ o. o ≡ replicate (2 * (vars + 1)) []) }
    {
        let mut lists = Vec::new(alloc);
        for i in 0..2 * (vars as usize + 1) {
            lists.push(Vec::new(alloc))?;
        }
        Ok(Occurrences { lists })
    }

    /// Notes the number for the literal.
    fn note(&mut self, lit: Lit, number: u64) -> Result<(), AllocError>
        requires { code_of lit < length self.old }
        ensures ok { OnOk result (self.new ≡ slice_set self.old (code_of lit) (slice_index_or self.old (code_of lit) [] ++ number ∷ [])) }
        ensures kept { KeptNotes self.old self.new }
    {
        self.lists[lit.code() as usize].push(number)?;
        Ok(())
    }

    /// Notes the number for each of the literals. After an error it is noted for some of them.
    pub(crate) fn note_all(&mut self, lits: &[Lit], number: u64) -> Result<(), AllocError>
        requires { All (λ l. code_of l < length self.old) lits.now }
        ensures ok { OnOk result (Noted self.old self.new lits.now number) }
        ensures kept { KeptNotes self.old self.new }
    {
        for lit in lits {
            self.note(*lit, number)?;
        }
        Ok(())
    }

    /// The numbers that were noted for the literal.
    pub(crate) fn of(&self, lit: Lit) -> &[u64]
        requires { code_of lit < length self.now }
        ensures { result.now ≡ slice_index_or self.now (code_of lit) [] }
    {
        self.lists[lit.code() as usize].as_slice()
    }

    /// Has one variable more, with nothing noted for its literals. After an error it is as it was.
    pub(crate) fn widen(&mut self, alloc: Global) -> Result<(), AllocError>
        ensures ok { OnOk result (self.new ≡ self.old ++ [] ∷ [] ∷ []) }
        ensures err { OnErr result (self.new ≡ self.old) }
    {
        self.lists.reserve(2)?;
        self.lists.push_reserved(Vec::new(alloc));
        self.lists.push_reserved(Vec::new(alloc));
        Ok(())
    }
}
