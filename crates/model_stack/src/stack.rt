// The reconstruction stack and the walk over it.
//
// A simplifier that takes a clause away which did not follow from the others pushes the clause together with one of its
// literals. A model of what is left is mended by a walk from the last entry to the first: if an entry's clause is
// false, its literal is made true. That this gives a model of the clauses before is the simplifier's to show.
ghost use Rattle.std.specs.Prelude.{◌≡◌, ◌≤◌, ◌++◌, ◌∷◌, [], true, OnOk, OnErr, length, All};
ghost use Rattle.sat_words.specs.Clause.{has};
ghost use Rattle.model_stack.specs.Extend.{extend, mended};

use sat_words::{Assignment, Clause, Lit};
use std::alloc::{AllocError, Global};
use std::marker::Model;

/// An entry of the stack: if the clause is false, the literal is made true.
#[derive(Drop)]
pub struct Fix {
    /// A literal of the clause.
    pub lit: Lit,
    /// A clause that a model has to be mended for.
    pub clause: Clause,
}

impl Fix {
    /// Makes the literal true if the clause is false.
    fn mend(&self, a: &mut Assignment)
        requires { self.now.lit.var ≤ length a.old }
        ensures value { a.new ≡ mended a.old self.now }
        ensures range { length a.new ≡ length a.old }
    {
        if !a.clause_true(&self.clause) {
            a.set(self.lit.var(), !self.lit.is_neg());
        }
    }
}

/// What has to be mended in a model, from the last entry to the first.
#[derive(Drop)]
pub struct Stack {
    fixes: Vec<Fix>,
}

impl Model for Stack {
    ghost use Rattle.std.specs.Prelude.{List};
    ghost use Rattle.model_stack.specs.declared.stack.Fix.{Fix};

    ghost Value = { List Fix };

    ghost view = { λ s. s.fixes.items };
}

impl Stack {
    /// No entry. It takes no memory.
    pub fn new(alloc: Global) -> Self
        ensures { result ≡ [] }
    {
        Stack {
            fixes: Vec::new(alloc),
        }
    }

    /// Puts an entry after the others. After an error the stack is as it was.
    pub fn push(&mut self, lit: Lit, clause: Clause) -> Result<(), AllocError>
        requires { has clause lit ≡ true }
        ensures ok { OnOk result (self.new ≡ self.old ++ record { lit = lit; clause = clause } ∷ []) }
        ensures err { OnErr result (self.new ≡ self.old) }
    {
        self.fixes.push(Fix { lit, clause })?;
        Ok(())
    }

    /// Mends the assignment: from the last entry to the first, the literal of one whose clause is false is made true.
    /// A variable past the assignment's end is false if it occurs in a clause. It takes no memory.
    pub fn extend(&self, a: &mut Assignment)
        requires { All (λ fix. fix.lit.var ≤ length a.old) self.now }
        ensures value { a.new ≡ extend self.now a.old }
        ensures range { length a.new ≡ length a.old }
    {
        for i in (0..self.fixes.len()).rev() {
            self.fixes[i].mend(a);
        }
    }
}
