ghost use Rattle.std.specs.Prelude.{◌≡◌, ◌==◌, IfOk};
ghost use Rattle.std.proofs.Common.{rules};
ghost use Rattle.std.specs.Cmp.Lexicographic.{pointwise};
ghost use Rattle.std.specs.Cmp.Rules.{comparing};
ghost use Rattle.std.specs.Ordering.{on};
ghost use Rattle.sat_words.specs.Literal.{code_of};
ghost use Rattle.sat_words.specs.Formats.{has_hints};

use crate::literal::Lit;
use std::alloc::{AllocError, Global};
use std::marker::Model;

/// Literals in the order given, repeats and all, as a line of a proof spells them.
#[derive(Clone, Debug, Drop)]
pub struct Lits {
    items: Vec<Lit>,
}

impl Model for Lits {
    ghost use Rattle.std.specs.Prelude.{List};
    ghost use Rattle.sat_words.specs.Literal.{Literal};

    ghost Value = { List Literal };

    ghost view = { λ lits. lits.items.items };
}

impl PartialEq for Lits {
    ghost eq = { pointwise (on code_of ◌==◌) };

    ghost laws = { Prim.search (comparing, rules) };

    fn eq(&self, other: &Lits) -> bool {
        self.as_slice() == other.as_slice()
    }
}

impl Eq for Lits {
    ghost laws = { Prim.search (comparing, rules) };
}

impl Lits {
    /// A copy of the literals.
    pub fn from_slice(alloc: Global, lits: &[Lit]) -> Result<Lits, AllocError>
        ensures { IfOk result (λ copy. copy ≡ lits.now) }
    {
        Ok(Lits {
            items: Vec::from_slice(alloc, lits)?,
        })
    }

    /// Takes the vector over, and no memory.
    pub fn from_vec(items: Vec<Lit>) -> Lits
        ensures { result ≡ items.items }
    {
        Lits { items }
    }

    /// Gives the vector back, and takes no memory.
    pub fn into_vec(self) -> Vec<Lit>
        ensures { result.items ≡ self }
    {
        let Lits { items } = self;
        items
    }

    /// The literals, in their order.
    pub fn as_slice(&self) -> &[Lit]
        ensures { result.now ≡ self.now }
    {
        self.items.as_slice()
    }
}

/// A line of a proof in the DRAT format of the SAT Competition: a clause that is added, or one that is deleted.
#[derive(Clone, PartialEq, Eq, Debug, Drop)]
pub enum Line {
    /// Adds a clause with these literals. If unit propagation does not show that it follows, the first of them is
    /// the one on which it may be a resolution asymmetric tautology.
    Add(Lits),
    /// Deletes one clause with these literals, in whatever order.
    Del(Lits),
}

/// How the lines of a proof are spelled.
#[derive(Clone, Copy, PartialEq, Eq, Debug, Drop)]
pub enum ProofFormat {
    /// DRAT as text: `1 -2 0`, or `d 1 -2 0` for a deletion.
    Text,
    /// Binary DRAT, as drat-trim reads it: `a` or `d`, the literals as numbers in groups of seven bits, and a zero byte.
    Binary,
    /// LRAT as text, as lrat-check and cake_lpr read it: the number of the clause, its literals and the numbers of the clauses
    /// that show that it follows, as in `5 1 0 1 2 0`; or `5 d 1 0` for a deletion after which the last number is still 5.
    Lrat,
}

impl ProofFormat {
    /// Whether each addition has hints: the numbers of the clauses that show that it follows.
    pub fn has_hints(self) -> bool
        ensures { result ≡ has_hints self }
    {
        match self {
            ProofFormat::Text | ProofFormat::Binary => false,
            ProofFormat::Lrat => true,
        }
    }
}
