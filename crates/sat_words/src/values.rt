ghost use Rattle.std.specs.Prelude.{◌≡◌, ◌+◌, ◌<◌, length, replicate, slice_set, slice_index_or, not, IfOk, None, Some};
ghost use Rattle.sat_words.specs.Literal.{opposite};
ghost use Rattle.sat_words.specs.Values.{value_of, is_true, is_open};
ghost use Rattle.sat_words.specs.ByCode.{truth_of, value_from};
ghost use Rattle.sat_words.specs.declared.values.Truth.TheVariants.{Open};

use crate::literal::Lit;
use std::alloc::{AllocError, Global};
use std::marker::Model;

/// What is known of a literal, in one byte.
#[derive(Clone, Copy)]
enum Truth {
    /// Its variable has no value.
    Open,
    True,
    False,
}

/// A value or none for each variable up to a highest one.
///
/// It is kept as the truth of each literal by its code, so that one look at one byte says whether a literal is true, and
/// another whether it is false. Each write goes to the two codes of a variable, which must never disagree.
#[derive(Drop)]
pub struct Values {
    by_code: Vec<Truth>,
}

impl Model for Values {
    ghost use Rattle.std.specs.Prelude.{List, Option, Bool};
    ghost use Rattle.sat_words.specs.ByCode.{values_of, IsPaired};

    ghost Value = { List (Option Bool) };

    ghost view = { λ a. values_of a.by_code.items };

    ghost invariant = { λ a. IsPaired a.by_code.items };
}

/// What stands at a code, and `Open` past the end.
fn truth_at(by_code: &[Truth], code: usize) -> Truth
    ensures { result ≡ slice_index_or by_code.now code Open }
{
    if code < by_code.len() {
        by_code[code]
    } else {
        Truth::Open
    }
}

/// The value of a variable that is as true as this.
fn value_from(truth: Truth) -> Option<bool>
    ensures { result ≡ value_from truth }
{
    match truth {
        Truth::Open => None,
        Truth::True => Some(true),
        Truth::False => Some(false),
    }
}

impl Values {
    /// No value for the variables up to `vars`.
    pub fn new(alloc: Global, vars: u32) -> Result<Values, AllocError>
        ensures { IfOk result (λ a. a ≡ replicate (vars + 1) None) }
    {
        Ok(Values {
            by_code: vec![in alloc; Truth::Open; 2 * (vars as usize + 1)]?,
        })
    }

    /// Makes the literal true, and its negation false.
    pub fn set(&mut self, lit: Lit)
        requires { lit.var < length self.old }
        ensures { self.new ≡ slice_set self.old lit.var (Some (not lit.neg)) }
    {
        self.by_code[lit.code() as usize] = Truth::True;
        self.by_code[lit.not().code() as usize] = Truth::False;
    }

    /// Takes the variable's value away.
    pub fn unset(&mut self, var: u32)
        requires { var < length self.old }
        ensures { self.new ≡ slice_set self.old var None }
    {
        let code = 2 * var as usize;
        self.by_code[code] = Truth::Open;
        self.by_code[code + 1] = Truth::Open;
    }

    /// Takes every value away, and no memory.
    pub fn clear(&mut self)
        ensures { self.new ≡ replicate (length self.old) None }
    {
        self.by_code.fill(Truth::Open);
    }

    /// The variable's value; none past the end.
    pub fn value(&self, var: u32) -> Option<bool>
        ensures { result ≡ value_of self.now var }
    {
        value_from(truth_at(self.by_code.as_slice(), 2 * var as usize))
    }

    /// How true the literal is.
    fn truth(&self, lit: Lit) -> Truth
        ensures { result ≡ truth_of (value_of self.now lit.var) lit.neg }
    {
        truth_at(self.by_code.as_slice(), lit.code() as usize)
    }

    /// Whether the literal's variable has a value under which the literal is true.
    pub fn is_true(&self, lit: Lit) -> bool
        ensures { result ≡ is_true self.now lit }
    {
        matches!(self.truth(lit), Truth::True)
    }

    /// Whether the literal's negation is true.
    pub fn is_false(&self, lit: Lit) -> bool
        ensures { result ≡ is_true self.now (opposite lit) }
    {
        matches!(self.truth(lit), Truth::False)
    }

    /// Whether the literal is not false and isn't the other one, as a clause is looked through that has the other.
    pub fn is_open(&self, other: Lit, lit: Lit) -> bool
        ensures { result ≡ is_open self.now other lit }
    {
        !self.is_false(lit) && lit != other
    }
}
