//! Small random formulas.
ghost use Rattle.std.specs.Prelude.{◌≡◌, IfOk, OnOk};
ghost use Rattle.sat_words.specs.Literal.{IsOn};
ghost use Rattle.random_bits.specs.Bits.{rest_of};
ghost use Rattle.test_ruler.specs.Draws.{size_of, lit_of, next_clause, behind_clause, drawn};

use rand_core::utils::NextWord;
use rand_pcg::Lcg64Xsh32;
use sat_words::{Clause, Formula, Lit};
use std::alloc::{AllocError, Global};

/// The variables of each formula are 1 to this one.
pub const VARS: u32 = 6;

/// A literal of these variables, by two words.
fn draw_lit(words: &mut Lcg64Xsh32) -> Lit
    ensures lit { result ≡ lit_of words.old }
    ensures on { IsOn 6 result }
    ensures rest { words.new ≡ rest_of (rest_of words.old) }
{
    let var = 1 + words.next_word() % VARS;
    let neg = words.next_word() % 2 == 1;
    Lit::new(var, neg)
}

/// How many literals a clause has, by a word; few have one.
fn clause_size(word: u32) -> u32
    ensures { result ≡ size_of word }
{
    let sizes: [u32; 8] = [1, 2, 2, 2, 3, 3, 3, 4];
    sizes[word as usize % 8]
}

/// A clause of one literal to four.
fn draw_clause(alloc: Global, words: &mut Lcg64Xsh32) -> Result<Clause, AllocError>
    ensures clause { IfOk result (λ clause. clause ≡ next_clause words.old) }
    ensures rest { OnOk result (words.new ≡ behind_clause words.old) }
{
    let size = clause_size(words.next_word());
    let mut lits = Vec::new(alloc);
    for _index in 0..size {
        lits.push(draw_lit(words))?;
    }
    Clause::from_lits(alloc, lits.as_slice())
}

/// A formula of four clauses to nineteen, by its number.
pub fn draw_formula(alloc: Global, number: u64) -> Result<Formula, AllocError>
    ensures { IfOk result (λ formula. formula ≡ drawn number) }
{
    let mut words = Lcg64Xsh32::new(number, 0);
    let mut formula = Formula::new(alloc, VARS);
    let count = 4 + words.next_word() % 16;
    for _index in 0..count {
        formula.push(draw_clause(alloc, &mut words)?)?;
    }
    Ok(formula)
}
