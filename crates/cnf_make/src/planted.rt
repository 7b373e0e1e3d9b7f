// The formula of a number. The generator of that number and stream 1 gives first the hidden value of each variable, and then
// four words for each clause: three of them choose its variables, which differ, and the fourth its signs. A clause that
// the hidden values make false gets one of its literals negated. So the hidden values satisfy every clause ("planted"
// satisfiability, as in Achlioptas and others 2005), and the same number gives the same formula everywhere.
ghost use Rattle.std.specs.Prelude.{◌≡◌, ◌<◌, ◌≤◌, All, IfOk, true, length};
ghost use Rattle.sat_words.specs.Literal.{IsOn};
ghost use Rattle.sat_words.specs.Truth.{lit_true, formula_true};
ghost use Rattle.cnf_make.specs.Made.{made_vars, draw_of, behind_draw, drawn_lit, turned_if, mended, planted, hidden, made};

use rand_core::utils::NextWord;
use rand_pcg::Lcg64Xsh32;
use random_bits::lowest_bits;
use sat_words::{Clause, Formula, Lit, a_clause_is_a_set, truth_is_of_the_set};
use std::alloc::{AllocError, Global};

/// How many variables a made formula has.
pub const VARS: u32 = 20000;
/// How many clauses a made formula has.
pub const CLAUSES: u32 = 60000;
/// The stream of the generator.
const STREAM: u64 = 1;

/// The formula of this number. Its hidden values satisfy each clause, and its literals are on its variables.
pub fn make(alloc: Global, number: u64) -> Result<Formula, AllocError>
    ensures made { IfOk result (λ f. f ≡ made number) }
    ensures on { IfOk result (λ f. All (All (IsOn f.vars)) f.clauses) }
    ensures planted { IfOk result (λ f. formula_true (hidden number) f.clauses ≡ true) }
{
    a_clause_is_a_set();
    truth_is_of_the_set();
    let mut generator = Lcg64Xsh32::new(number, STREAM);
    let values = lowest_bits(alloc, &mut generator, VARS as usize)?;
    let mut formula = Formula::new(alloc, VARS);
    for _i in 0..CLAUSES {
        let lits = draw_clause(&mut generator, &values);
        formula.push(Clause::from_lits(alloc, &lits)?)?;
    }
    Ok(formula)
}

/// The literals of the next clause, by four words of the generator.
fn draw_clause(generator: &mut Lcg64Xsh32, values: &Vec<bool>) -> [Lit; 3]
    requires { length values.now.items ≡ made_vars }
    ensures lits { result ≡ planted values.now.items (draw_of generator.old) }
    ensures rest { generator.new ≡ behind_draw generator.old }
{
    let first = generator.next_word() % VARS;
    let second = (first + 1 + generator.next_word() % 9999) % VARS;
    let third = (first + 10000 + generator.next_word() % 10000) % VARS;
    let signs = generator.next_word();
    mended(
        values,
        drawn_lit(first, signs),
        drawn_lit(second, signs / 2),
        drawn_lit(third, signs / 4),
        signs / 8 % 3,
    )
}

/// The literal on the variable after this one, negated if the last bit is 1.
fn drawn_lit(var: u32, bits: u32) -> Lit
    requires { var < made_vars }
    ensures { result ≡ drawn_lit var bits }
{
    Lit::new(var + 1, bits % 2 == 1)
}

/// The three literals, with that at this place negated if all are false.
fn mended(values: &Vec<bool>, a: Lit, b: Lit, c: Lit, place: u32) -> [Lit; 3]
    requires first { a.var ≤ length values.now.items }
    requires second { b.var ≤ length values.now.items }
    requires third { c.var ≤ length values.now.items }
    ensures { result ≡ mended values.now.items a b c place }
{
    if is_true(values, a) || is_true(values, b) || is_true(values, c) {
        return [a, b, c];
    }
    [
        turned_if(place == 0, a),
        turned_if(place == 1, b),
        turned_if(place == 2, c),
    ]
}

/// Whether the values make the literal true.
fn is_true(values: &Vec<bool>, lit: Lit) -> bool
    requires { lit.var ≤ length values.now.items }
    ensures { result ≡ lit_true values.now.items lit }
{
    values[lit.var() as usize - 1] != lit.is_neg()
}

/// The literal, negated if `turned` holds.
fn turned_if(turned: bool, lit: Lit) -> Lit
    ensures { result ≡ turned_if turned lit }
{
    if turned { lit.not() } else { lit }
}
