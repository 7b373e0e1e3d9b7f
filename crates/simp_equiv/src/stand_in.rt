// Literals, and the clauses that hold them, by the table of what stands for each.
ghost use Rattle.std.specs.Prelude.{◌≡◌, ◌++◌, ◌∷◌, [], All, OnOk, IfErr, map};
ghost use Rattle.std.specs.List.{list_any};
ghost use Rattle.simp_equiv.specs.Tables.{stand_in, CanStand};
ghost use Rattle.sat_words.specs.Clause.{InOrder};
ghost use Rattle.simp_base.specs.Parts.{takes_part};
ghost use Rattle.simp_equiv.specs.Replacements.{is_moved, is_replaced};

use drat_text::LineStop;
use sat_words::{Clause, Lit};
use simp_base::takes_part;

/// What stands for the literal.
pub(crate) fn stand_in(table: &[usize], lit: Lit) -> Lit
    requires { CanStand table.now lit }
    ensures { result ≡ stand_in table.now lit }
{
    let _var = lit.var();
    let code = table[lit.code() as usize];
    Lit::new((code / 2) as u32, code % 2 == 1)
}

/// Whether another literal stands for one of these.
fn has_moved(table: &[usize], lits: &[Lit]) -> bool
    requires { All (CanStand table.now) lits.now }
    ensures { result ≡ list_any (is_moved (stand_in table.now)) lits.now }
{
    for lit in lits {
        if stand_in(table, *lit) != *lit {
            return true;
        }
    }
    false
}

/// Whether the clause is to be replaced: it has two literals or more, is no tautology, and another literal stands for one
/// of its own.
pub(crate) fn is_replaced(table: &[usize], clause: &Clause) -> bool
    requires { All (CanStand table.now) clause.now }
    ensures is { result ≡ is_replaced (stand_in table.now) clause.now }
    ensures ordered { InOrder clause.now }
{
    takes_part(clause) && has_moved(table, clause.lits())
}

fn push(lits: &mut Vec<Lit>, lit: Lit) -> Result<(), LineStop>
    ensures ok { OnOk result (lits.new.items ≡ lits.old.items ++ lit ∷ []) }
    ensures memory { IfErr result (λ stop. stop ≡ LineStop.Memory) }
{
    match lits.push(lit) {
        Ok(()) => Ok(()),
        Err(_) => Err(LineStop::Memory),
    }
}

/// Puts what stands for each of the literals in the place of what `replaced` has.
pub(crate) fn replace_all(
    table: &[usize],
    lits: &[Lit],
    replaced: &mut Vec<Lit>,
) -> Result<(), LineStop>
    requires { All (CanStand table.now) lits.now }
    ensures ok { OnOk result (replaced.new.items ≡ map (stand_in table.now) lits.now) }
    ensures memory { IfErr result (λ stop. stop ≡ LineStop.Memory) }
{
    replaced.clear();
    for lit in lits {
        push(replaced, stand_in(table, *lit))?;
    }
    Ok(())
}
