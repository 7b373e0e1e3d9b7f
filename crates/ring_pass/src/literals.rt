// The literals of a clause, read while it is held.
ghost use Rattle.std.specs.Prelude.{◌≡◌, ◌≤◌, [], length, vec_capacity};
ghost use Rattle.share_rule.specs.Passes.{IsPassOf, IsSamePass};
ghost use Rattle.share_rule.specs.Views.{IsHolding, clause_of};
ghost use Rattle.ring_pass.specs.Looks.{OnlyLooked};

use ref_count::read_lit;
use sat_words::{Cref, Lit};
use share_rule::{Ledger, Pass, Shared};

/// Reads the literals of a clause that is held into a buffer that has room.
pub(crate) fn read_clause<B: Ledger>(
    table: &Shared<B>,
    pass: &mut Pass<B>,
    cell: Cref,
    size: u32,
    out: &mut Vec<Lit>,
)
    requires pass { IsPassOf table.now pass.old }
    requires held { IsHolding cell.address pass.old.me.0 }
    requires size { size ≡ length (clause_of cell.address pass.old.me.0).lits }
    requires empty { out.old.items ≡ [] }
    requires room { size ≤ vec_capacity out.old }
    ensures pass { IsPassOf table.now pass.new × IsSamePass pass.old pass.new }
    ensures looked { OnlyLooked pass.old.me.0 pass.new.me.0 }
    ensures lits { out.new.items ≡ (clause_of cell.address pass.old.me.0).lits }
    ensures capacity { vec_capacity out.new ≡ vec_capacity out.old }
{
    for i in 0..size {
        let lit = read_lit(table, pass, cell, i);
        out.push_reserved(lit);
    }
}
