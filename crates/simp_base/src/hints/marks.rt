// A set of literals, kept by code, that is empty again in time of what was put into it.
ghost use Rattle.std.specs.Prelude.{◌≡◌, ◌||◌, ◌&&◌, not, false, OnOk, OnErr, IfOk};
ghost use Rattle.sat_words.specs.Literal.{Literal, same};
ghost use Rattle.sat_words.specs.Clause.{has};
ghost use Rattle.simp_base.specs.Collecting.{marked};

use sat_words::Lit;
use std::alloc::AllocError;

/// Whether the literal is marked.
pub(crate) fn is_marked(marks: &[bool], lit: Lit) -> bool
    ensures { result ≡ marked marks.now lit }
{
    matches!(marks.get(lit.code() as usize), Some(true))
}

/// Marks the literal. After an error all marks are as they were.
pub(crate) fn mark(marks: &mut Vec<bool>, lit: Lit) -> Result<(), AllocError>
    ensures ok { OnOk result ((l : Literal) → marked marks.new.items l ≡ (same lit l || marked marks.old.items l)) }
    ensures err { OnErr result (marks.new.items ≡ marks.old.items) }
{
    let code = lit.code() as usize;
    if marks.len() <= code {
        marks.resize(code + 1, false)?;
    }
    marks[code] = true;
    Ok(())
}

/// Takes the mark of the literal away.
pub(crate) fn unmark(marks: &mut Vec<bool>, lit: Lit)
    ensures { (l : Literal) → marked marks.new.items l ≡ (not (same lit l) && marked marks.old.items l) }
{
    let code = lit.code() as usize;
    if code < marks.len() {
        marks[code] = false;
    }
}

/// Takes the marks of all these literals away.
pub(crate) fn unmark_all(marks: &mut Vec<bool>, lits: &[Lit])
    ensures { (l : Literal) → marked marks.new.items l ≡ (not (has lits.now l) && marked marks.old.items l) }
{
    for lit in lits {
        unmark(marks, *lit);
    }
}
