// The lines, if they are asked for.
ghost use Rattle.std.specs.Prelude.{◌≡◌, [], ◌∷◌, OnOk};
ghost use Rattle.std.specs.Option.{option_map};
ghost use Rattle.sat_words.specs.declared.line.Line.{Line};
ghost use Rattle.sat_words.specs.declared.line.Line.TheVariants.{Add, Del};
ghost use Rattle.drat_text.specs.LineState.{with_lines};
ghost use Rattle.log_book.specs.Kept.{IsReady};
ghost use Rattle.log_book.specs.Books.{no_line};

use sat_words::{Line, Lit, Lits};
use std::alloc::{AllocError, Global};
use std::marker::Model;

/// The lines if they are asked for, and a copy of the one that comes next. Elsewhere they take no memory.
#[derive(Drop)]
pub struct Kept {
    alloc: Global,
    lines: Option<Vec<Line>>,
    next: Option<Line>,
}

impl Model for Kept {
    ghost use Rattle.std.specs.Prelude.{◌-◌, vec_len, vec_capacity};
    ghost use Rattle.std.specs.Option.{option_map, unwrap_or};
    ghost use Rattle.log_book.specs.Kept.{KeptLines};

    ghost Value = { KeptLines };

    ghost view = { λ k. record { lines = option_map (λ v. v.items) k.lines; room = unwrap_or (option_map (λ v. vec_capacity v - vec_len v) k.lines) 1; next = k.next } };
}

impl Kept {
    /// No line yet.
    pub(crate) fn new(alloc: Global, asked: bool) -> Kept
        ensures { result.lines ≡ no_line asked }
    {
        Kept {
            alloc,
            lines: if asked { Some(Vec::new(alloc)) } else { None },
            next: None,
        }
    }

    /// Makes ready to keep the line that adds the clause.
    pub(crate) fn prepare_addition(&mut self, lits: &[Lit]) -> Result<(), AllocError>
        ensures same { self.new.lines ≡ self.old.lines }
        ensures ready { OnOk result (IsReady self.new (Add lits.now)) }
    {
        if let Some(lines) = &mut self.lines {
            lines.reserve(1)?;
            self.next = Some(Line::Add(Lits::from_slice(self.alloc, lits)?));
        }
        Ok(())
    }

    /// Makes ready to keep the line that deletes the clause.
    pub(crate) fn prepare_deletion(&mut self, lits: &[Lit]) -> Result<(), AllocError>
        ensures same { self.new.lines ≡ self.old.lines }
        ensures ready { OnOk result (IsReady self.new (Del lits.now)) }
    {
        if let Some(lines) = &mut self.lines {
            lines.reserve(1)?;
            self.next = Some(Line::Del(Lits::from_slice(self.alloc, lits)?));
        }
        Ok(())
    }

    /// Keeps the line that comes next, after the others.
    pub(crate) fn keep(&mut self)
        requires { (x : Line) × IsReady self.old x }
        ensures { (x : Line) → IsReady self.old x → self.new.lines ≡ with_lines self.old.lines (x ∷ []) }
    {
        if let Some(lines) = &mut self.lines {
            if let Some(line) = self.next.take() {
                lines.push_reserved(line);
            }
        }
    }

    /// The lines.
    pub(crate) fn into_lines(self) -> Option<Vec<Line>>
        ensures { option_map (λ v. v.items) result ≡ self.lines }
    {
        let Kept { lines, .. } = self;
        lines
    }
}
