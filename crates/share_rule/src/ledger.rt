//! What the rule knows of the book of the log.
ghost use Rattle.std.specs.Prelude.{◌≡◌, false, List};
ghost use Rattle.sat_words.specs.Literal.{Literal};
ghost use Rattle.clause_cell.specs.Free.{len_from};
ghost use Rattle.rup_model.specs.declared.journal.Entry.{Entry};
ghost use Rattle.share_rule.specs.declared.Layout.{Layout};
ghost use Rattle.share_rule.specs.declared.view.BookOrigin.{BookOrigin};

use clause_cell::Holes;

/// A book that lies in the table's slot while the turn is free. What it accounts for is compared with the journal.
pub trait Ledger {
    ghost use Rattle.std.specs.Prelude.{List};
    ghost use Rattle.sat_words.specs.Literal.{Literal};
    ghost use Rattle.rup_model.specs.declared.journal.Entry.{Entry};
    ghost use Rattle.share_rule.specs.declared.Layout.{Layout};
    ghost use Rattle.share_rule.specs.declared.view.BookOrigin.{BookOrigin};
    ghost use Rattle.share_rule.specs.Books.{Account};

    /// How many entries it has, the last number given, its state, the free words, and its lines if it keeps them.
    ghost account: { Self → Account };

    /// How it spells its lines, what its sink tells, and whether it keeps the lines.
    ghost origin: { Self → BookOrigin };

    /// Since this origin its sink has come to stand for this formula and the lines of this journal.
    ghost stands: { Self → BookOrigin → Layout → List (List Literal) → List Entry → Type 0 };

    /// How many entries stand in the log.
    fn entries(&self) -> u64
        ensures { result ≡ (account self.now).entries };

    /// Whether a write of it has failed.
    fn is_broken(&self) -> bool
        ensures { result ≡ (account self.now).broken };

    /// The length of the longest run of free words that begins at this word, if one does.
    fn hole_from(&self, first: u64) -> Option<u64>
        ensures { result ≡ len_from first (account self.now).holes };

    /// Takes the words that are free for cells. From here on it says whether the log is ended, which it is not.
    fn with_holes(self, holes: Holes) -> Self
        ensures account { account result ≡ record (account self) { ended = false; holes = holes } }
        ensures origin { origin result ≡ origin self }
        ensures sink { (w : BookOrigin) (l : Layout) (F : List (List Literal)) (J : List Entry) → stands self w l F J → stands result w l F J };
}
