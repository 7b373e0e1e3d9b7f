// The spelling of a line in binary DRAT.
ghost use Rattle.std.specs.Prelude.{◌≡◌, ◌<◌, ◌++◌, ◌∷◌, [], length, OnOk, IfErr, MatchResult};
ghost use Rattle.io_edge.specs.Bytes.{GrowsBy};
ghost use Rattle.io_edge.specs.Causes.{HasCause};
ghost use Rattle.drat_text.specs.Binary.{lits_bytes, marked_bytes, line_bytes};
ghost use Rattle.drat_text.specs.Cut.{WasCut};
ghost use Rattle.drat_text.specs.Gathered.{Gathers, Breaks};
ghost use Rattle.drat_text.specs.declared.blocks.TheConstants.{BLOCK};

use crate::blocks::Blocks;
use crate::groups::{Groups, MOST};
use crate::piece::Piece;
use io_edge::{Failed, Sink, WriteStop};
use sat_words::{Line, Lit};

/// Begins the line of a clause that is added.
pub(crate) const ADDED: u8 = b'a';

/// Begins the line of a clause that is deleted.
pub(crate) const DELETED: u8 = b'd';

/// The most bytes of a literal and of the end.
const WORD: usize = 6;

impl<S: Sink> Blocks<S> {
    /// Puts the whole line, in one go if it has room at its longest.
    pub(crate) fn put_marked(&mut self, mark: u8, lits: &[Lit]) -> Result<(), Failed>
        requires room { length self.old.waiting < BLOCK }
        ensures { MatchResult result (λ _. Gathers S.written S.flushed S.target S.faults self.old self.new (marked_bytes mark lits.now)) (λ _. Breaks S.written S.flushed S.target S.faults self.old self.new (marked_bytes mark lits.now)) }
    {
        if lits.len() < self.room() / MOST {
            self.push_marked(mark, lits);
            return Ok(());
        }
        match self.append(&[mark]) {
            Ok(()) => self.put_codes(lits),
            Err(Failed) => Err(Failed),
        }
    }

    fn put_codes(&mut self, lits: &[Lit]) -> Result<(), Failed>
        requires room { length self.old.waiting < BLOCK }
        ensures { MatchResult result (λ _. Gathers S.written S.flushed S.target S.faults self.old self.new (lits_bytes lits.now ++ 0 ∷ [])) (λ _. Breaks S.written S.flushed S.target S.faults self.old self.new (lits_bytes lits.now ++ 0 ∷ [])) }
    {
        match self.append_codes(lits) {
            Ok(()) => self.append(&[0]),
            Err(Failed) => Err(Failed),
        }
    }

    /// Puts the groups of the literals' codes, one literal after the other. One of them may fill a block.
    fn append_codes(&mut self, lits: &[Lit]) -> Result<(), Failed>
        requires room { length self.old.waiting < BLOCK }
        ensures { MatchResult result (λ _. Gathers S.written S.flushed S.target S.faults self.old self.new (lits_bytes lits.now)) (λ _. Breaks S.written S.flushed S.target S.faults self.old self.new (lits_bytes lits.now)) }
    {
        for lit in lits {
            match self.append(Groups::of(lit.code()).as_slice()) {
                Ok(()) => {}
                Err(Failed) => return Err(Failed),
            }
        }
        Ok(())
    }
}

/// Writes the line in binary DRAT, and does not flush. It takes no memory.
///
/// The bytes go to the sink in pieces of at most 4096. At `WriteStop` the sink failed and has exactly the first `taken`
/// bytes of the line, which are not all of it.
pub fn put_binary<S: Sink>(sink: &mut S, line: &Line) -> Result<(), WriteStop>
    ensures all { OnOk result (GrowsBy (S.written sink.old) (S.written sink.new) (line_bytes line.now)) }
    ensures part { IfErr result (λ stop. WasCut (S.written sink.old) (S.written sink.new) (line_bytes line.now) stop.taken) }
    ensures cause { HasCause (S.faults sink.old) (S.faults sink.new) result }
    ensures flushed { S.flushed sink.new ≡ S.flushed sink.old }
    ensures target { S.target sink.new ≡ S.target sink.old }
{
    match line {
        Line::Add(lits) => put_marked_to(sink, ADDED, lits.as_slice()),
        Line::Del(lits) => put_marked_to(sink, DELETED, lits.as_slice()),
    }
}

fn put_marked_to<S: Sink>(sink: &mut S, mark: u8, lits: &[Lit]) -> Result<(), WriteStop>
    ensures all { OnOk result (GrowsBy (S.written sink.old) (S.written sink.new) (marked_bytes mark lits.now)) }
    ensures part { IfErr result (λ stop. WasCut (S.written sink.old) (S.written sink.new) (marked_bytes mark lits.now) stop.taken) }
    ensures cause { HasCause (S.faults sink.old) (S.faults sink.new) result }
    ensures flushed { S.flushed sink.new ≡ S.flushed sink.old }
    ensures target { S.target sink.new ≡ S.target sink.old }
{
    let mut piece = Piece::new();
    piece.push_bytes(&[mark]);
    let mut taken = 0;
    for lit in lits {
        if !piece.has_room(WORD) {
            taken = piece.write_to(sink, taken)?;
        }
        piece.push_bytes(Groups::of(lit.code()).as_slice());
    }
    piece.push_bytes(&[0]);
    piece.write_to(sink, taken)?;
    Ok(())
}
