// A reader, which takes a text byte by byte.
ghost use Rattle.std.specs.Prelude.{◌≡◌, ◌+◌, ◌<◌, ◌≤◌, ◌^◌, ◌∷◌, [], List, ℕ, length, Ok, OnOk, IfOk, IfErr};
ghost use Rattle.dimacs_read.specs.Grammar.{outcome};
ghost use Rattle.dimacs_read.specs.Body.{IsLawful};
ghost use Rattle.dimacs_read.specs.Input.{IsInRange};
ghost use Rattle.dimacs_read.specs.Reader.{meaning, Takes, Halts, Closes, FailsHere, Replies, Answers, FoundLate, FoundBy};

use crate::body::Body;
use crate::bytes::{is_separator, kind_of};
use crate::header::header_of;
use crate::spot::State;
use crate::spots::next_state;
use crate::stop::{Code, Halt, ReadStop};
use sat_words::Formula;
use std::alloc::Global;

/// Where a reader stands, and what it has read.
#[derive(Drop)]
pub(crate) struct Reader {
    /// How many newlines were taken.
    pub newlines: u64,
    pub spot: State,
    pub body: Body,
}

impl Reader {
    /// A reader at the front of a text.
    pub fn new(alloc: Global) -> Reader
        ensures meaning { (text : List ℕ) → meaning result text ≡ outcome text }
        ensures lawful { IsLawful result.body }
        ensures newlines { result.newlines ≡ 0 }
    {
        Reader {
            newlines: 0,
            spot: State::Preamble,
            body: Body {
                clauses: 0,
                formula: Formula::new(alloc, 0),
                begun: Vec::new(alloc),
            },
        }
    }

    /// Takes the next byte.
    fn take_byte(&mut self, alloc: Global, byte: u8) -> Result<(), Halt>
        requires lawful { IsLawful self.old.body }
        requires room { self.old.newlines + 1 < 2 ^ 64 }
        ensures ok { OnOk result (Takes self.old (byte ∷ []) self.new) }
        ensures stops { IfErr result (λ stop. Halts self.old (byte ∷ []) stop self.new) }
        ensures few { self.new.newlines ≤ self.old.newlines + 1 }
    {
        let kind = kind_of(byte);
        let spot = next_state(alloc, self.spot, &mut self.body, byte, kind)?;
        self.spot = spot;
        if byte == b'\n' {
            self.newlines += 1;
        }
        Ok(())
    }

    /// Takes the bytes, one after another, up to one that stops it.
    pub fn take_bytes(&mut self, alloc: Global, bytes: &[u8]) -> Result<(), Halt>
        requires lawful { IsLawful self.old.body }
        requires room { self.old.newlines + length bytes.now < 2 ^ 64 }
        ensures ok { OnOk result (Takes self.old bytes.now self.new) }
        ensures stops { IfErr result (λ stop. Halts self.old bytes.now stop self.new) }
        ensures few { self.new.newlines ≤ self.old.newlines + length bytes.now }
    {
        for byte in bytes {
            self.take_byte(alloc, *byte)?;
        }
        Ok(())
    }

    /// The answer where no more bytes are taken.
    pub fn answer(self, stop: Halt) -> Result<Formula, ReadStop>
        requires room { self.newlines + 1 < 2 ^ 64 }
        ensures { Replies stop self result }
    {
        match stop {
            Halt::Bad(code) => Err(ReadStop::Bad {
                code,
                line: self.newlines + 1,
            }),
            Halt::Done => Ok(self.body.formula),
            Halt::Memory => Err(ReadStop::Memory),
        }
    }

    /// Takes the end of the input as the end of the last token, or of the header line.
    fn close_token(&mut self, alloc: Global) -> Result<(), Halt>
        requires { IsLawful self.old.body }
        ensures ok { OnOk result (Closes self.old self.new) }
        ensures newlines { self.new.newlines ≡ self.old.newlines }
        ensures fails { IfErr result (λ stop. FailsHere self.old stop) }
    {
        match self.spot {
            State::Preamble | State::PreambleComment => Err(Halt::Bad(Code::NoHeader)),
            State::Header(spot) => match header_of(spot) {
                Ok(header) => {
                    self.body = Body::new(alloc, header);
                    Ok(())
                }
                Err(code) => Err(Halt::Bad(code)),
            },
            State::Line | State::Comment | State::Gap => Ok(()),
            State::Minus => Err(Halt::Bad(Code::BadToken)),
            State::Number(neg, value) => self.body.take_integer(alloc, neg, value),
        }
    }

    /// Takes the end of the input.
    fn close(&mut self, alloc: Global) -> Result<(), Halt>
        requires { IsLawful self.old.body }
        ensures ok { OnOk result ((meaning self.old [] ≡ Ok self.new.body.formula) × IsLawful self.new.body) }
        ensures newlines { self.new.newlines ≡ self.old.newlines }
        ensures fails { IfErr result (λ stop. FailsHere self.old stop) }
    {
        self.close_token(alloc)?;
        match self.body.check_end() {
            Ok(()) => Ok(()),
            Err(code) => Err(Halt::Bad(code)),
        }
    }

    /// The formula of a text that ends here.
    pub fn finish(mut self, alloc: Global) -> Result<Formula, ReadStop>
        requires lawful { IsLawful self.body }
        requires room { self.newlines + 1 < 2 ^ 64 }
        ensures found { Answers result (λ found. meaning self [] ≡ found) }
        ensures range { IfOk result IsInRange }
    {
        match self.close(alloc) {
            Ok(()) => Ok(self.body.formula),
            Err(stop) => self.answer(stop),
        }
    }

    /// The answer at the first byte after the limit. Where it ends a token, that token comes first.
    fn finish_long(mut self, alloc: Global, byte: u8) -> Result<Formula, ReadStop>
        requires lawful { IsLawful self.body }
        requires room { self.newlines + 2 < 2 ^ 64 }
        ensures found { Answers result (FoundLate self byte) }
        ensures range { IfOk result IsInRange }
    {
        let limit = Err(ReadStop::Bad {
            code: Code::Limit,
            line: self.newlines + 1,
        });
        if is_separator(byte) {
            match self.take_byte(alloc, byte) {
                Ok(()) => limit,
                Err(stop) => self.answer(stop),
            }
        } else {
            limit
        }
    }

    /// The answer where these bytes come up to the limit, and then a further one.
    pub fn finish_at(mut self, alloc: Global, bytes: &[u8], byte: u8) -> Result<Formula, ReadStop>
        requires lawful { IsLawful self.body }
        requires room { self.newlines + length bytes.now + 2 < 2 ^ 64 }
        ensures found { Answers result (FoundBy self bytes.now byte) }
        ensures range { IfOk result IsInRange }
    {
        match self.take_bytes(alloc, bytes) {
            Ok(()) => self.finish_long(alloc, byte),
            Err(stop) => self.answer(stop),
        }
    }
}
