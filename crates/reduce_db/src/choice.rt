// Which lemmas are dropped.
ghost use Rattle.std.specs.Prelude.{◌≡◌, length, not, IfOk, map, filter, All, IsSome, Option};
ghost use Rattle.sat_words.specs.declared.shared.Cref.{Cref};
ghost use Rattle.ring_port.specs.PortState.{held_at};
ghost use Rattle.reduce_db.specs.declared.candidate.Candidate.{Candidate};
ghost use Rattle.reduce_db.specs.Lemmas.{AreDistinct};
ghost use Rattle.reduce_db.specs.Choice.{IsChoice};
ghost use Rattle.reduce_db.specs.Ranking.{is_dropped};

use crate::candidate::{Candidate, candidates_of, first_to_go};
use crate::reasons::reasons_of;
use ring_port::Port;
use ring_trail::Trail;
use sat_words::Cref;
use std::alloc::{AllocError, Global};

/// Lemmas that are kept and lemmas that are dropped, each in the order in which they stood.
#[derive(Drop)]
pub(crate) struct Choice {
    pub(crate) kept: Vec<Cref>,
    pub(crate) dropped: Vec<Cref>,
}

/// Chooses which of the lemmas are dropped.
pub(crate) fn choose<P: Port>(
    alloc: Global,
    port: &mut P,
    trail: &Trail,
    lemmas: &[Cref],
) -> Result<Choice, AllocError>
    requires held { All (λ (c : Cref). IsSome (held_at (P.state port.old) c.address)) lemmas.now }
    requires distinct { AreDistinct lemmas.now }
    ensures same { P.state port.new ≡ P.state port.old }
    ensures choice { IfOk result (λ choice. IsChoice (P.state port.old) trail.now.steps lemmas.now choice.kept.items choice.dropped.items) }
{
    let reasons = reasons_of(alloc, trail)?;
    let candidates = candidates_of(alloc, port, reasons.as_slice(), lemmas)?;
    let first = first_to_go(alloc, candidates.as_slice())?;
    let choice = split_off(alloc, lemmas, candidates.as_slice(), first)?;
    Ok(choice)
}

/// Parts the lemmas: those whose candidate isn't before the first that is dropped are dropped.
fn split_off(
    alloc: Global,
    lemmas: &[Cref],
    candidates: &[Option<Candidate>],
    first: Option<Candidate>,
) -> Result<Choice, AllocError>
    requires { length candidates.now ≡ length lemmas.now }
    ensures kept { IfOk result (λ choice. (f : Cref → Option Candidate) → candidates.now ≡ map f lemmas.now → choice.kept.items ≡ filter (λ c. not (is_dropped first (f c))) lemmas.now) }
    ensures dropped { IfOk result (λ choice. (f : Cref → Option Candidate) → candidates.now ≡ map f lemmas.now → choice.dropped.items ≡ filter (λ c. is_dropped first (f c)) lemmas.now) }
{
    let mut kept = Vec::new(alloc);
    let mut dropped = Vec::new(alloc);
    for (i, lemma) in lemmas.iter().enumerate() {
        if is_dropped(&first, &candidates[i]) {
            dropped.push(*lemma)?;
        } else {
            kept.push(*lemma)?;
        }
    }
    Ok(Choice { kept, dropped })
}

/// Whether a candidate is dropped, where the first that is stands so in order.
fn is_dropped(first: &Option<Candidate>, candidate: &Option<Candidate>) -> bool
    ensures { result ≡ is_dropped first.now candidate.now }
{
    match (first, candidate) {
        (Some(first), Some(candidate)) => !candidate.ranks_before(first),
        _ => false,
    }
}
