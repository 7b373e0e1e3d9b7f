// Lemmas that may be dropped, and the first of them that is.
ghost use Rattle.std.specs.Prelude.{◌≡◌, ◌-◌, ◌/◌, IfOk, length, map, slice_get, All, IsSome, List};
ghost use Rattle.sat_words.specs.declared.shared.Cref.{Cref};
ghost use Rattle.ring_port.specs.PortState.{held_at};
ghost use Rattle.ring_trail.specs.declared.step.TrailStep.{TrailStep};
ghost use Rattle.reduce_db.specs.Ranking.{AreReasons, AreSpread, IsHalf, candidate_of, only_some, ranks_before};

use crate::reasons::has_reason;
use ring_port::Port;
use sat_words::Cref;
use std::alloc::{AllocError, Global};

/// A lemma that may be dropped. Those that are kept first come first: by glue, size and number.
#[derive(Clone, Copy, PartialEq, Eq, PartialOrd, Ord)]
pub(crate) struct Candidate {
    pub(crate) glue: u32,
    pub(crate) size: u32,
    pub(crate) number: u64,
    pub(crate) address: u64,
}

impl Candidate {
    /// Whether it is kept before the other one.
    pub(crate) fn ranks_before(&self, other: &Candidate) -> bool
        ensures { result ≡ ranks_before self.now other.now }
    {
        self.cmp(other).is_lt()
    }
}

/// The lemma as a candidate, if it may be dropped. The reasons' addresses are in order.
fn candidate_of<P: Port>(port: &mut P, reasons: &[u64], c: Cref) -> Option<Candidate>
    requires held { IsSome (held_at (P.state port.old) c.address) }
    requires reasons { (steps : List TrailStep) × AreReasons steps reasons.now }
    ensures same { P.state port.new ≡ P.state port.old }
    ensures candidate { (steps : List TrailStep) → AreReasons steps reasons.now → result ≡ candidate_of (P.state port.old) steps c }
{
    let head = port.head(c);
    if head.size <= 2 || head.glue <= 2 || has_reason(reasons, c.address) {
        return None;
    }
    Some(Candidate {
        glue: head.glue,
        size: head.size,
        number: head.number,
        address: c.address,
    })
}

/// The lemmas as candidates.
pub(crate) fn candidates_of<P: Port>(
    alloc: Global,
    port: &mut P,
    reasons: &[u64],
    lemmas: &[Cref],
) -> Result<Vec<Option<Candidate>>, AllocError>
    requires held { All (λ (c : Cref). IsSome (held_at (P.state port.old) c.address)) lemmas.now }
    requires reasons { (steps : List TrailStep) × AreReasons steps reasons.now }
    ensures same { P.state port.new ≡ P.state port.old }
    ensures candidates { IfOk result (λ found. (steps : List TrailStep) → AreReasons steps reasons.now → found.items ≡ map (candidate_of (P.state port.old) steps) lemmas.now) }
{
    let mut candidates = Vec::new(alloc);
    for c in lemmas {
        let candidate = candidate_of(port, reasons, *c);
        candidates.push(candidate)?;
    }
    Ok(candidates)
}

/// The first candidate in order that is dropped, if the last half of them are.
pub(crate) fn first_to_go(
    alloc: Global,
    candidates: &[Option<Candidate>],
) -> Result<Option<Candidate>, AllocError>
    requires { AreSpread (only_some candidates.now) }
    ensures { IfOk result (IsHalf (only_some candidates.now)) }
{
    let mut in_order = Vec::new(alloc);
    for candidate in candidates {
        match candidate {
            Some(candidate) => in_order.push(*candidate)?,
            None => {}
        }
    }
    in_order.sort_unstable();
    Ok(first_of_last_half(in_order.as_slice()))
}

/// The first of the last half, rounded down.
fn first_of_last_half(in_order: &[Candidate]) -> Option<Candidate>
    ensures { result ≡ slice_get in_order.now (length in_order.now - length in_order.now / 2) }
{
    in_order.get(in_order.len() - in_order.len() / 2).copied()
}
