//! Lemmas of a ring that are copies of one start clause, and their reduction.
ghost use Rattle.std.specs.Prelude.{◌≡◌, ◌++◌, true, All, IfOk, IsSome, OnOk, map};
ghost use Rattle.sat_words.specs.declared.shared.Cref.{Cref};
ghost use Rattle.ring_port.specs.PortState.{held_at};
ghost use Rattle.ring_port.specs.Port.{is_usable, KeepsHeld};
ghost use Rattle.test_ring.specs.Glues.{glue_at};
ghost use Rattle.test_ring.specs.ReductionRow.{row_starts, IsRow, HasLemmas, AddedLemma, ReducedFive};

use reduce_db::reduce;
use ring_port::{Port, Starts};
use ring_trail::Trail;
use sat_words::{Cref, Lit};
use std::alloc::{AllocError, Global};
use std::test::Fail;
use watch_prop::Watches;

/// `1 2 3`, the one clause of its formula.
pub fn one_start(alloc: Global) -> Result<Starts, AllocError>
    ensures { IfOk result (λ starts. starts ≡ row_starts) }
{
    let mut starts = Starts::new(alloc);
    starts.push(
        1,
        &[Lit::new(1, false), Lit::new(2, false), Lit::new(3, false)],
    )?;
    Ok(starts)
}

/// Attaches a copy of the start clause of this glue, as a lemma.
pub fn add_lemma<P: Port>(
    port: &mut P,
    watches: &mut Watches,
    trail: &Trail,
    lemmas: &mut Vec<Cref>,
    glue: u32,
) -> Result<(), Fail>
    requires { HasLemmas (P.state port.old) watches.old trail.now lemmas.old.items }
    ensures lemmas { OnOk result (HasLemmas (P.state port.new) watches.new trail.now lemmas.new.items) }
    ensures added { OnOk result (AddedLemma (P.state port.old) (P.state port.new) watches.old watches.new lemmas.old.items lemmas.new.items glue) }
    ensures kept { OnOk result (KeepsHeld (P.state port.old) (P.state port.new)) }
{
    let lits = [Lit::new(1, false), Lit::new(2, false), Lit::new(3, false)];
    let Ok(copy) = port.derive(&lits, glue, &[]) else {
        return Err("no copy".into());
    };
    watches.attach(port, trail, copy)?;
    lemmas.push(copy)?;
    Ok(())
}

/// Attaches a copy of each of these glues.
pub fn add_lemmas<P: Port>(
    port: &mut P,
    watches: &mut Watches,
    trail: &Trail,
    lemmas: &mut Vec<Cref>,
    glues: &[u32],
) -> Result<(), Fail>
    requires { HasLemmas (P.state port.old) watches.old trail.now lemmas.old.items }
    ensures lemmas { OnOk result (HasLemmas (P.state port.new) watches.new trail.now lemmas.new.items) }
    ensures glues { OnOk result (map (glue_at (P.state port.new)) lemmas.new.items ≡ map (glue_at (P.state port.old)) lemmas.old.items ++ glues.now) }
{
    for glue in glues {
        add_lemma(port, watches, trail, lemmas, *glue)?;
    }
    Ok(())
}

/// The glues of clauses that are held.
pub fn glues_of<P: Port>(
    alloc: Global,
    port: &mut P,
    lemmas: &[Cref],
) -> Result<Vec<u32>, AllocError>
    requires { All (λ (c : Cref). IsSome (held_at (P.state port.old) c.address)) lemmas.now }
    ensures glues { IfOk result (λ glues. glues.items ≡ map (glue_at (P.state port.old)) lemmas.now) }
    ensures same { P.state port.new ≡ P.state port.old }
{
    let mut glues = Vec::new(alloc);
    for c in lemmas {
        glues.push(port.head(*c).glue)?;
    }
    Ok(glues)
}

/// The glues of the lemmas that are left of five.
pub fn reduce_five<P: Port>(alloc: Global, port: &mut P) -> Result<Vec<u32>, Fail>
    requires { IsRow (P.state port.old) }
    ensures usable { OnOk result (is_usable (P.state port.new).refused ≡ true) }
    ensures reduced { IfOk result (λ glues. ReducedFive (P.state port.new) glues.items) }
{
    let mut watches = Watches::new(alloc, 3)?;
    let trail = Trail::new(alloc, 3)?;
    let mut lemmas = Vec::new(alloc);
    add_lemmas(port, &mut watches, &trail, &mut lemmas, &[9, 3, 5, 3, 4])?;
    match reduce(alloc, port, &mut watches, &trail, &mut lemmas) {
        Ok(()) => {}
        Err(_) => return Err("a refusal".into()),
    }
    let glues = glues_of(alloc, port, lemmas.as_slice())?;
    Ok(glues)
}
