// Vivification of one clause.
ghost use Rattle.std.specs.Prelude.{◌≡◌, ◌≢◌, ℕ, ◌≤◌, ◌-◌, min, true, Ok, IfOk, IfErr, OnOk, IsSome, Contains};
ghost use Rattle.sat_words.specs.Literal.{Literal};
ghost use Rattle.ring_port.specs.PortState.{IsPort, held_at, lits_at};
ghost use Rattle.ring_port.specs.Log.{KeepsLog};
ghost use Rattle.ring_port.specs.Port.{is_usable};
ghost use Rattle.ring_trail.specs.TrailData.{IsFalseOn};
ghost use Rattle.watch_prop.specs.WatchData.{attached};
ghost use Rattle.watch_prop.specs.Watched.{Watched};
ghost use Rattle.watch_prop.specs.Propagation.{HasReasons, IsQuiet};
ghost use Rattle.ring_port.specs.Deleting.{IsNotTaken};
ghost use Rattle.vivify.specs.Walking.{IsNoReason};
ghost use Rattle.vivify.specs.Outcome.{IsVivified, WasCutShort};

use crate::walk::literals_left;
use analyze::Analysis;
use ring_port::{Port, PortStop};
use ring_trail::Trail;
use sat_words::{Cref, Lit};
use std::alloc::Global;
use watch_prop::Watches;

/// What became of a clause.
#[derive(Clone, Copy)]
pub enum Vivified {
    /// All its literals are left.
    Kept,
    /// A shorter clause took its place.
    Shorter(Cref),
    /// One literal is left.
    Unit(Lit),
    /// No literal is left.
    Empty,
}

/// Leaves those literals of an attached clause out that aren't needed. At level 0, with nothing left to propagate, and so it
/// is afterwards. A literal that is left alone may be true already; else the caller makes it true.
///
/// If a call of the port is refused, what those before it did stays, and nothing is known of the watches and the trail.
pub fn vivify<P: Port>(
    alloc: Global,
    port: &mut P,
    watches: &mut Watches,
    trail: &mut Trail,
    analysis: &mut Analysis,
    c: Cref,
) -> Result<Vivified, PortStop>
    requires level { trail.old.level ≡ 0 }
    requires quiet { IsQuiet watches.old (lits_at (P.state port.old)) trail.old }
    requires watched { Watched watches.old (lits_at (P.state port.old)) trail.old }
    requires reasons { HasReasons (attached watches.old) (P.state port.old) trail.old.steps }
    requires member { Contains (attached watches.old) c }
    requires held { IsSome (held_at (P.state port.old) c.address) }
    requires vars { (P.state port.old).vars ≡ watches.old.vars }
    requires free { IsNoReason (P.state port.old) trail.old.steps c.address }
    requires usable { is_usable (P.state port.old).refused ≡ true }
    requires apart { IsNotTaken (P.state port.old) c.address }
    requires analysis { analysis.old.vars ≡ trail.old.vars }
    ensures analysis { analysis.new.vars ≡ analysis.old.vars }
    ensures trail { OnOk result (trail.new ≡ trail.old) }
    ensures vivified { IfOk result (IsVivified (P.state port.old) (P.state port.new) watches.old watches.new trail.old.steps c) }
    ensures never_empty { IfOk result (λ left. left ≢ Vivified.Empty) }
    ensures open_unit { (l : Literal) → result ≡ Ok (Vivified.Unit l) → IsFalseOn trail.old.steps l → ⊥ }
    ensures watched { OnOk result (Watched watches.new (lits_at (P.state port.new)) trail.new) }
    ensures reasons { OnOk result (HasReasons (attached watches.new) (P.state port.new) trail.new.steps) }
    ensures quiet { OnOk result (IsQuiet watches.new (lits_at (P.state port.new)) trail.new) }
    ensures vars { OnOk result (watches.new.vars ≡ watches.old.vars) }
    ensures others { (a : ℕ) → a ≢ c.address → IsSome (held_at (P.state port.old) a) → held_at (P.state port.new) a ≡ held_at (P.state port.old) a }
    ensures stopped { IfErr result (WasCutShort (P.state port.old) (P.state port.new) watches.old trail.old.steps c) }
    ensures log { KeepsLog (P.state port.old) (P.state port.new) }
    ensures port { IsPort (P.state port.new) }
{
    let _lawful = trail.decision_level();
    let head = port.head(c);
    let Ok(left) = literals_left(alloc, port, watches, trail, analysis, c) else {
        return Err(PortStop::Memory);
    };
    let lits = left.as_slice();
    if lits.len() == head.size as usize {
        return Ok(Vivified::Kept);
    }
    watches.detach(port, c);
    match lits {
        [] => Ok(Vivified::Empty),
        [lit] => {
            port.unit(*lit, analysis.hints())?;
            port.drop_clause(c)?;
            Ok(Vivified::Unit(*lit))
        }
        _ => {
            let glue = shorter_glue(head.glue, lits.len());
            let shorter = port.derive(lits, glue, analysis.hints())?;
            match watches.attach(port, trail, shorter) {
                Ok(()) => {}
                Err(_) => return Err(PortStop::Memory),
            }
            port.drop_clause(c)?;
            Ok(Vivified::Shorter(shorter))
        }
    }
}

/// The glue of a shorter clause: the old one, or one less than its size if that is smaller.
fn shorter_glue(glue: u32, size: usize) -> u32
    requires { 1 ≤ size }
    ensures { result ≡ min glue (size - 1) }
{
    if (glue as usize) < size {
        glue
    } else {
        (size - 1) as u32
    }
}
