//! A copy of a start clause that is vivified.
ghost use Rattle.std.specs.Prelude.{◌≡◌, true, IfOk, OnOk};
ghost use Rattle.ring_port.specs.Port.{is_usable};
ghost use Rattle.test_ring.specs.VivificationRow.{row_starts, IsRow, VivifiedCopy};

use analyze::Analysis;
use ring_port::{Port, Starts};
use ring_trail::Trail;
use sat_words::{Cref, Lit};
use std::alloc::{AllocError, Global};
use std::test::Fail;
use vivify::{Vivified, vivify};
use watch_prop::{Propagated, Watches};

/// `1 -3` and `1 2 3`, the clauses 1 and 2 of their formula.
pub fn two_starts(alloc: Global) -> Result<Starts, AllocError>
    ensures { IfOk result (λ starts. starts ≡ row_starts) }
{
    let one = Lit::new(1, false);
    let three = Lit::new(3, false);
    let mut starts = Starts::new(alloc);
    starts.push(1, &[one, three.not()])?;
    starts.push(2, &[one, Lit::new(2, false), three])?;
    Ok(starts)
}

/// Vivifies a copy of the second clause, of glue 2, if it and the first one are attached.
pub fn vivify_copy<P: Port>(alloc: Global, port: &mut P) -> Result<Vivified, Fail>
    requires { IsRow (P.state port.old) }
    ensures usable { OnOk result (is_usable (P.state port.new).refused ≡ true) }
    ensures vivified { IfOk result (VivifiedCopy (P.state port.old) (P.state port.new)) }
{
    let lits = [Lit::new(1, false), Lit::new(2, false), Lit::new(3, false)];
    let Ok(copy) = port.derive(&lits, 2, &[]) else {
        return Err("no copy".into());
    };
    let mut watches = Watches::new(alloc, 3)?;
    let mut trail = Trail::new(alloc, 3)?;
    watches.attach(port, &trail, Cref { address: 0 })?;
    watches.attach(port, &trail, copy)?;
    match watches.propagate(port, &mut trail)? {
        Propagated::Quiet => {}
        Propagated::Conflict(_) => return Err("a conflict".into()),
    }
    if !trail.is_empty() {
        return Err("a literal is forced".into());
    }
    let mut analysis = Analysis::new(alloc, 3)?;
    match vivify(alloc, port, &mut watches, &mut trail, &mut analysis, copy) {
        Ok(left) => Ok(left),
        Err(_) => Err("a refusal".into()),
    }
}
