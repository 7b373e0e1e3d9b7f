// Copies of one start clause, of which one is given up before others come.
ghost use Rattle.std.specs.Prelude.{◌≡◌, ◌≢◌, All, IfOk, IsSome, OnOk};
ghost use Rattle.sat_words.specs.declared.shared.Cref.{Cref};
ghost use Rattle.ring_port.specs.PortState.{held_at};
ghost use Rattle.test_ring.specs.ReductionRow.{IsRow, OneMore, OneLess};

use ring_port::Port;
use sat_words::{Cref, Lit};
use std::alloc::{AllocError, Global};
use std::test::Fail;

/// A copy of the start clause of this glue.
pub(crate) fn copy_one<P: Port>(port: &mut P, glue: u32) -> Result<Cref, Fail>
    requires { IsRow (P.state port.old) }
    ensures { IfOk result (λ c. OneMore (P.state port.old) (P.state port.new) c) }
{
    let lits = [Lit::new(1, false), Lit::new(2, false), Lit::new(3, false)];
    let Ok(copy) = port.derive(&lits, glue, &[]) else {
        return Err("no copy".into());
    };
    Ok(copy)
}

/// Gives a copy up, and deletes it.
pub(crate) fn give_up<P: Port>(port: &mut P, c: Cref) -> Result<(), Fail>
    requires row { IsRow (P.state port.old) }
    requires held { IsSome (held_at (P.state port.old) c.address) }
    requires no_start { c.address ≢ 0 }
    ensures { OnOk result (OneLess (P.state port.old) (P.state port.new) c.address) }
{
    let Ok(()) = port.drop_clause(c) else {
        return Err("not dropped".into());
    };
    let Ok(()) = port.tidy() else {
        return Err("not deleted".into());
    };
    Ok(())
}

/// The glue of a clause that is held, and whether its literals are those of the start clause.
pub(crate) fn read_copy<P: Port>(port: &mut P, c: Cref) -> (u32, bool)
    requires { IsSome (held_at (P.state port.old) c.address) }
    ensures { P.state port.new ≡ P.state port.old }
{
    let head = port.head(c);
    let mut same = head.size == 3;
    for i in 0..head.size {
        let lit = port.read_lit(c, i);
        same = same && lit.var() == i + 1 && !lit.is_neg();
    }
    (head.glue, same)
}

/// If clauses that are held stand, and what is read of them.
pub(crate) fn read_copies<P: Port>(
    alloc: Global,
    port: &mut P,
    copies: &[Cref],
) -> Result<Vec<(u64, u32, bool)>, AllocError>
    requires { All (λ (c : Cref). IsSome (held_at (P.state port.old) c.address)) copies.now }
{
    let mut read = Vec::new(alloc);
    for c in copies {
        let (glue, same) = read_copy(port, *c);
        read.push((c.address, glue, same))?;
    }
    Ok(read)
}

/// Of three copies the second is given up, and two more come.
pub(crate) fn reuse_words<P: Port>(
    alloc: Global,
    port: &mut P,
) -> Result<Vec<(u64, u32, bool)>, Fail>
    requires { IsRow (P.state port.old) }
{
    let first = copy_one(port, 3)?;
    let second = copy_one(port, 4)?;
    let third = copy_one(port, 5)?;
    give_up(port, second)?;
    let fourth = copy_one(port, 6)?;
    let fifth = copy_one(port, 7)?;
    let read = read_copies(alloc, port, &[first, third, fourth, fifth])?;
    Ok(read)
}
