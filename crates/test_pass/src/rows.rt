//! What the rings do, a call or two at a time.
ghost use Rattle.std.specs.Prelude.{◌≡◌, ◌<◌, ◌++◌, ◌∷◌, [], Some, None, IfOk, IfSome, OnOk, IsSome, MatchOption, length};
ghost use Rattle.rup_model.specs.declared.journal.Kind.TheVariants.{Learn, UnitLine};
ghost use Rattle.ring_port.specs.PortState.{held_at, head_of, lits_at};
ghost use Rattle.ring_port.specs.Port.{LearnedClause, WroteUnit};
ghost use Rattle.ring_port.specs.Deleting.{IsNotTaken, DroppedOnce};
ghost use Rattle.ring_port.specs.Exchange.{class_at, other_rings, OfferedAs, Polled};
ghost use Rattle.test_pass.specs.Samples.{plus, pair, later, spare, IsAt, IsPlayer, IsBegun, IsReady, IsIdle, IsReadyAgain, IsDone, IsListener, Stays, Keeps};
ghost use Rattle.test_pass.specs.Given.{GaveUp, GaveAndWrote, GaveAndTook};

use ring_port::{Drawn, Port};
use sat_words::{Cref, Head, Lit};

/// What a ring has missed.
#[derive(Clone, Copy, Debug)]
pub enum Miss {
    /// It drew no ticket.
    NoTicket,
    /// It learned no clause.
    NotLearned,
    /// It offered a clause to no ring, or to several.
    NotOffered,
    /// It wrote no deletion.
    NotDeleted,
    /// It wrote no unit.
    NotWritten,
    /// It found nothing if a clause was put.
    Nothing,
    /// It found a clause that nobody put.
    NotPut,
    /// It found another clause than was put.
    AnotherClause,
    /// A clause has not two literals.
    NotTwo,
    /// Two clauses have one address.
    SameAddress,
    /// Memory ran out.
    Memory,
}

/// Draws the ticket for the first clause.
pub fn draw_first<P: Port>(port: &mut P) -> Result<(), Miss>
    requires { IsBegun (P.state port.old) }
    ensures ready { OnOk result (IsReady (P.state port.new)) }
    ensures same { OnOk result (Keeps (P.state port.old) (P.state port.new)) }
{
    match port.draw() {
        Drawn::Ticket => Ok(()),
        Drawn::Gone => Err(Miss::NoTicket),
    }
}

/// Draws the ticket for the later clause.
pub fn draw_again<P: Port>(port: &mut P) -> Result<(), Miss>
    requires { IsIdle (P.state port.old) }
    ensures ready { OnOk result (IsReadyAgain (P.state port.new)) }
    ensures same { OnOk result (Keeps (P.state port.old) (P.state port.new)) }
{
    match port.draw() {
        Drawn::Ticket => Ok(()),
        Drawn::Gone => Err(Miss::NoTicket),
    }
}

/// Learns `1 2`: if it is held.
pub fn learn_pair<P: Port>(port: &mut P) -> Result<Cref, Miss>
    requires { IsReady (P.state port.old) }
    ensures idle { OnOk result (IsIdle (P.state port.new)) }
    ensures learned { IfOk result (LearnedClause (P.state port.old) (P.state port.new) pair 1) }
    ensures there { IfOk result (λ c. IsAt (P.state port.new) c.address pair) }
    ensures last { IfOk result (λ c. (P.state port.new).last ≡ Some c.address) }
    ensures same { OnOk result (Keeps (P.state port.old) (P.state port.new)) }
{
    let lits = [Lit::new(1, false), Lit::new(2, false)];
    match port.learn(&lits, 1, &[]) {
        Ok(Some(c)) => Ok(c),
        _ => Err(Miss::NotLearned),
    }
}

/// Learns the unit 2, which is listed then.
pub fn learn_two<P: Port>(port: &mut P) -> Result<(), Miss>
    requires { IsReady (P.state port.old) }
    ensures learned { OnOk result (WroteUnit (P.state port.old) (P.state port.new) (plus 2) Learn None) }
    ensures same { OnOk result (Stays (P.state port.old) (P.state port.new)) }
{
    match port.learn(&[Lit::new(2, false)], 1, &[]) {
        Ok(None) => Ok(()),
        _ => Err(Miss::NotLearned),
    }
}

/// Learns `2 -3`: if it is held.
pub fn learn_later<P: Port>(port: &mut P) -> Result<Cref, Miss>
    requires { IsReadyAgain (P.state port.old) }
    ensures done { OnOk result (IsDone (P.state port.new)) }
    ensures learned { IfOk result (LearnedClause (P.state port.old) (P.state port.new) later 1) }
    ensures there { IfOk result (λ c. IsAt (P.state port.new) c.address later) }
    ensures last { IfOk result (λ c. (P.state port.new).last ≡ Some c.address) }
    ensures same { OnOk result (Keeps (P.state port.old) (P.state port.new)) }
{
    let lits = [Lit::new(2, false), Lit::new(3, true)];
    match port.learn(&lits, 1, &[]) {
        Ok(Some(c)) => Ok(c),
        _ => Err(Miss::NotLearned),
    }
}

/// Offers the pair that it learned last: to how many rings.
pub fn offer_pair<P: Port>(port: &mut P, c: Cref) -> u64
    requires idle { IsIdle (P.state port.old) }
    requires there { IsAt (P.state port.old) c.address pair }
    requires last { (P.state port.old).last ≡ Some c.address }
    ensures many { result ≡ length (other_rings (P.state port.old)) }
    ensures offered { OfferedAs (P.state port.old) (P.state port.new) (class_at (P.state port.old) c.address) c.address }
    ensures idle { IsIdle (P.state port.new) }
    ensures there { IsAt (P.state port.new) c.address pair }
    ensures same { Keeps (P.state port.old) (P.state port.new) }
{
    port.offer(c)
}

/// Offers the later clause that it learned last: to how many rings.
pub fn offer_later<P: Port>(port: &mut P, c: Cref) -> u64
    requires done { IsDone (P.state port.old) }
    requires there { IsAt (P.state port.old) c.address later }
    requires last { (P.state port.old).last ≡ Some c.address }
    ensures many { result ≡ length (other_rings (P.state port.old)) }
    ensures offered { OfferedAs (P.state port.old) (P.state port.new) (class_at (P.state port.old) c.address) c.address }
    ensures done { IsDone (P.state port.new) }
    ensures there { IsAt (P.state port.new) c.address later }
    ensures same { Keeps (P.state port.old) (P.state port.new) }
{
    port.offer(c)
}

/// Gives the pair up.
pub fn give_pair_up<P: Port>(port: &mut P, c: Cref) -> Result<(), Miss>
    requires idle { IsIdle (P.state port.old) }
    requires there { IsAt (P.state port.old) c.address pair }
    ensures dropped { OnOk result (DroppedOnce (P.state port.old) (P.state port.new) c.address) }
    ensures idle { OnOk result (IsIdle (P.state port.new)) }
    ensures same { OnOk result (Keeps (P.state port.old) (P.state port.new)) }
{
    match port.drop_clause(c) {
        Ok(()) => Ok(()),
        Err(_) => Err(Miss::Memory),
    }
}

/// Gives the later clause up.
pub fn give_later_up<P: Port>(port: &mut P, c: Cref) -> Result<(), Miss>
    requires done { IsDone (P.state port.old) }
    requires there { IsAt (P.state port.old) c.address later }
    ensures dropped { OnOk result (DroppedOnce (P.state port.old) (P.state port.new) c.address) }
    ensures done { OnOk result (IsDone (P.state port.new)) }
    ensures same { OnOk result (Keeps (P.state port.old) (P.state port.new)) }
{
    match port.drop_clause(c) {
        Ok(()) => Ok(()),
        Err(_) => Err(Miss::Memory),
    }
}

/// Gives `2 3` up, and deletes what waits.
pub fn give_spare_up<P: Port>(port: &mut P, c: Cref) -> Result<(), Miss>
    requires player { IsPlayer (P.state port.old) }
    requires there { IsAt (P.state port.old) c.address spare }
    requires apart { IsNotTaken (P.state port.old) c.address }
    ensures gave { OnOk result (GaveUp (P.state port.old) (P.state port.new) c.address) }
    ensures player { OnOk result (IsPlayer (P.state port.new)) }
    ensures same { OnOk result (Stays (P.state port.old) (P.state port.new)) }
{
    let Ok(()) = port.drop_clause(c) else {
        return Err(Miss::Memory);
    };
    match port.tidy() {
        Ok(()) => Ok(()),
        Err(_) => Err(Miss::NotDeleted),
    }
}

/// Writes the unit 2.
pub fn write_two<P: Port>(port: &mut P) -> Result<(), Miss>
    requires { IsPlayer (P.state port.old) }
    ensures written { OnOk result (WroteUnit (P.state port.old) (P.state port.new) (plus 2) UnitLine (P.state port.old).last) }
    ensures same { OnOk result (Stays (P.state port.old) (P.state port.new)) }
{
    match port.unit(Lit::new(2, false), &[]) {
        Ok(()) => Ok(()),
        Err(_) => Err(Miss::NotWritten),
    }
}

/// Looks for a clause of two literals that ring 0 has put at a place.
pub fn hear_at<P: Port>(port: &mut P, place: u32) -> Result<Option<Cref>, Miss>
    requires listener { IsListener (P.state port.old) (P.state port.old).taken }
    requires place { place < (P.state port.old).depth }
    ensures polled { IfOk result (λ found. Polled (P.state port.old) (P.state port.new) 0 0 place (Ok found)) }
    ensures none { IfOk result (λ found. MatchOption found (IsListener (P.state port.new) (P.state port.old).taken) (λ c. IsListener (P.state port.new) ((P.state port.old).taken ++ c.address ∷ []) × IsSome (held_at (P.state port.new) c.address))) }
    ensures same { OnOk result (Keeps (P.state port.old) (P.state port.new)) }
{
    match port.poll(0, 0, place) {
        Ok(found) => Ok(found),
        Err(_) => Err(Miss::Memory),
    }
}

/// Looks for one at the first place.
pub fn hear<P: Port>(port: &mut P) -> Result<Option<Cref>, Miss>
    requires { IsListener (P.state port.old) (P.state port.old).taken }
    ensures polled { IfOk result (λ found. Polled (P.state port.old) (P.state port.new) 0 0 0 (Ok found)) }
    ensures none { IfOk result (λ found. MatchOption found (IsListener (P.state port.new) (P.state port.old).taken) (λ c. IsListener (P.state port.new) ((P.state port.old).taken ++ c.address ∷ []) × IsSome (held_at (P.state port.new) c.address))) }
    ensures same { OnOk result (Keeps (P.state port.old) (P.state port.new)) }
{
    hear_at(port, 0)
}

/// The head of a clause, and its literals, which are two.
pub fn read_pair<P: Port>(port: &mut P, c: Cref) -> Result<(Head, Lit, Lit), Miss>
    requires { IsSome (held_at (P.state port.old) c.address) }
    ensures head { IfOk result (λ read. IfSome (held_at (P.state port.old) c.address) (λ h. read.0 ≡ head_of h)) }
    ensures lits { IfOk result (λ read. lits_at (P.state port.old) c.address ≡ read.1 ∷ read.2 ∷ []) }
    ensures same { P.state port.new ≡ P.state port.old }
{
    let head = port.head(c);
    if head.size != 2 {
        return Err(Miss::NotTwo);
    }
    let first = port.read_lit(c, 0);
    let second = port.read_lit(c, 1);
    Ok((head, first, second))
}

/// Ring 0 learns the pair, offers it and gives it up, and then does so with the later clause: if it is held, and to how
/// many rings each was offered.
pub fn offer_both<P: Port>(port: &mut P) -> Result<(Cref, u64, u64), Miss>
    requires { IsBegun (P.state port.old) }
    ensures done { OnOk result (IsDone (P.state port.new)) }
    ensures there { IfOk result (λ x. IsAt (P.state port.new) x.0.address later) }
    ensures many { IfOk result (λ x. (x.1 ≡ length (other_rings (P.state port.old))) × (x.2 ≡ length (other_rings (P.state port.old)))) }
    ensures same { OnOk result (Keeps (P.state port.old) (P.state port.new)) }
{
    draw_first(port)?;
    let pair = learn_pair(port)?;
    let offered = offer_pair(port, pair);
    give_pair_up(port, pair)?;
    draw_again(port)?;
    let later = learn_later(port)?;
    let again = offer_later(port, later);
    Ok((later, offered, again))
}

/// Looks for a clause if one has to be, and then if none may be: its address, its head and its literals.
pub fn hear_once<P: Port>(port: &mut P) -> Result<(Cref, Head, Lit, Lit), Miss>
    requires { IsListener (P.state port.old) [] }
    ensures listener { IfOk result (λ x. IsListener (P.state port.new) (x.0.address ∷ [])) }
    ensures head { IfOk result (λ x. IfSome (held_at (P.state port.new) x.0.address) (λ h. x.1 ≡ head_of h)) }
    ensures lits { IfOk result (λ x. lits_at (P.state port.new) x.0.address ≡ x.2 ∷ x.3 ∷ []) }
    ensures same { OnOk result (Keeps (P.state port.old) (P.state port.new)) }
{
    let Some(found) = hear(port)? else {
        return Err(Miss::Nothing);
    };
    let (head, first, second) = read_pair(port, found)?;
    let None = hear(port)? else {
        return Err(Miss::NotPut);
    };
    Ok((found, head, first, second))
}

/// Takes what ring 0 has put at a place: its two literals.
pub fn take_at<P: Port>(port: &mut P, place: u32) -> Result<(Lit, Lit), Miss>
    requires listener { IsListener (P.state port.old) (P.state port.old).taken }
    requires place { place < (P.state port.old).depth }
    ensures listener { OnOk result (IsListener (P.state port.new) (P.state port.new).taken) }
    ensures same { OnOk result (Keeps (P.state port.old) (P.state port.new)) }
{
    let Some(found) = hear_at(port, place)? else {
        return Err(Miss::Nothing);
    };
    let (_head, first, second) = read_pair(port, found)?;
    Ok((first, second))
}

/// Finds nothing at a place.
pub fn miss_at<P: Port>(port: &mut P, place: u32) -> Result<(), Miss>
    requires listener { IsListener (P.state port.old) (P.state port.old).taken }
    requires place { place < (P.state port.old).depth }
    ensures listener { OnOk result (IsListener (P.state port.new) (P.state port.new).taken) }
    ensures same { OnOk result (Keeps (P.state port.old) (P.state port.new)) }
{
    match hear_at(port, place)? {
        None => Ok(()),
        Some(_) => Err(Miss::NotPut),
    }
}

/// Takes what ring 0 has put at both places, in their order, and finds nothing more at them.
pub fn take_both<P: Port>(port: &mut P) -> Result<[(Lit, Lit); 2], Miss>
    requires listener { IsListener (P.state port.old) [] }
    requires deep { (P.state port.old).depth ≡ 2 }
    ensures same { OnOk result (Keeps (P.state port.old) (P.state port.new)) }
{
    let first = take_at(port, 0)?;
    let second = take_at(port, 1)?;
    miss_at(port, 0)?;
    miss_at(port, 1)?;
    Ok([first, second])
}

/// What ring 0 told, and ring 1 heard.
#[derive(Drop)]
pub struct Heard {
    /// To how many rings ring 0 offered each clause.
    pub offered: (u64, u64),
    /// Where ring 1 holds what it found.
    pub found: Cref,
    /// Its head.
    pub head: Head,
    /// Its literals.
    pub lits: (Lit, Lit),
}

/// Ring 0 offers two clauses, of which ring 1 takes the second, and then gives that one up. Before and after that ring 1 finds
/// nothing.
pub fn hand_over<P: Port, Q: Port>(zero: &mut P, one: &mut Q) -> Result<Heard, Miss>
    requires zero { IsBegun (P.state zero.old) }
    requires one { IsListener (Q.state one.old) [] }
    ensures zero { OnOk result (IsDone (P.state zero.new)) }
    ensures one { IfOk result (λ x. IsListener (Q.state one.new) (x.found.address ∷ [])) }
    ensures offered { IfOk result (λ x. (x.offered.0 ≡ length (other_rings (P.state zero.old))) × (x.offered.1 ≡ length (other_rings (P.state zero.old)))) }
    ensures head { IfOk result (λ x. IfSome (held_at (Q.state one.new) x.found.address) (λ h. x.head ≡ head_of h)) }
    ensures lits { IfOk result (λ x. lits_at (Q.state one.new) x.found.address ≡ x.lits.0 ∷ x.lits.1 ∷ []) }
    ensures zero_same { OnOk result (Keeps (P.state zero.old) (P.state zero.new)) }
    ensures one_same { OnOk result (Keeps (Q.state one.old) (Q.state one.new)) }
{
    let None = hear(one)? else {
        return Err(Miss::NotPut);
    };
    let (later, first_time, second_time) = offer_both(zero)?;
    let (found, head, first, second) = hear_once(one)?;
    give_later_up(zero, later)?;
    Ok(Heard {
        offered: (first_time, second_time),
        found,
        head,
        lits: (first, second),
    })
}

/// Both rings give `2 3` up, of which ring 1 is the last, and ring 0 writes the unit 2. Tells what ring 1 is then given.
pub fn give_up_and_tell<P: Port, Q: Port>(
    zero: &mut P,
    one: &mut Q,
    cell: Cref,
    found: Cref,
) -> Result<(Option<Lit>, Option<Lit>), Miss>
    requires zero { IsDone (P.state zero.old) }
    requires one { IsListener (Q.state one.old) (found.address ∷ []) }
    requires zero_holds { IsAt (P.state zero.old) cell.address spare }
    requires one_holds { IsAt (Q.state one.old) cell.address spare }
    ensures wrote { OnOk result (GaveAndWrote (P.state zero.old) (P.state zero.new) cell.address) }
    ensures told { IfOk result (λ units. GaveAndTook (Q.state one.old) (Q.state one.new) cell.address units.0 units.1) }
    ensures zero { OnOk result (Stays (P.state zero.old) (P.state zero.new)) }
    ensures one { OnOk result (Stays (Q.state one.old) (Q.state one.new)) }
{
    if found.address == cell.address {
        return Err(Miss::SameAddress);
    }
    give_spare_up(zero, cell)?;
    give_spare_up(one, cell)?;
    write_two(zero)?;
    let unit = one.next_unit();
    let none = one.next_unit();
    Ok((unit, none))
}
