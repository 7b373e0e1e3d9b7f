// What a step of the search comes to, and how a refusal or a conflict without decisions ends it.
ghost use Rattle.std.specs.Prelude.{◌≡◌, [], true, None};
ghost use Rattle.rup_model.specs.Rup.{rup};
ghost use Rattle.ring_port.specs.PortState.{IsPort, known};
ghost use Rattle.ring_port.specs.Port.{AreHints};
ghost use Rattle.ring_run.specs.Ended.{IsHalted, last_looks};
ghost use Rattle.ring_run.specs.Searching.{OffersNothing};
ghost use Rattle.ring_run.specs.Ending.{EndsAt, IsRefusal, WroteEmpty, end_refused};

use crate::job::End;
use ring_port::{Port, PortStop};

/// What a step of the search comes to.
#[derive(Drop)]
pub(crate) enum Next {
    /// The search goes on.
    Go,
    /// The ring is at this end, and has not set its stop yet.
    Finish(End),
}

/// The end of a ring whose port has refused a call.
pub(crate) fn end_refused(stop: PortStop) -> End
    ensures { result ≡ end_refused stop }
{
    match stop {
        PortStop::Ended => End::Refuted,
        PortStop::Broken | PortStop::ProofFault => End::ProofFault,
        PortStop::NoHole(lack) => End::NoHole(lack),
        PortStop::Memory => End::Memory,
    }
}

/// Writes the empty clause, with the hints that show it.
pub(crate) fn refute<P: Port>(port: &mut P, hints: &[u64]) -> End
    requires usable { (P.state port.old).refused ≡ None }
    requires rup { rup (known (P.state port.old)) [] ≡ true }
    requires hints { AreHints (P.state port.old) [] hints.now }
    ensures ends { EndsAt (P.state port.old) (P.state port.new) result }
    ensures held { (P.state port.new).held ≡ (P.state port.old).held }
    ensures looks { (P.state port.new).looks ≡ (P.state port.old).looks }
    ensures nothing { OffersNothing (P.state port.old) (P.state port.new) }
    ensures none { last_looks result ≡ 0 }
    ensures halted { IsHalted result }
    ensures refusal { IsRefusal result }
    ensures empty { WroteEmpty (P.state port.old) (P.state port.new) result }
    ensures port { IsPort (P.state port.new) }
{
    match port.empty(hints) {
        Ok(()) => End::Refuted,
        Err(stop) => end_refused(stop),
    }
}
