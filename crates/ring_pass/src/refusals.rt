// What the log's turn refuses.
ghost use Rattle.std.specs.Prelude.{◌≡◌};
ghost use Rattle.ring_pass.specs.Refusals.{port_stop, refused_after, ended_after};

use log_book::TurnStop;
use ring_port::PortStop;
use sat_words::NoRoom;

/// Keeps a refusal of the turn, and that the log is ended if it says so, and gives it as the port answers it. Want of memory
/// leaves no trace.
pub(crate) fn refuse(refused: &mut Option<PortStop>, ended: &mut bool, stop: TurnStop) -> PortStop
    ensures stop { result ≡ port_stop stop }
    ensures ended { ended.new ≡ ended_after stop ended.old }
    ensures kept { refused.new ≡ refused_after stop refused.old }
{
    let answer = match stop {
        TurnStop::Ended => {
            *ended = true;
            PortStop::Ended
        }
        TurnStop::Broken => PortStop::Broken,
        TurnStop::NoHole { need, largest } => PortStop::NoHole(NoRoom { need, largest }),
        TurnStop::Memory => return PortStop::Memory,
        TurnStop::ProofFault => PortStop::ProofFault,
    };
    *refused = Some(answer);
    answer
}
