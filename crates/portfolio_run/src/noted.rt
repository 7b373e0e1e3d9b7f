// The journal after which a round begins, which only proofs read.
ghost use Rattle.std.specs.Prelude.{List};
ghost use Rattle.std.specs.Borrow.{ftrue};
ghost use Rattle.rup_model.specs.declared.journal.Entry.{Entry};

use std::marker::Model;

/// What was written before the round. It takes no memory, and does nothing at run time.
#[derive(Drop)]
pub(crate) struct Noted {
    pub ghost entries: { List Entry },
}

impl Model for Noted {
    ghost also_owns = { λ _. ftrue };
}

impl Noted {
    ghost use Rattle.portfolio_run.specs.Pauses.{Pause, IsPaused, IsPausedAt};

    /// The journal after which the rings rest.
    pub(crate) fn of_pause() -> Noted
        ghost pause: { Pause }
        requires { IsPaused pause }
        ensures { IsPausedAt pause result.entries }
    {
        Noted {}
    }
}
