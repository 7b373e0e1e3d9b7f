use sat_words::Cref;

/// What propagation comes to.
#[derive(Clone, Copy, PartialEq, Eq, Debug)]
pub enum Propagated {
    /// Nothing more is forced, and no attached clause is false.
    Quiet,
    /// Every literal of this attached clause is false.
    Conflict(Cref),
}
