use sat_words::{Cref, Lit};

/// A clause that waits for its deletion: nobody holds it any more.
#[derive(Drop)]
pub struct Waiting {
    /// Its address.
    pub cell: Cref,
    /// Its number in the log.
    pub number: u64,
    /// Its literals, as they were read while it was held.
    pub lits: Vec<Lit>,
}
