use sat_words::{Cref, Lit};

/// A literal that is true from a level on, and the clause that forced it. A decision has no reason, and a literal at
/// level 0 whose unit is known needs none.
#[derive(Clone, Copy, Debug)]
pub struct TrailStep {
    /// The literal that is true.
    pub lit: Lit,
    /// How many decisions stand up to here, this one counted if it is one.
    pub level: u32,
    /// The clause whose other literals were false before.
    pub reason: Option<Cref>,
}
