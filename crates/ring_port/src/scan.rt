//! What a port tells of a clause that is looked at again and again: its size and its glue.

/// The size and the glue of a clause.
#[derive(Clone, Copy, PartialEq, Eq, Debug, Drop)]
pub struct Shape {
    /// How many literals it has.
    pub size: u32,
    /// Its glue, as `Head` has it.
    pub glue: u32,
}
