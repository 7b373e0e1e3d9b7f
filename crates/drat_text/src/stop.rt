/// Why a line was not put.
#[derive(Clone, Copy, PartialEq, Eq, Debug)]
pub enum LineStop {
    /// Writing failed: the fault count rose, and no further line can be put.
    ProofFault,
    /// `MAX_ENTRIES` lines stand. Nothing was done.
    Full,
    /// Memory ran out. Nothing was done.
    Memory,
}
