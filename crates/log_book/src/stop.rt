/// Why a turn wrote nothing.
#[derive(Clone, Copy, PartialEq, Eq, Debug, Drop)]
pub enum TurnStop {
    /// The empty clause stands in the log.
    Ended,
    /// An earlier write of the book failed.
    Broken,
    /// No hole is long enough for the clause, counted in words, or the log is full, counted in entries.
    NoHole {
        /// What is needed.
        need: u64,
        /// What there is at most.
        largest: u64,
    },
    /// There is no memory.
    Memory,
    /// The sink failed at this line. The book is broken from here on.
    ProofFault,
}
