use sat_words::NoRoom;

/// Why a call of a port that writes into the log was refused.
///
/// The port is as it was except for the note of the answer, which is the last one except for want of memory. After `ProofFault` and
/// `Broken` it writes no more.
#[derive(Clone, Copy, PartialEq, Eq, Debug)]
pub enum PortStop {
    /// The empty clause stands in the log.
    Ended,
    /// An earlier write of the log failed, of another ring: a ring whose own write failed writes no more.
    Broken,
    /// The output of the log failed now; its fault count rose.
    ProofFault,
    /// There is no room for the clause, or for one more entry of the log.
    NoHole(NoRoom),
    /// Memory ran out.
    Memory,
}
