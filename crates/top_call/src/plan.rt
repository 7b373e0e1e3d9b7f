// How a formula is decided.
ghost use Rattle.std.specs.Prelude.{◌≡◌};
ghost use Rattle.std.specs.Prelude.{if◌then◌else◌};
ghost use Rattle.sat_words.specs.declared.line.ProofFormat.TheVariants.{Text, Binary, Lrat};
ghost use Rattle.top_call.specs.Planned.{rounds_of};

use sat_words::ProofFormat;

/// How many rounds of simplifiers a formula may get before each round of the rings.
pub const ROUNDS: u32 = 3;

/// How a formula is decided.
#[derive(Clone, Copy)]
pub struct CallPlan {
    /// How the ruler and the rings search. The lines of the log are kept if they must be checked.
    pub search: portfolio_run::Plan,
    /// The number of the formula, if it is made and not read.
    pub make: Option<u64>,
}

/// How many rounds of simplifiers a formula may get before each round of the rings.
pub fn rounds_of(no_simplify: bool) -> u32
    ensures { result ≡ rounds_of no_simplify }
{
    if no_simplify { 0 } else { ROUNDS }
}

/// How the lines of the proof are spelled.
pub fn format_of(lrat: bool, binary: bool) -> ProofFormat
    ensures { result ≡ (if lrat then Lrat else if binary then Binary else Text) }
{
    if lrat {
        ProofFormat::Lrat
    } else if binary {
        ProofFormat::Binary
    } else {
        ProofFormat::Text
    }
}
