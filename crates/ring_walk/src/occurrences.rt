// Which clauses have which literal. All of them stand in one vector, those of one literal next to each other, so that a flip reads
// along two stretches of it.
ghost use Rattle.std.specs.Prelude.{◌≡◌, ◌≤◌, ◌<◌, ◌+◌, ◌*◌, ◌-◌, ◌^◌, ℕ, List, All, IfOk, OnOk, length, slice_index, slice_range, sum, take};
ghost use Rattle.sat_words.specs.Literal.{Literal, IsOn, code_of};
ghost use Rattle.sat_words.specs.Clause.{InOrder};
ghost use Rattle.ring_walk.specs.Occurrences.{codes_of, times, rank, AreStarts, AreNamed, AreOccurrences};

use sat_words::{Clause, Lit};
use std::alloc::{AllocError, Global};

/// The clauses of each literal: those of a code stand from where it starts up to where the next one starts.
#[derive(Drop)]
pub(crate) struct Occurrences {
    pub starts: Vec<usize>,
    pub named: Vec<u32>,
}

/// The occurrences of the literals on so many variables in these clauses.
pub(crate) fn occurrences_of(
    alloc: Global,
    vars: u32,
    clauses: &[Clause],
) -> Result<Occurrences, AllocError>
    requires small { vars ≤ 2 ^ 30 }
    requires few { length clauses.now < 2 ^ 32 - 1 }
    requires on { All (All (IsOn vars)) clauses.now }
    requires ordered { All InOrder clauses.now }
    ensures { IfOk result (λ o. AreOccurrences vars clauses.now o.starts.items o.named.items) }
{
    let sizes = sizes_of(alloc, vars, clauses)?;
    let starts = starts_of(alloc, sizes.as_slice())?;
    let total = starts[sizes.len()];
    let named = named_of(alloc, vars, clauses, starts.as_slice(), total)?;
    Ok(Occurrences { starts, named })
}

/// How many clauses have the literal of each code.
fn sizes_of(alloc: Global, vars: u32, clauses: &[Clause]) -> Result<Vec<u32>, AllocError>
    requires small { vars ≤ 2 ^ 30 }
    requires few { length clauses.now < 2 ^ 32 - 1 }
    requires on { All (All (IsOn vars)) clauses.now }
    requires ordered { All InOrder clauses.now }
    ensures len { IfOk result (λ v. length v.items ≡ codes_of vars) }
    ensures each { IfOk result (λ v. (x : ℕ) → x < codes_of vars → slice_index v.items x ≡ rank clauses.now x (length clauses.now)) }
{
    let mut sizes = Vec::new(alloc);
    sizes.resize(2 * (vars as usize + 1), 0)?;
    for clause in clauses {
        add_times(&mut sizes, clause.lits());
    }
    Ok(sizes)
}

/// Counts each literal of a clause.
fn add_times(sizes: &mut Vec<u32>, lits: &[Lit])
    requires on { All (λ l. code_of l < length sizes.old.items) lits.now }
    requires few { (x : ℕ) → x < length sizes.old.items → slice_index sizes.old.items x + times x lits.now < 2 ^ 32 }
    ensures len { length sizes.new.items ≡ length sizes.old.items }
    ensures each { (x : ℕ) → x < length sizes.old.items → slice_index sizes.new.items x ≡ slice_index sizes.old.items x + times x lits.now }
{
    for lit in lits {
        sizes[lit.code() as usize] += 1;
    }
}

/// Where the clauses of each code start: after those of all codes before it. The last entry is where all end.
fn starts_of(alloc: Global, sizes: &[u32]) -> Result<Vec<usize>, AllocError>
    requires { length sizes.now ≤ 2 ^ 31 + 2 }
    ensures len { IfOk result (λ v. length v.items ≡ length sizes.now + 1) }
    ensures each { IfOk result (λ v. (x : ℕ) → x ≤ length sizes.now → slice_index v.items x ≡ sum (take x sizes.now)) }
{
    let mut starts = Vec::with_capacity(alloc, sizes.len() + 1)?;
    let mut start: usize = 0;
    for size in sizes {
        starts.push_reserved(start);
        start += *size as usize;
    }
    starts.push_reserved(start);
    Ok(starts)
}

/// Names each clause in the room of each of its literals, in the order of the clauses.
fn named_of(
    alloc: Global,
    vars: u32,
    clauses: &[Clause],
    starts: &[usize],
    total: usize,
) -> Result<Vec<u32>, AllocError>
    requires small { vars ≤ 2 ^ 30 }
    requires few { length clauses.now < 2 ^ 32 - 1 }
    requires on { All (All (IsOn vars)) clauses.now }
    requires ordered { All InOrder clauses.now }
    requires starts { AreStarts (codes_of vars) starts.now (λ x. rank clauses.now x (length clauses.now)) }
    requires total { total ≡ slice_index starts.now (codes_of vars) }
    ensures len { IfOk result (λ v. length v.items ≡ total) }
    ensures named { IfOk result (λ v. AreNamed clauses.now (codes_of vars) starts.now v.items (length clauses.now)) }
{
    let mut named = Vec::new(alloc);
    named.resize(total, 0)?;
    let mut filled = Vec::new(alloc);
    filled.resize(2 * (vars as usize + 1), 0)?;
    for i in 0..clauses.len() {
        name_clause(&mut named, &mut filled, starts, i as u32, clauses[i].lits());
    }
    Ok(named)
}

/// Names a clause in the room of each of its literals, after those that are named there.
fn name_clause(
    named: &mut Vec<u32>,
    filled: &mut Vec<u32>,
    starts: &[usize],
    clause: u32,
    lits: &[Lit],
)
    requires on { All (λ l. code_of l < length filled.old.items) lits.now }
    requires wide { length starts.now ≡ length filled.old.items + 1 }
    requires room { (x : ℕ) → x < length filled.old.items → slice_index starts.now x + (slice_index filled.old.items x + times x lits.now) ≤ slice_index starts.now (x + 1) }
    requires ends { slice_index starts.now (length filled.old.items) ≤ length named.old.items }
    requires few { (x : ℕ) → x < length filled.old.items → slice_index filled.old.items x + times x lits.now < 2 ^ 32 }
    ensures len { length filled.new.items ≡ length filled.old.items }
    ensures named_len { length named.new.items ≡ length named.old.items }
    ensures filled { (x : ℕ) → x < length filled.old.items → slice_index filled.new.items x ≡ slice_index filled.old.items x + times x lits.now }
    ensures kept { (x r : ℕ) → x < length filled.old.items → r < slice_index filled.old.items x → slice_index named.new.items (slice_index starts.now x + r) ≡ slice_index named.old.items (slice_index starts.now x + r) }
    ensures added { (x r : ℕ) → x < length filled.old.items → slice_index filled.old.items x ≤ r → r < slice_index filled.old.items x + times x lits.now → slice_index named.new.items (slice_index starts.now x + r) ≡ clause }
{
    for lit in lits {
        let code = lit.code() as usize;
        let place = starts[code] + filled[code] as usize;
        named[place] = clause;
        filled[code] += 1;
    }
}

impl Occurrences {
    /// The clauses that have the literal.
    pub fn of(&self, lit: Lit) -> &[u32]
        requires wide { code_of lit + 1 < length self.now.starts.items }
        requires order { slice_index self.now.starts.items (code_of lit) ≤ slice_index self.now.starts.items (code_of lit + 1) }
        requires ends { slice_index self.now.starts.items (code_of lit + 1) ≤ length self.now.named.items }
        ensures { result.now ≡ slice_range self.now.named.items (slice_index self.now.starts.items (code_of lit)) (slice_index self.now.starts.items (code_of lit + 1)) }
    {
        let code = lit.code() as usize;
        &self.named[self.starts[code]..self.starts[code + 1]]
    }
}
