//! Works on a formula, whose lines are counted or kept as text or in another format.
ghost use Rattle.std.specs.Prelude.{◌≡◌, false, [], All, IfOk, length};
ghost use Rattle.drat_text.specs.CountedData.{begun_counting};
ghost use Rattle.drat_text.specs.SinkData.{begun_lines};
ghost use Rattle.io_edge.specs.Memory.{new_sink};
ghost use Rattle.sat_words.specs.Literal.{IsOn};
ghost use Rattle.sat_words.specs.declared.line.ProofFormat.TheVariants.{Text};
ghost use Rattle.simp_base.specs.WorkState.{IsWork, begun};

use drat_text::{CountedLines, SinkLines};
use io_edge::MemSink;
use sat_words::{Formula, ProofFormat};
use simp_base::Work;
use std::alloc::Global;
use std::test::Fail;

/// Lines for the formula that are counted; that with the number `failing` fails, from 1, and none for 0.
pub fn counted_lines(formula: &Formula, failing: u64) -> CountedLines
    ensures { result ≡ begun_counting (length formula.now.clauses) }
{
    CountedLines::new(formula.clauses().len() as u64, failing)
}

/// Lines for the formula that are kept in a format, in this many bytes.
pub fn written_lines(
    alloc: Global,
    format: ProofFormat,
    formula: &Formula,
    room: usize,
) -> Result<SinkLines<MemSink<'static>>, Fail>
    ensures { IfOk result (λ lines. lines ≡ begun_lines format (length formula.now.clauses) (new_sink room [])) }
{
    let sink = MemSink::new(alloc, room, &[])?;
    match SinkLines::with_format(alloc, format, formula.clauses().len() as u64, sink) {
        Ok(lines) => Ok(lines),
        Err(_) => Err("no memory for the lines".into()),
    }
}

/// Lines for the formula that are kept as text, in this many bytes.
pub fn text_lines(
    alloc: Global,
    formula: &Formula,
    room: usize,
) -> Result<SinkLines<MemSink<'static>>, Fail>
    ensures { IfOk result (λ lines. lines ≡ begun_lines Text (length formula.now.clauses) (new_sink room [])) }
{
    written_lines(alloc, ProofFormat::Text, formula, room)
}

/// A work on the formula, over lines that are counted.
pub fn counted_work(
    alloc: Global,
    formula: &Formula,
    failing: u64,
) -> Result<Work<CountedLines>, Fail>
    requires { All (All (IsOn formula.now.vars)) formula.now.clauses }
    ensures made { IfOk result (λ work. work ≡ begun formula.now work.output) }
    ensures ready { IfOk result (λ work. (work.vars ≡ formula.now.vars) × (work.output.spent ≡ false) × (work.output.format ≡ Text) × (work.ended ≡ false) × IsWork work) }
{
    match Work::new(alloc, formula, counted_lines(formula, failing)) {
        Ok(work) => Ok(work),
        Err(_) => Err("no memory".into()),
    }
}

/// A work on the formula, over lines that are kept in a format.
pub fn written_work(
    alloc: Global,
    format: ProofFormat,
    formula: &Formula,
    room: usize,
) -> Result<Work<SinkLines<MemSink<'static>>>, Fail>
    requires { All (All (IsOn formula.now.vars)) formula.now.clauses }
    ensures made { IfOk result (λ work. work ≡ begun formula.now work.output) }
    ensures ready { IfOk result (λ work. (work.vars ≡ formula.now.vars) × (work.output.spent ≡ false) × (work.output.format ≡ format) × (work.ended ≡ false) × IsWork work) }
{
    match Work::new(alloc, formula, written_lines(alloc, format, formula, room)?) {
        Ok(work) => Ok(work),
        Err(_) => Err("no memory".into()),
    }
}

/// A work on the formula, over lines that are kept as text.
pub fn text_work(
    alloc: Global,
    formula: &Formula,
    room: usize,
) -> Result<Work<SinkLines<MemSink<'static>>>, Fail>
    requires { All (All (IsOn formula.now.vars)) formula.now.clauses }
    ensures made { IfOk result (λ work. work ≡ begun formula.now work.output) }
    ensures ready { IfOk result (λ work. (work.vars ≡ formula.now.vars) × (work.output.spent ≡ false) × (work.output.format ≡ Text) × (work.ended ≡ false) × IsWork work) }
{
    written_work(alloc, ProofFormat::Text, formula, room)
}
