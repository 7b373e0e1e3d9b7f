// The arguments of the command line.
ghost use Rattle.std.specs.Prelude.{◌≡◌, ◌≤◌, ◌^◌, ◌↔◌, false, map, string_bytes, IfOk, IfErr, IfSome, IsErrOf, Some, None};
ghost use Rattle.clap.specs.Words.{app_of, found_of, rows_of};
ghost use Rattle.clap.specs.declared.error.kind.ErrorKind.TheVariants.{OutOfMemory};
ghost use Rattle.top_call.specs.Ends.{IsWordsEnd};
ghost use Rattle.top_call.specs.Planned.{HasRanges, IsInRange, search_of};
ghost use Rattle.top_call.specs.Words.{HasThreads, HasLimit, HasRound, HasWords, HasSlots, HasSeed, HasWalk, HasMade, asked_by, command_in, command_of, lrat_clashes, has_two_formulas, unless_clashing, solver_app};

use crate::options::{
    add_arg, binary_arg, check_arg, conflicts_arg, file_arg, lrat_arg, make_arg, no_simplify_arg,
    proof_arg, round_arg, seed_arg, slots_arg, threads_arg, walk_arg, words_arg,
};
use crate::report::CallEnd;
use clap::ArgMatches;
use clap::error::ErrorKind;
use std::alloc::{AllocError, Global};

/// What the arguments ask for.
#[derive(Clone, Copy)]
pub struct Command<'a> {
    /// How many rings search.
    pub threads: u32,
    /// How many lemmas the rings may learn together.
    pub conflicts: u64,
    /// How many of these they may learn in one round; if there is no such number, there is one round.
    pub round: Option<u64>,
    /// How many words of 64 bits there are for clauses.
    pub words: u64,
    /// How many slots each two rings have for each class of clauses.
    pub slots: u32,
    /// What the rings' first phases are made of.
    pub seed: u64,
    /// How many steps each ring walks before it searches.
    pub walk: u64,
    /// Whether only units are propagated, and nothing else is simplified.
    pub no_simplify: bool,
    /// Whether the simplifiers may add variables.
    pub add: bool,
    /// Where the proof goes, if it is wanted.
    pub proof: Option<&'a str>,
    /// Whether the proof is written in binary.
    pub binary: bool,
    /// Whether the proof has hints.
    pub lrat: bool,
    /// Whether the log is checked.
    pub check: bool,
    /// The number of the formula that is made in place of an input, if one is.
    pub make: Option<u64>,
    /// The path of the input, if it is not standard input.
    pub file: Option<&'a str>,
}

/// The command of the program, with no flag for help and none for the version.
fn solver<'a>(alloc: Global) -> Result<clap::Command<'a>, AllocError>
    ensures { IfOk result (λ command. app_of command ≡ solver_app) }
{
    let bare = clap::Command::new(alloc, "gimsatul")
        .no_binary_name(true)
        .disable_help_flag(true)
        .disable_version_flag(true);
    bare.arg(conflicts_arg(alloc))?
        .arg(round_arg(alloc))?
        .arg(threads_arg(alloc))?
        .arg(words_arg(alloc))?
        .arg(slots_arg(alloc))?
        .arg(seed_arg(alloc))?
        .arg(walk_arg(alloc))?
        .arg(proof_arg(alloc))?
        .arg(binary_arg(alloc))?
        .arg(lrat_arg(alloc))?
        .arg(no_simplify_arg(alloc))?
        .arg(add_arg(alloc))?
        .arg(check_arg(alloc))?
        .arg(make_arg(alloc))?
        .arg(file_arg(alloc))
}

/// How many rings search.
fn threads_in(matches: &ArgMatches<'_>) -> u32
    requires { HasThreads matches.now }
    ensures number { result ≡ (command_in (rows_of (found_of matches.now))).threads }
    ensures some { 1 ≤ result }
    ensures few { result ≤ 16 }
{
    match matches.get_one::<u64>("threads") {
        Some(number) => number as u32,
        // `HasThreads`: if the option is left out its default stands
        None => unreachable!(),
    }
}

/// How many words there are for clauses.
fn words_in(matches: &ArgMatches<'_>) -> u64
    requires { HasWords matches.now }
    ensures number { result ≡ (command_in (rows_of (found_of matches.now))).words }
    ensures few { result ≤ 2 ^ 31 }
{
    match matches.get_one::<u64>("words") {
        Some(number) => number,
        // `HasWords`: if the option is left out its default stands
        None => unreachable!(),
    }
}

/// How many slots each two rings have for each class of clauses.
fn slots_in(matches: &ArgMatches<'_>) -> u32
    requires { HasSlots matches.now }
    ensures number { result ≡ (command_in (rows_of (found_of matches.now))).slots }
    ensures some { 1 ≤ result }
    ensures few { result ≤ 16 }
{
    match matches.get_one::<u64>("slots") {
        Some(number) => number as u32,
        // `HasSlots`: if the option is left out its default stands
        None => unreachable!(),
    }
}

/// How many lemmas the rings may learn together.
fn conflicts_in(matches: &ArgMatches<'_>) -> u64
    requires { HasLimit matches.now }
    ensures number { result ≡ (command_in (rows_of (found_of matches.now))).conflicts }
    ensures few { result ≤ 10 ^ 12 }
{
    match matches.get_one::<u64>("conflicts") {
        Some(number) => number,
        // `HasLimit`: if the option is left out its default stands
        None => unreachable!(),
    }
}

/// How many of these they may learn in one round, if there is such a number.
fn round_in(matches: &ArgMatches<'_>) -> Option<u64>
    requires { HasRound matches.now }
    ensures number { result ≡ (command_in (rows_of (found_of matches.now))).round }
    ensures some { IfSome result (λ every. 1 ≤ every) }
    ensures few { IfSome result (λ every. every ≤ 10 ^ 12) }
{
    match matches.get_one::<u64>("round") {
        Some(number) => Some(number),
        None => None,
    }
}

/// What the first phases are made of.
fn seed_in(matches: &ArgMatches<'_>) -> u64
    requires { HasSeed matches.now }
    ensures { result ≡ (command_in (rows_of (found_of matches.now))).seed }
{
    match matches.get_one::<u64>("seed") {
        Some(number) => number,
        // `HasSeed`: if the option is left out its default stands
        None => unreachable!(),
    }
}

/// How many steps each ring walks before it searches.
fn walk_in(matches: &ArgMatches<'_>) -> u64
    requires { HasWalk matches.now }
    ensures { result ≡ (command_in (rows_of (found_of matches.now))).walk }
{
    match matches.get_one::<u64>("walk") {
        Some(number) => number,
        // `HasWalk`: if the option is left out its default stands
        None => unreachable!(),
    }
}

/// Whether the proof is written in binary.
fn binary_in(matches: &ArgMatches<'_>) -> bool
    ensures { result ≡ (command_in (rows_of (found_of matches.now))).binary }
{
    match matches.get_str("binary") {
        Some(value) => value == "true",
        None => false,
    }
}

/// Whether the proof has hints.
fn lrat_in(matches: &ArgMatches<'_>) -> bool
    ensures { result ≡ (command_in (rows_of (found_of matches.now))).lrat }
{
    match matches.get_str("lrat") {
        Some(value) => value == "true",
        None => false,
    }
}

/// Whether only units are propagated, and nothing else is simplified.
fn no_simplify_in(matches: &ArgMatches<'_>) -> bool
    ensures { result ≡ (command_in (rows_of (found_of matches.now))).no_simplify }
{
    match matches.get_str("no-simplify") {
        Some(value) => value == "true",
        None => false,
    }
}

/// Whether the simplifiers may add variables.
fn add_in(matches: &ArgMatches<'_>) -> bool
    ensures { result ≡ (command_in (rows_of (found_of matches.now))).add }
{
    match matches.get_str("add") {
        Some(value) => value == "true",
        None => false,
    }
}

/// Whether the log is checked.
fn check_in(matches: &ArgMatches<'_>) -> bool
    ensures { result ≡ (command_in (rows_of (found_of matches.now))).check }
{
    match matches.get_str("check") {
        Some(value) => value == "true",
        None => false,
    }
}

/// The number of the formula that is made, if one is.
fn make_in(matches: &ArgMatches<'_>) -> Option<u64>
    requires { HasMade matches.now }
    ensures { result ≡ (command_in (rows_of (found_of matches.now))).make }
{
    match matches.get_one::<u64>("make") {
        Some(number) => Some(number),
        None => None,
    }
}

/// What the matches ask for.
fn command_in<'a>(matches: &ArgMatches<'a>) -> Command<'a>
    requires threads { HasThreads matches.now }
    requires limit { HasLimit matches.now }
    requires round { HasRound matches.now }
    requires words { HasWords matches.now }
    requires slots { HasSlots matches.now }
    requires seed { HasSeed matches.now }
    requires walk { HasWalk matches.now }
    requires made { HasMade matches.now }
    ensures asks { command_in (rows_of (found_of matches.now)) ≡ asked_by result }
    ensures ranges { HasRanges (search_of (asked_by result)) }
{
    Command {
        threads: threads_in(matches),
        conflicts: conflicts_in(matches),
        round: round_in(matches),
        words: words_in(matches),
        slots: slots_in(matches),
        seed: seed_in(matches),
        walk: walk_in(matches),
        no_simplify: no_simplify_in(matches),
        add: add_in(matches),
        proof: matches.get_str("proof"),
        binary: binary_in(matches),
        lrat: lrat_in(matches),
        check: check_in(matches),
        make: make_in(matches),
        file: matches.get_str("file"),
    }
}

fn end_of_kind(kind: ErrorKind) -> CallEnd
    ensures memory { (result ≡ CallEnd.Memory) ↔ (kind ≡ OutOfMemory) }
    ensures ends { IsWordsEnd result }
{
    match kind {
        ErrorKind::OutOfMemory => CallEnd::Memory,
        _ => CallEnd::Usage,
    }
}

/// Whether a formula is made, and there is a file to read one from.
fn has_two_formulas(command: &Command<'_>) -> bool
    ensures { result ≡ has_two_formulas (asked_by command.now) }
{
    command.make.is_some() && command.file.is_some()
}

/// Whether the proof is to have hints, and also to be in binary or to have lines for which there are none.
fn lrat_clashes(command: &Command<'_>) -> bool
    ensures { result ≡ lrat_clashes (asked_by command.now) }
{
    command.lrat && (command.add || command.binary)
}

/// The command, unless it asks for two things that exclude each other.
fn unless_clashing(command: Command<'_>) -> Result<Command<'_>, CallEnd>
    ensures asks { IfOk result (λ taken. unless_clashing (asked_by command.entry) ≡ Some (asked_by taken)) }
    ensures ranges { HasRanges (search_of (asked_by command.entry)) → IfOk result (λ taken. IsInRange (search_of (asked_by taken))) }
    ensures usage { IfErr result (λ end. unless_clashing (asked_by command.entry) ≡ None) }
    ensures ends { IfErr result (λ end. end ≡ CallEnd.Usage) }
{
    if has_two_formulas(&command) || lrat_clashes(&command) {
        return Err(CallEnd::Usage);
    }
    Ok(command)
}

/// Reads the arguments, without the program's name. They are refused exactly if `clap` refuses them, `--make` stands with FILE, or
/// `--lrat` with `--add` or `--binary`.
pub fn parse<'a>(alloc: Global, words: &'a [String]) -> Result<Command<'a>, CallEnd>
    ensures asks { IfOk result (λ command. command_of (map string_bytes words.entry.now) ≡ Some (asked_by command)) }
    ensures ranges { IfOk result (λ command. IsInRange (search_of (asked_by command))) }
    ensures usage { IsErrOf result CallEnd.Usage → command_of (map string_bytes words.entry.now) ≡ None }
    ensures ends { IfErr result IsWordsEnd }
{
    let command = match solver(alloc) {
        Ok(command) => command,
        Err(_) => return Err(CallEnd::Memory),
    };
    match command.try_get_matches_from(words) {
        Ok(matches) => unless_clashing(command_in(&matches)),
        Err(error) => Err(end_of_kind(error.kind())),
    }
}
