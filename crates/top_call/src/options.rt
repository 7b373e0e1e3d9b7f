// The options of the command line, each by its rule.
ghost use Rattle.std.specs.Prelude.{◌≡◌, false};
ghost use Rattle.clap.specs.Words.{rule_of};
ghost use Rattle.top_call.specs.Words.{conflicts_rule, round_rule, threads_rule, words_rule, slots_rule, seed_rule, walk_rule, proof_rule, binary_rule, lrat_rule, no_simplify_rule, add_rule, check_rule, make_rule, file_rule};

use clap::builder::ValueParser;
use clap::{Arg, ArgAction};
use std::alloc::Global;

/// The most rings.
const MOST_THREADS: u64 = 16;

/// The fewest words for clauses.
const LEAST_WORDS: u64 = 64;

/// The most words for clauses.
const MOST_WORDS: u64 = 1 << 31;

/// The most slots that each two rings have for each class of clauses.
const MOST_SLOTS: u64 = 16;

/// The most lemmas that a ring may be allowed to learn.
const MOST_CONFLICTS: u64 = 1_000_000_000_000;

/// The most lemmas that the rings may be allowed to learn in one round.
const MOST_IN_ROUND: u64 = 1_000_000_000_000;

/// The greatest seed.
const MOST_SEED: u64 = (1 << 63) - 1;

/// The most steps of a walk.
const MOST_WALK: u64 = 1_000_000_000;

/// The greatest number of a formula that can be made.
const MOST_MADE: u64 = (1 << 63) - 1;

pub(crate) fn conflicts_arg<'a>(alloc: Global) -> Arg<'a>
    ensures rule { rule_of result ≡ conflicts_rule }
    ensures local { result.global ≡ false }
{
    Arg::new(alloc, "conflicts")
        .long("conflicts")
        .action(ArgAction::Set)
        .value_parser(ValueParser::unsigned(1, MOST_CONFLICTS))
        .default_value("1000000000")
}

pub(crate) fn round_arg<'a>(alloc: Global) -> Arg<'a>
    ensures rule { rule_of result ≡ round_rule }
    ensures local { result.global ≡ false }
{
    Arg::new(alloc, "round")
        .long("round")
        .action(ArgAction::Set)
        .value_parser(ValueParser::unsigned(1, MOST_IN_ROUND))
}

pub(crate) fn threads_arg<'a>(alloc: Global) -> Arg<'a>
    ensures rule { rule_of result ≡ threads_rule }
    ensures local { result.global ≡ false }
{
    Arg::new(alloc, "threads")
        .long("threads")
        .action(ArgAction::Set)
        .value_parser(ValueParser::unsigned(1, MOST_THREADS))
        .default_value("4")
}

pub(crate) fn words_arg<'a>(alloc: Global) -> Arg<'a>
    ensures rule { rule_of result ≡ words_rule }
    ensures local { result.global ≡ false }
{
    Arg::new(alloc, "words")
        .long("words")
        .action(ArgAction::Set)
        .value_parser(ValueParser::unsigned(LEAST_WORDS, MOST_WORDS))
        .default_value("16777216")
}

pub(crate) fn slots_arg<'a>(alloc: Global) -> Arg<'a>
    ensures rule { rule_of result ≡ slots_rule }
    ensures local { result.global ≡ false }
{
    Arg::new(alloc, "slots")
        .long("slots")
        .action(ArgAction::Set)
        .value_parser(ValueParser::unsigned(1, MOST_SLOTS))
        .default_value("1")
}

pub(crate) fn seed_arg<'a>(alloc: Global) -> Arg<'a>
    ensures rule { rule_of result ≡ seed_rule }
    ensures local { result.global ≡ false }
{
    Arg::new(alloc, "seed")
        .long("seed")
        .action(ArgAction::Set)
        .value_parser(ValueParser::unsigned(0, MOST_SEED))
        .default_value("0")
}

pub(crate) fn walk_arg<'a>(alloc: Global) -> Arg<'a>
    ensures rule { rule_of result ≡ walk_rule }
    ensures local { result.global ≡ false }
{
    Arg::new(alloc, "walk")
        .long("walk")
        .action(ArgAction::Set)
        .value_parser(ValueParser::unsigned(0, MOST_WALK))
        .default_value("0")
}

pub(crate) fn proof_arg<'a>(alloc: Global) -> Arg<'a>
    ensures rule { rule_of result ≡ proof_rule }
    ensures local { result.global ≡ false }
{
    Arg::new(alloc, "proof").long("proof")
}

pub(crate) fn binary_arg<'a>(alloc: Global) -> Arg<'a>
    ensures rule { rule_of result ≡ binary_rule }
    ensures local { result.global ≡ false }
{
    Arg::new(alloc, "binary")
        .long("binary")
        .action(ArgAction::SetTrue)
}

pub(crate) fn lrat_arg<'a>(alloc: Global) -> Arg<'a>
    ensures rule { rule_of result ≡ lrat_rule }
    ensures local { result.global ≡ false }
{
    Arg::new(alloc, "lrat")
        .long("lrat")
        .action(ArgAction::SetTrue)
}

pub(crate) fn no_simplify_arg<'a>(alloc: Global) -> Arg<'a>
    ensures rule { rule_of result ≡ no_simplify_rule }
    ensures local { result.global ≡ false }
{
    Arg::new(alloc, "no-simplify")
        .long("no-simplify")
        .action(ArgAction::SetTrue)
}

pub(crate) fn add_arg<'a>(alloc: Global) -> Arg<'a>
    ensures rule { rule_of result ≡ add_rule }
    ensures local { result.global ≡ false }
{
    Arg::new(alloc, "add")
        .long("add")
        .action(ArgAction::SetTrue)
}

pub(crate) fn check_arg<'a>(alloc: Global) -> Arg<'a>
    ensures rule { rule_of result ≡ check_rule }
    ensures local { result.global ≡ false }
{
    Arg::new(alloc, "check")
        .long("check")
        .action(ArgAction::SetTrue)
}

pub(crate) fn make_arg<'a>(alloc: Global) -> Arg<'a>
    ensures rule { rule_of result ≡ make_rule }
    ensures local { result.global ≡ false }
{
    Arg::new(alloc, "make")
        .long("make")
        .action(ArgAction::Set)
        .value_parser(ValueParser::unsigned(0, MOST_MADE))
}

pub(crate) fn file_arg<'a>(alloc: Global) -> Arg<'a>
    ensures rule { rule_of result ≡ file_rule }
    ensures local { result.global ≡ false }
{
    Arg::new(alloc, "file")
}
