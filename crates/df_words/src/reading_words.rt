//! Reading the words of `dfviews`.
ghost use Rattle.std.specs.Prelude.{◌≡◌, ◌≤◌, IfOk, IfSome, false, codes, map, option_map};
ghost use Rattle.df_value.specs.Limits.{most_rows_of_chunk};
ghost use Rattle.clap.specs.Words.{FailsBy, app_of, fault_of, first_value, found_of, one_text, rule_of};
ghost use Rattle.clap.specs.Values.{IsUnsignedIn};
ghost use Rattle.df_words.specs.RunLine as command_line_spec;
ghost use Rattle.df_words.specs.RunLine.{Says, program_app, number_or, number_rule, views_rule};

use crate::run_line::{DEFAULT_CHUNK, DEFAULT_WORKERS, Words};
use crate::version::VERSION;
use clap::{Arg, ArgMatches, Command, Error, value_parser};
use std::alloc::{AllocError, Global};

// The end of the help.
const AFTER_HELP: &str = r#"Exit status:
  0  all views are printed
  1  the views are printed without the chunks that have a bad cell, which the last lines name
  2  a fault, or a refused word: standard error says which

A document:
  frame = [{ name = "t", columns = [["k", "Text"], ["n", "Int"]], text = "k,n\na,1\na,2\nb,\n" }]
  view = [{ name = "sums", from = "t", steps = [
    ["filter", ["is_not_null", ["col", "n"]]], ["group_by", ["k"], ["total", "sum", "n"]]] }]"#;

/// Reads the words behind the program's name: `[VIEWS] [--workers 1..16] [--chunk 1..65536]`.
///
/// Refused are other words, a second VIEWS, an option twice or without its number, and a number
/// outside its limits. `-h`, `--help`, `-V` and `--version` are an error too, whose text is the help
/// or the version: its `use_stderr` is false and its `exit_code` 0, where those of a refusal are true
/// and 2.
pub fn words<'a>(alloc: Global, words: &'a [&'a str]) -> Result<Words<'a>, Error>
    ensures says { IfOk result (λ w. Says (map (λ word. word.now) words.entry.now) w) }
    ensures workers { IfOk result (λ w. (1 ≤ w.workers) × (w.workers ≤ 16)) }
    ensures chunk { IfOk result (λ w. (1 ≤ w.chunk) × (w.chunk ≤ most_rows_of_chunk)) }
    ensures refused { FailsBy (fault_of command_line_spec.command_line
        (map (λ word. word.now) words.entry.now)) result }
{
    let matches = command(alloc)?.try_get_matches_from(words)?;
    Ok(words_in(&matches))
}

fn command<'a>(alloc: Global) -> Result<Command<'a>, AllocError>
    ensures { IfOk result (λ command. app_of command ≡ command_line_spec.command_line) }
{
    nameless(alloc)
        .arg(views_word(alloc))?
        .arg(workers_option(alloc))?
        .arg(chunk_option(alloc))
}

// The command without its arguments. The program's name is not among its words.
fn nameless<'a>(alloc: Global) -> Command<'a>
    ensures { app_of result ≡ program_app }
{
    Command::new(alloc, "dfviews")
        .about("Prints the views of a document over dataframes")
        .version(VERSION)
        .after_help(AFTER_HELP)
        .no_binary_name(true)
}

fn views_word<'a>(alloc: Global) -> Arg<'a>
    ensures rule { rule_of result ≡ views_rule }
    ensures own { result.global ≡ false }
{
    Arg::new(alloc, "views")
        .value_name("VIEWS")
        .help("The view document; without it, standard input")
}

fn workers_option<'a>(alloc: Global) -> Arg<'a>
    ensures rule { rule_of result ≡ number_rule (codes "workers") 16 }
    ensures own { result.global ≡ false }
{
    Arg::new(alloc, "workers")
        .long("workers")
        .value_name("WORKERS")
        .value_parser(value_parser!(usize).range(1..=16))
        .help("Workers that load the frames, 1 to 16 [default: 4]")
}

fn chunk_option<'a>(alloc: Global) -> Arg<'a>
    ensures rule { rule_of result ≡ number_rule (codes "chunk") 65536 }
    ensures own { result.global ≡ false }
{
    Arg::new(alloc, "chunk")
        .long("chunk")
        .value_name("RECORDS")
        .value_parser(value_parser!(usize).range(1..=65536))
        .help("Records of a chunk, 1 to 65536 [default: 1000]")
}

fn words_in<'a>(matches: &ArgMatches<'a>) -> Words<'a>
    requires workers { IfSome (one_text (found_of matches.now) (codes "workers"))
        (IsUnsignedIn 1 16) }
    requires chunk { IfSome (one_text (found_of matches.now) (codes "chunk"))
        (IsUnsignedIn 1 65536) }
    ensures views { option_map (λ v. v.now) result.views
        ≡ first_value (found_of matches.now) (codes "views") }
    ensures workers { result.workers
        ≡ number_or 4 (one_text (found_of matches.now) (codes "workers")) }
    ensures chunk { result.chunk
        ≡ number_or 1000 (one_text (found_of matches.now) (codes "chunk")) }
{
    Words {
        views: matches.get_str("views"),
        workers: matches.get_one("workers").unwrap_or(DEFAULT_WORKERS),
        chunk: matches.get_one("chunk").unwrap_or(DEFAULT_CHUNK),
    }
}
