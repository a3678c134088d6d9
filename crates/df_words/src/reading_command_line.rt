//! Reading the words of `dfshell`.
ghost use Rattle.std.specs.Prelude.{◌≡◌, ◌↔◌, IfOk, IsTrue, codes, false, map, option_map};
ghost use Rattle.clap.specs.Words.{FailsBy, app_of, fault_of, first_value, found_of, one_text, rule_of};
ghost use Rattle.clap.specs.Values.{kind_of};
ghost use Rattle.clap.specs.declared.error.kind.ErrorKind.TheVariants.{MissingRequiredArgument};
ghost use Rattle.df_words.specs.SessionLine as command_line_spec;
ghost use Rattle.df_words.specs.SessionLine.{LacksDocument, IsFlagOf, IsRead, Says, document_line, flag_rule, flags_line, program_app, text_rule, views_rule};

use crate::session_line::CommandLine;
use crate::version::VERSION;
use clap::error::ErrorKind;
use clap::{Arg, ArgAction, ArgMatches, Command, Error};
use std::alloc::{AllocError, Global};

// The end of the help.
const AFTER_HELP: &str = r#"Commands, one a line of standard input:
  frame NAME COLUMN TYPE ..    declares a frame of these columns; without a document, before all changes
  append FRAME                 and lines of CSV up to a line with a dot alone: adds rows behind all others
  append FRAME FIRST COUNT     and COUNT lines of CSV: adds rows, numbered from FIRST
  load FRAME PATH              adds the rows of a CSV file behind all others; a chunk of 1000 that is refused is left out
  delete FRAME NUMBER ..       takes the rows of these numbers out
  replace FRAME NUMBER ..      and as many lines of CSV: puts each row in the place of that of its number
  register VIEW                adds the document's view of this name, or one that was defined
  define VIEW FRAME STEPS      adds a view of a frame, with steps written as a document's: an array of them
  drop VIEW                    takes a view out
  frames                       the frames: how many rows each has, and its columns with their types
  views                        the names of the views
  schema NAME                  the columns of a frame, or else of a view, with their types
  plan VIEW                    the view as a document writes it, registered or not
  sql VIEW                     the view as SQL for PostgreSQL, behind the tables of the frames that it reads
  show VIEW                    the table of a view
  show VIEW COUNT              its first COUNT rows, and how many more there are
  show VIEW from ROW COUNT     COUNT rows from row ROW on, the first being 0, and how many lie around them
  show VIEW .. csv             these rows as CSV; with json as lines of JSON; with html as a section of a page
  watch VIEW                   writes behind each change of rows what it does to a view, in lines of CSV
  unwatch VIEW                 writes it no longer
  changes VIEW                 what the last change of rows did to a view that is watched
  export VIEW PATH             writes the table of a view to a file, as CSV, whole or not at all
  report PATH [VIEW ..]        writes a page of all views, or of these, to a file: the first 1000 rows of each
  follow PATH [VIEW ..]        writes such a page now and behind changes, at most once a second; a browser loads it again
  unfollow PATH                writes the page no longer
  rows FRAME                   the table of a frame, and the numbers of its rows
  rows FRAME csv               the rows with their numbers as CSV; with json as lines of JSON; with html, without numbers
  books FRAME                  how many rows were accepted and deleted, and how many there are
  check                        whether each view has the rows that its plan gives: same, or differs and a view
  work                         what the views counted at the last change of rows; not with --hall
  version                      the number of the newest version; only with --hall
  source PATH                  the answers to the commands in a file, as if they stood here
  help [COMMAND]               this list, or a command with an example
  quit                         ends the session, as the end of input does

Exit status:
  0  the input has ended, the document opens, or its page is written
  1  with --check: the document opens without the chunks that have a bad cell, which the output names; with --bail: a command was refused
  2  a fault, or a refused word: standard error says which"#;

/// Reads the words behind the program's name: `[--hall] [--check] [--bail] [--framed] [--sql] [--report PATH] [VIEWS]`.
///
/// Refused are other words, a second VIEWS, a flag or an option twice, `--report` without PATH, and `--check`, `--sql` or
/// `--report` without VIEWS. `-h`, `--help` and `--version` are an error too, whose text is the help or the version: its `use_stderr` is false and its `exit_code` 0, where those of a refusal are
/// true and 2.
pub fn read_command_line<'a>(alloc: Global, words: &'a [&'a str]) -> Result<CommandLine<'a>, Error>
    ensures says { IfOk result (λ line. Says (map (λ word. word.now) words.entry.now) line) }
    ensures read { IsRead (map (λ word. word.now) words.entry.now) result }
{
    let line = parse(alloc, words)?;
    if lacks_document(line) {
        return Err(no_views(alloc)?);
    }
    Ok(line)
}

// What the words say by clap's rules alone.
#[tactic(auto, using(crate::proofs::FlagFacts::is_free))]
fn parse<'a>(alloc: Global, words: &'a [&'a str]) -> Result<CommandLine<'a>, Error>
    ensures says { IfOk result (λ line. Says (map (λ word. word.now) words.entry.now) line) }
    ensures refused { FailsBy (fault_of command_line_spec.command_line
        (map (λ word. word.now) words.entry.now)) result }
{
    let matches = command(alloc)?.try_get_matches_from(words)?;
    Ok(said_in(&matches))
}

fn lacks_document(line: CommandLine<'_>) -> bool
    ensures { IsTrue result ↔ LacksDocument line.entry }
{
    (line.check || line.sql || line.report.is_some()) && line.views.is_none()
}

// A check without a document, the SQL of none, or a page of none.
fn no_views(alloc: Global) -> Result<Error, AllocError>
    ensures { IfOk result (λ error. kind_of error ≡ MissingRequiredArgument) }
{
    let mut command = command(alloc)?;
    command.error(
        ErrorKind::MissingRequiredArgument,
        "--check, --sql and --report want a view document: dfshell --check VIEWS",
    )
}

#[tactic(auto, unfolding(crate::specs::SessionLine::command_line))]
fn command<'a>(alloc: Global) -> Result<Command<'a>, AllocError>
    ensures { IfOk result (λ command. app_of command ≡ command_line_spec.command_line) }
{
    flags_command(alloc)?.arg(report_option(alloc))
}

// The command with the document and all of its flags.
fn flags_command<'a>(alloc: Global) -> Result<Command<'a>, AllocError>
    ensures { IfOk result (λ command. app_of command ≡ flags_line) }
{
    let bail = "Ends the session at the first refusal, with status 1";
    let framed =
        "For programs: before each answer a line says how many lines it has, as `ok 3`; no prompts";
    let sql = "Writes the document as SQL for PostgreSQL, and ends";
    document_command(alloc)?
        .arg(flag(alloc, "bail", bail))?
        .arg(flag(alloc, "framed", framed))?
        .arg(flag(alloc, "sql", sql))
}

// The command with the document and its first flags.
fn document_command<'a>(alloc: Global) -> Result<Command<'a>, AllocError>
    ensures { IfOk result (λ command. app_of command ≡ document_line) }
{
    let hall =
        "A session through a hall: a lock round the frames and views, and a version after each change";
    let check = "Opens the document and its files, says how many frames and views it has, and ends";
    nameless(alloc)
        .arg(views_word(alloc))?
        .arg(flag(alloc, "hall", hall))?
        .arg(flag(alloc, "check", check))
}

// The command without its arguments. The program's name is not among its words.
fn nameless<'a>(alloc: Global) -> Command<'a>
    ensures { app_of result ≡ program_app }
{
    Command::new(alloc, "dfshell")
        .about("Answers commands over the dataframes and views of a document")
        .version(VERSION)
        .after_help(AFTER_HELP)
        .no_binary_name(true)
}

fn views_word<'a>(alloc: Global) -> Arg<'a>
    ensures rule { rule_of result ≡ views_rule }
    ensures own { result.global ≡ false }
{
    Arg::new(alloc, "views").value_name("VIEWS").help(
        "The view document; without it, a session begins without frames",
    )
}

fn flag<'a>(alloc: Global, name: &'a str, help: &'a str) -> Arg<'a>
    ensures rule { rule_of result ≡ flag_rule name.entry.now }
    ensures own { result.global ≡ false }
{
    Arg::new(alloc, name)
        .long(name)
        .action(ArgAction::SetTrue)
        .help(help)
}

fn report_option<'a>(alloc: Global) -> Arg<'a>
    ensures rule { rule_of result ≡ text_rule (codes "report") }
    ensures own { result.global ≡ false }
{
    Arg::new(alloc, "report")
        .long("report")
        .value_name("PATH")
        .help("Writes the views to one HTML page, and ends")
}

fn said_in<'a>(matches: &ArgMatches<'a>) -> CommandLine<'a>
    ensures views { option_map (λ v. v.now) result.views
        ≡ first_value (found_of matches.now) (codes "views") }
    ensures hall { IsFlagOf (one_text (found_of matches.now) (codes "hall")) result.hall }
    ensures check { IsFlagOf (one_text (found_of matches.now) (codes "check")) result.check }
    ensures bail { IsFlagOf (one_text (found_of matches.now) (codes "bail")) result.bail }
    ensures framed { IsFlagOf (one_text (found_of matches.now) (codes "framed")) result.framed }
    ensures sql { IsFlagOf (one_text (found_of matches.now) (codes "sql")) result.sql }
    ensures report { option_map (λ v. v.now) result.report
        ≡ first_value (found_of matches.now) (codes "report") }
{
    CommandLine {
        views: matches.get_str("views"),
        hall: is_set(matches, "hall"),
        check: is_set(matches, "check"),
        bail: is_set(matches, "bail"),
        framed: is_set(matches, "framed"),
        sql: is_set(matches, "sql"),
        report: matches.get_str("report"),
    }
}

fn is_set(matches: &ArgMatches<'_>, name: &str) -> bool
    ensures { IsFlagOf (one_text (found_of matches.now) name.now) result }
{
    matches.get_flag(name)
}
