//! What the commands are, for whoever asks.
ghost use Rattle.std.specs.Prelude.{◌≡◌, ◌++◌, IfOk, OnOk, map, option_map};
ghost use Rattle.df_session.specs.Help.{entries, entry_of, help_list, help_on, text_if_any};

use std::alloc::{AllocError, Global};

/// A command: its name; a line with its words and what it does; an example, indented.
pub type CommandHelp = (&'static str, &'static str, &'static str);

/// The commands, in the order in which `help` lists them. A command of several forms has an entry for each.
pub const COMMANDS: [CommandHelp; 34] = [
    (
        "frame",
        "frame NAME COLUMN TYPE ..    declares a frame of these columns; without a document, before all changes\n",
        "    > frame sales region Text qty Int\n    ok\n",
    ),
    (
        "append",
        "append FRAME                 and lines of CSV up to a line with a dot alone: adds rows behind all others\n",
        "    > append sales\n    | east,5\n    | south,4\n    | .\n    ok 3..4\n",
    ),
    (
        "append",
        "append FRAME FIRST COUNT     and COUNT lines of CSV: adds rows, numbered from FIRST\n",
        "    > append sales 3 2\n    | east,5\n    | south,4\n    ok\n",
    ),
    (
        "load",
        "load FRAME PATH              adds the rows of a CSV file behind all others; a chunk of 1000 that is refused is left out\n",
        "    > load sales more.csv\n    ok 2 rows, 3..4\n",
    ),
    (
        "delete",
        "delete FRAME NUMBER ..       takes the rows of these numbers out\n",
        "    > delete sales 0 2\n    ok\n",
    ),
    (
        "replace",
        "replace FRAME NUMBER ..      and as many lines of CSV: puts each row in the place of that of its number\n",
        "    > replace sales 1\n    | south,7\n    ok\n",
    ),
    (
        "register",
        "register VIEW                adds the document's view of this name, or one that was defined\n",
        "    > register by_region\n    ok\n",
    ),
    (
        "define",
        "define VIEW FRAME STEPS      adds a view of a frame, with steps written as a document's: an array of them\n",
        "    > define large sales [[\"filter\", [\">\", [\"col\", \"qty\"], 100]]]\n    ok\n",
    ),
    (
        "drop",
        "drop VIEW                    takes a view out\n",
        "    > drop by_region\n    ok\n",
    ),
    (
        "frames",
        "frames                       the frames: how many rows each has, and its columns with their types\n",
        "    > frames\n    sales: 3 rows, region Text, qty Int\n",
    ),
    (
        "views",
        "views                        the names of the views\n",
        "    > views\n    by_region\n",
    ),
    (
        "schema",
        "schema NAME                  the columns of a frame, or else of a view, with their types\n",
        "    > schema by_region\n    region Text\n    n Int\n    total Wide\n",
    ),
    (
        "plan",
        "plan VIEW                    the view as a document writes it, registered or not\n",
        "    > plan by_region\n    [[view]]\n    name = \"by_region\"\n    from = \"sales\"\n    steps = [\n      [\"group_by\", [\"region\"], [\"n\", \"len\"], [\"total\", \"sum\", \"qty\"]],\n    ]\n",
    ),
    (
        "sql",
        "sql VIEW                     the view as SQL for PostgreSQL, behind the tables of the frames that it reads\n",
        "    > sql large\n    CREATE SCHEMA IF NOT EXISTS frames;\n    ..\n    CREATE VIEW views.\"large\" AS\n    ..\n",
    ),
    (
        "show",
        "show VIEW                    the table of a view\n",
        "    > show by_region\n    by_region (2 x 3)\n    region  n  total\n    north   2      2\n    south   1      0\n",
    ),
    (
        "show",
        "show VIEW COUNT              its first COUNT rows, and how many more there are\n",
        "    > show by_region 1\n    by_region (1 x 3)\n    region  n  total\n    north   2      2\n    .. 1 more row\n",
    ),
    (
        "show",
        "show VIEW from ROW COUNT     COUNT rows from row ROW on, the first being 0, and how many lie around them\n",
        "    > show by_region from 1 1\n    by_region (1 x 3)\n    region  n  total\n    south   1      0\n    .. 1 row before, 0 behind\n",
    ),
    (
        "show",
        "show VIEW .. csv             these rows as CSV; with json as lines of JSON; with html as a section of a page\n",
        "    > show by_region csv\n    region,n,total\n    north,2,2\n    south,1,0\n    > show by_region 1 json\n    {\"region\":\"north\",\"n\":2,\"total\":2}\n",
    ),
    (
        "watch",
        "watch VIEW                   writes behind each change of rows what it does to a view, in lines of CSV\n",
        "    > watch by_region\n    ok\n    > append sales 3 1\n    | south,4\n    ok\n    change by_region 3 2\n    -,1,south,1,0\n    +,1,south,2,4\n",
    ),
    (
        "unwatch",
        "unwatch VIEW                 writes it no longer\n",
        "    > unwatch by_region\n    ok\n",
    ),
    (
        "changes",
        "changes VIEW                 what the last change of rows did to a view that is watched\n",
        "    > changes by_region\n    change by_region 3 2\n    -,1,south,1,0\n    +,1,south,2,4\n",
    ),
    (
        "export",
        "export VIEW PATH             writes the table of a view to a file, as CSV, whole or not at all\n",
        "    > export by_region totals.csv\n    ok 2 rows\n",
    ),
    (
        "report",
        "report PATH [VIEW ..]        writes a page of all views, or of these, to a file: the first 1000 rows of each\n",
        "    > report totals.html\n    ok 1 view\n",
    ),
    (
        "follow",
        "follow PATH [VIEW ..]        writes such a page now and behind changes, at most once a second; a browser loads it again\n",
        "    > follow totals.html\n    ok 1 view\n",
    ),
    (
        "unfollow",
        "unfollow PATH                writes the page no longer\n",
        "    > unfollow totals.html\n    ok\n",
    ),
    (
        "rows",
        "rows FRAME                   the table of a frame, and the numbers of its rows\n",
        "    > rows sales\n    sales (1 x 2)\n    region   qty\n    south   null\n    numbers 1\n",
    ),
    (
        "rows",
        "rows FRAME csv               the rows with their numbers as CSV; with json as lines of JSON; with html, without numbers\n",
        "    > rows sales csv\n    number,region,qty\n    1,south,\n    > rows sales json\n    {\"number\":1,\"region\":\"south\",\"qty\":null}\n",
    ),
    (
        "books",
        "books FRAME                  how many rows were accepted and deleted, and how many there are\n",
        "    > books sales\n    accepted 3, deleted 2, live 1\n",
    ),
    (
        "check",
        "check                        whether each view has the rows that its plan gives: same, or differs and a view\n",
        "    > check\n    same\n",
    ),
    (
        "work",
        "work                         what the views counted at the last change of rows; not with --hall\n",
        "    > work\n    evals 0, finishes 2, probes 0, windows 0\n",
    ),
    (
        "version",
        "version                      the number of the newest version; only with --hall\n",
        "    > version\n    version 2\n",
    ),
    (
        "source",
        "source PATH                  the answers to the commands in a file, as if they stood here\n",
        "    > source today.txt\n    ok\n",
    ),
    (
        "help",
        "help [COMMAND]               this list, or a command with an example\n",
        "    > help drop\n    drop VIEW                    takes a view out\n        > drop by_region\n        ok\n",
    ),
    (
        "quit",
        "quit                         ends the session, as the end of input does\n",
        "    > quit\n",
    ),
];

/// The commands, a line each.
pub fn list_commands(alloc: Global, commands: &[CommandHelp]) -> Result<Vec<u8>, AllocError>
    ensures { IfOk result (λ text.
        text.items ≡ help_list (map (λ c. (c.0.now, c.1.now, c.2.now)) commands.now)) }
{
    let mut text = Vec::new(alloc);
    for command in commands {
        text.extend_from_slice(command.1.as_bytes())?;
    }
    Ok(text)
}

/// The forms of the command of this name, each with its example. None: no command has the name.
pub fn explain_command(
    alloc: Global,
    commands: &[CommandHelp],
    name: &str,
) -> Result<Option<Vec<u8>>, AllocError>
    ensures { IfOk result (λ text. option_map (λ t. t.items) text
        ≡ help_on name.now (map (λ c. (c.0.now, c.1.now, c.2.now)) commands.now)) }
{
    let text = entries_of(alloc, commands, name)?;
    Ok(if_any(text))
}

fn if_any(text: Vec<u8>) -> Option<Vec<u8>>
    ensures { option_map (λ t. t.items) result ≡ text_if_any text.items }
{
    if text.is_empty() { None } else { Some(text) }
}

fn entries_of(alloc: Global, commands: &[CommandHelp], name: &str) -> Result<Vec<u8>, AllocError>
    ensures { IfOk result (λ text. text.items
        ≡ entries name.now (map (λ c. (c.0.now, c.1.now, c.2.now)) commands.now)) }
{
    let mut text = Vec::new(alloc);
    for command in commands {
        push_entry(&mut text, command, name)?;
    }
    Ok(text)
}

fn push_entry(text: &mut Vec<u8>, command: &CommandHelp, name: &str) -> Result<(), AllocError>
    ensures { OnOk result (text.new.items ≡ text.old.items
        ++ entry_of name.now (command.now.0.now, command.now.1.now, command.now.2.now)) }
{
    if command.0 == name {
        text.extend_from_slice(command.1.as_bytes())?;
        text.extend_from_slice(command.2.as_bytes())?;
    }
    Ok(())
}
