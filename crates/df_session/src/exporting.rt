//! Tables in files.
ghost use Rattle.std.specs.Prelude.{◌≡◌, IfErr, IfOk, OnOk, string_bytes};
ghost use Rattle.df_session.specs.Exported as exported;
ghost use Rattle.df_session.specs.Exported.{IsRefusalOfExport, exported_text, row_count};

use crate::prompts::plural_end;
use crate::refusal::{Refusal, WriteFault};
use std::alloc::{AllocError, Global};

/// Writes files, each whole or not at all.
pub trait WriteFiles {
    ghost use Rattle.std.specs.Prelude.{ℕ, List};

    /// A file of these bytes stands under the path.
    ghost Writes: { Self → Self → List ℕ → List ℕ → Type 0 };

    /// Puts a file of these bytes in the place of what stands under a path, which is taken as written. At a fault nothing of
    /// it is left, and under the path stands what stood there.
    fn write_whole(&mut self, alloc: Global, path: &str, bytes: &[u8]) -> Result<(), WriteFault>
        ensures { OnOk result (Writes self.old self.new path.now bytes.now) };
}

/// Writes a table, which is CSV, to a file, and tells how many rows it has.
pub fn export<F: WriteFiles>(
    alloc: Global,
    files: &mut F,
    path: &str,
    table: &[u8],
) -> Result<String, Refusal>
    ensures written { OnOk result (F.Writes files.old files.new path.now table.now) }
    ensures told { IfOk result (λ text. string_bytes text ≡ exported_text (row_count table.now)) }
    ensures refused { IfErr result IsRefusalOfExport }
{
    // Made first, so that nothing is refused behind the file.
    let told = rows_told(alloc, rows_in(table))?;
    files.write_whole(alloc, path, table)?;
    Ok(told)
}

fn rows_told(alloc: Global, rows: usize) -> Result<String, AllocError>
    ensures { IfOk result (λ text. string_bytes text ≡ exported_text rows) }
{
    let end = plural_end(rows);
    format!(in alloc; "ok {rows} row{end}\n")
}

// How many rows a table has.
fn rows_in(table: &[u8]) -> usize
    ensures { result ≡ row_count table.now }
{
    record_ends(table).saturating_sub(1)
}

// How many records of a table end: at line ends outside quotes.
fn record_ends(table: &[u8]) -> usize
    ensures { result ≡ exported.record_ends table.now }
{
    let mut quoted = false;
    let mut ends = 0;
    for byte in table {
        ends += ends_record(quoted, *byte);
        quoted = is_quoted_behind(quoted, *byte);
    }
    ends
}

fn ends_record(quoted: bool, byte: u8) -> usize
    ensures { result ≡ exported.ends_record quoted byte }
{
    if byte == b'\n' && !quoted { 1 } else { 0 }
}

fn is_quoted_behind(quoted: bool, byte: u8) -> bool
    ensures { result ≡ exported.is_quoted_behind quoted byte }
{
    if byte == b'"' { !quoted } else { quoted }
}
