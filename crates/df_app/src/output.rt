//! The output of a document.
ghost use Rattle.std.specs.Prelude.{◌≡◌, ◌++◌, All, IfOk, IsOk, OnOk, codes, flat_map, map};
ghost use Rattle.std.specs.List.{join_by};
ghost use Rattle.df_state.specs.Reads.{view_rows_of};
ghost use Rattle.df_app.specs.Loading.{outcome_of_load, printed_in, text_of_load};
ghost use Rattle.df_app.specs.Output.{refused_block};

use crate::outcome::{Outcome, Output};
use crate::refused::lines_of;
use df_catalogue::{Catalogue, CatalogueFault};
use df_plan::CheckedPlan;
use df_print::print_table_by;
use df_store::{Loaded, Refused};
use df_text::FrameSpec;
use df_value::{List, Text};
use std::alloc::{AllocError, Global};
use std::sync::ledger::Ledger;
use std::thread::Threads;

/// What a run over a document of these frames and views writes of what was loaded with the views. At most so many threads
/// print a view.
pub(crate) fn output<Acc: Ledger, Del: Ledger, R: Threads + Sync>(
    rt: &R,
    alloc: Global,
    frames: &[FrameSpec],
    views: &[(Text, CheckedPlan)],
    loaded: &Loaded<Acc, Del>,
    threads: usize,
) -> Result<Output, AllocError>
    requires { All (λ view. IsOk (view_rows_of loaded.now.catalogue.state view.0)) views.now }
    ensures text { IfOk result (λ o. o.text
        ≡ text_of_load loaded.now.catalogue.state frames.now views.now loaded.now.refused) }
    ensures ends { IfOk result (λ o. o.outcome ≡ outcome_of_load loaded.now.refused) }
{
    let refused = loaded.refused.as_slice();
    let lines = lines_of(alloc, frames, refused)?;
    let mut blocks = print_views(rt, alloc, &loaded.catalogue, views, threads)?;
    add_lines(&mut blocks, lines)?;
    Ok(Output {
        text: joined(alloc, blocks.as_slice())?,
        outcome: outcome(refused),
    })
}

fn outcome(refused: &[Refused]) -> Outcome
    ensures { result ≡ outcome_of_load refused.now }
{
    match refused {
        [] => Outcome::Clean,
        [_, ..] => Outcome::Refused,
    }
}

// The refused lines are the last block, if there are any.
fn add_lines(blocks: &mut Vec<List<u8>>, lines: List<u8>) -> Result<(), AllocError>
    ensures { OnOk result (blocks.new.items ≡ blocks.old.items ++ refused_block lines) }
{
    if lines.is_empty() {
        return Ok(());
    }
    blocks.push(lines)?;
    Ok(())
}

fn print_views<Acc: Ledger, Del: Ledger, R: Threads + Sync>(
    rt: &R,
    alloc: Global,
    catalogue: &Catalogue<Acc, Del>,
    views: &[(Text, CheckedPlan)],
    threads: usize,
) -> Result<Vec<List<u8>>, AllocError>
    requires { All (λ view. IsOk (view_rows_of catalogue.now.state view.0)) views.now }
    ensures { IfOk result
        (λ tables. tables.items ≡ map (printed_in catalogue.now.state) views.now) }
{
    let mut tables = Vec::new(alloc);
    for view in views {
        tables.push(print_view(rt, alloc, catalogue, view, threads)?)?;
    }
    Ok(tables)
}

// The catalogue has the view, so that nothing but memory is refused.
fn print_view<Acc: Ledger, Del: Ledger, R: Threads + Sync>(
    rt: &R,
    alloc: Global,
    catalogue: &Catalogue<Acc, Del>,
    view: &(Text, CheckedPlan),
    threads: usize,
) -> Result<List<u8>, AllocError>
    requires { IsOk (view_rows_of catalogue.now.state view.now.0) }
    ensures { IfOk result (λ table. table ≡ printed_in catalogue.now.state view.now) }
{
    let (name, plan) = view;
    match catalogue.view_rows(alloc, name.as_str()) {
        Ok(rows) => {
            let schema = plan.schema();
            let table = print_table_by(rt, alloc, name, schema, rows.as_slice(), threads)?;
            Ok(List::from_vec(table))
        }
        Err(CatalogueFault::Memory) => Err(AllocError),
        Err(_) => unreachable!(),
    }
}

// The blocks with an empty line between each two.
fn joined(alloc: Global, blocks: &[List<u8>]) -> Result<List<u8>, AllocError>
    ensures { IfOk result (λ text. text ≡ join_by (λ block. block) (codes "\n") blocks.now) }
{
    match blocks {
        [] => Ok(List::from_vec(Vec::new(alloc))),
        [first, rest @ ..] => joined_behind(alloc, first, rest),
    }
}

fn joined_behind(alloc: Global, first: &List<u8>, rest: &[List<u8>]) -> Result<List<u8>, AllocError>
    ensures { IfOk result
        (λ text. text ≡ first.now ++ flat_map (λ block. codes "\n" ++ block) rest.now) }
{
    let mut text = Vec::from_slice(alloc, first.as_slice())?;
    for block in rest {
        push_block(&mut text, block)?;
    }
    Ok(List::from_vec(text))
}

fn push_block(text: &mut Vec<u8>, block: &List<u8>) -> Result<(), AllocError>
    ensures { OnOk result (text.new.items ≡ text.old.items ++ (codes "\n" ++ block.now)) }
{
    text.push(b'\n')?;
    text.extend_from_slice(block.as_slice())
}
