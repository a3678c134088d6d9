//! The check of the views.
ghost use Rattle.std.specs.Prelude.{◌≡◌, IfErr, IfOk, IsOk, true};
ghost use Rattle.std.specs.Option.{option_copied};
ghost use Rattle.df_state.specs.Reads.{view_names_of, view_rows_of};
ghost use Rattle.df_state.specs.States.{IsLegal};
ghost use Rattle.df_shell.specs.Checks.{first_differing as first_differing_of};
ghost use Rattle.df_session.specs.Told.{IsMemory, check_text};

use df_catalogue::Catalogue;
use df_session::{Refusal, verdict};
use df_value::Text;
use std::alloc::Global;
use std::sync::ledger::Ledger;

/// Computes each view anew from the frames, and compares: `same`, or `differs` and the first view
/// whose table has other rows.
///
/// That none differs is proved. The check is for whoever would rather see it, and it finds what no
/// proof rules out, as memory that fails.
pub fn check<Acc: Ledger, Del: Ledger>(
    alloc: Global,
    catalogue: &Catalogue<Acc, Del>,
) -> Result<Vec<u8>, Refusal>
    ensures told { IfOk result (λ text.
        text.items ≡ check_text (first_differing_of catalogue.now.state)) }
    ensures refused { IfErr result IsMemory }
{
    let names = catalogue.view_names(alloc)?;
    let found = first_differing(alloc, catalogue, names.as_slice())?;
    Ok(verdict(alloc, found)?)
}

// The name of the first view that differs.
#[tactic(auto, using(crate::proofs::CheckFacts::none_differs))]
fn first_differing<'a, Acc: Ledger, Del: Ledger>(
    alloc: Global,
    catalogue: &Catalogue<Acc, Del>,
    names: &'a [Text],
) -> Result<Option<&'a Text>, Refusal>
    requires names { names.now ≡ view_names_of catalogue.now.state }
    requires legal { IsLegal catalogue.now.state }
    ensures found { IfOk result (λ name.
        option_copied name ≡ first_differing_of catalogue.now.state) }
    ensures refused { IfErr result IsMemory }
{
    for name in names {
        if !is_same(alloc, catalogue, name)? {
            return Ok(Some(name));
        }
    }
    Ok(None)
}

// Whether the view has the rows that the plain evaluator gives.
fn is_same<Acc: Ledger, Del: Ledger>(
    alloc: Global,
    catalogue: &Catalogue<Acc, Del>,
    name: &Text,
) -> Result<bool, Refusal>
    requires { IsOk (view_rows_of catalogue.now.state name.now) }
    ensures same { IfOk result (λ same. same ≡ true) }
    ensures refused { IfErr result IsMemory }
{
    let name = name.as_str();
    let rows = catalogue.view_rows(alloc, name)?;
    let computed = catalogue.computed_rows(alloc, name)?;
    Ok(rows == computed)
}
