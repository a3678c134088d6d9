//! Truth with null: Kleene's three values, `None` being null.
ghost use Rattle.std.specs.Prelude.{◌≡◌};
ghost use Rattle.df_value.specs.CellRefs.{cell_of_ref};
ghost use Rattle.df_expr.specs.Logic as logic;
ghost use Rattle.df_expr.specs.Value as value_spec;

use df_value::CellRef;

/// Kleene's "and": false where one is false, else null where one is null.
pub fn kleene_and(a: Option<bool>, b: Option<bool>) -> Option<bool>
    ensures value { result ≡ logic.kleene_and a b }
    ensures symmetric { logic.kleene_and a b ≡ logic.kleene_and b a }
    ensures de_morgan { logic.kleene_not (logic.kleene_and a b)
        ≡ logic.kleene_or (logic.kleene_not a) (logic.kleene_not b) }
{
    match (a, b) {
        (Some(false), _) | (_, Some(false)) => Some(false),
        (Some(true), Some(true)) => Some(true),
        _ => None,
    }
}

/// Kleene's "or": true where one is true, else null where one is null.
pub fn kleene_or(a: Option<bool>, b: Option<bool>) -> Option<bool>
    ensures value { result ≡ logic.kleene_or a b }
    ensures symmetric { logic.kleene_or a b ≡ logic.kleene_or b a }
    ensures de_morgan { logic.kleene_not (logic.kleene_or a b)
        ≡ logic.kleene_and (logic.kleene_not a) (logic.kleene_not b) }
{
    match (a, b) {
        (Some(true), _) | (_, Some(true)) => Some(true),
        (Some(false), Some(false)) => Some(false),
        _ => None,
    }
}

/// The other truth; null stays null.
pub fn kleene_not(a: Option<bool>) -> Option<bool>
    ensures value { result ≡ logic.kleene_not a }
    ensures twice { logic.kleene_not (logic.kleene_not a) ≡ a }
{
    a.map(|truth| !truth)
}

// What a cell says as a truth: none for null, and for a cell that is no Bool.
pub fn truth_of(cell: CellRef<'_>) -> Option<bool>
    ensures { result ≡ value_spec.truth_of (cell_of_ref cell.entry) }
{
    match cell {
        CellRef::Bool(truth) => Some(truth),
        _ => None,
    }
}

// The cell of a truth.
pub fn cell_of<'r>(truth: Option<bool>) -> CellRef<'r>
    ensures { cell_of_ref result ≡ value_spec.cell_of truth }
{
    match truth {
        Some(truth) => CellRef::Bool(truth),
        None => CellRef::Null,
    }
}
