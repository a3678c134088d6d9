//! The forms that a document's parts have, and the words that stand in them.

/// The words of steps.
pub const STEPS: [&str; 10] = [
    "filter",
    "select",
    "with_columns",
    "group_by",
    "join",
    "rolling_sum",
    "rolling_min",
    "rolling_max",
    "cum_sum",
    "rank",
];

/// The words of aggregates.
pub const AGGREGATES: [&str; 9] = [
    "len", "count", "sum", "min", "max", "first", "last", "n_unique", "mean",
];

/// The words of expressions.
pub const EXPRESSIONS: [&str; 18] = [
    "col",
    "null",
    "~",
    "is_null",
    "is_not_null",
    "+",
    "-",
    "*",
    "==",
    "!=",
    "<",
    "<=",
    ">",
    ">=",
    "eq_missing",
    "&",
    "|",
    "fill_null",
];

/// The kinds of joins.
pub const JOINS: [&str; 2] = ["inner", "left"];

/// What may stand behind the right side of a join.
pub const NULLS_EQUAL: [&str; 1] = ["nulls_equal"];

/// The kinds of ranks.
pub const RANKS: [&str; 2] = ["dense", "min"];

/// The types of columns.
pub const TYPES: [&str; 3] = ["Int", "Text", "Bool"];

/// The keys of a document.
pub const KEYS_OF_TOP: [&str; 2] = ["frame", "view"];

/// The keys of a frame.
pub const KEYS_OF_FRAME: [&str; 4] = ["name", "columns", "path", "text"];

/// The keys of a view.
pub const KEYS_OF_VIEW: [&str; 3] = ["name", "from", "steps"];

/// How a step of this word is written.
pub fn form_of_step(word: &str) -> &'static str {
    match word {
        "filter" => r#"["filter", EXPRESSION]"#,
        "select" => r#"["select", [OUTPUT, EXPRESSION], ..]"#,
        "with_columns" => r#"["with_columns", [OUTPUT, EXPRESSION], ..]"#,
        "group_by" => r#"["group_by", [KEY, ..], [OUTPUT, "len"], [OUTPUT, "sum", COLUMN], ..]"#,
        "join" =>
            r#"["join", "inner", [KEY, ..], FRAME] or with { from = FRAME, steps = [..] } for FRAME, and perhaps "nulls_equal" last"#,
        "cum_sum" => r#"["cum_sum", OUTPUT, COLUMN]"#,
        "rank" => r#"["rank", OUTPUT, "dense", COLUMN]"#,
        "rolling_sum" => r#"["rolling_sum", OUTPUT, COLUMN, ROWS], and perhaps LEAST last"#,
        "rolling_min" => r#"["rolling_min", OUTPUT, COLUMN, ROWS], and perhaps LEAST last"#,
        "rolling_max" => r#"["rolling_max", OUTPUT, COLUMN, ROWS], and perhaps LEAST last"#,
        _ => r#"[WORD, ..]"#,
    }
}
