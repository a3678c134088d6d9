//! The rule between any two steps on the claims, and what each kind of step does to the views of the seats.

use atomic_table::{Play, Split, TableRule};

/// What a seat knows. It exists in proofs alone: no value of it is made.
pub struct Draws {
    /// The numbers that the seat drew, in order: `[u64; 0]` stands for a list of any length.
    pub numbers: [u64; 0],
    /// How often the seat got none: at most once.
    pub misses: u64,
    /// How many of the claims' parts the seat has, 16 in all.
    pub parts: u64,
    /// The total of the claims.
    pub total: u64,
}

// Between any two steps, each number below the total was drawn at most once.
pub(crate) struct DrawnOnce;

impl TableRule<(), Draws, u64> for DrawnOnce {
    ghost use Rattle.df_claims.specs.Lawful.{Lawful, first_draws};

    ghost holds = { Lawful };

    ghost first = { first_draws };
}

// A number is drawn, or none is left.
pub(crate) struct Draw;

impl Play<(), Draws> for Draw {
    ghost use Rattle.df_claims.specs.Lawful.{Drew};

    ghost then = { Drew };
}

// A new seat takes one part.
pub(crate) struct Part;

impl Split<Draws> for Part {
    ghost use Rattle.df_claims.specs.Lawful.{less_a_part, one_part};

    ghost left = { less_a_part };

    ghost right = { one_part };
}
