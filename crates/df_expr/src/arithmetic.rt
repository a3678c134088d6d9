//! Arithmetic that wraps.
ghost use Rattle.std.specs.Prelude.{◌≡◌};
ghost use Rattle.df_expr.specs.Arithmetic.{unbounded_result, wrapped_i64, IsWrapped};

use crate::expr::ArithOp;

impl ArithOp {
    /// The result as a whole number, wrapped at 64 bits.
    pub fn apply(self, a: i64, b: i64) -> i64
        ensures value { result ≡ wrapped_i64 (unbounded_result self a b) }

        // It equals the whole-number result modulo 2^64.
        ensures modulo { IsWrapped (unbounded_result self a b) result }
    {
        match self {
            ArithOp::Add => a.wrapping_add(b),
            ArithOp::Sub => a.wrapping_sub(b),
            ArithOp::Mul => a.wrapping_mul(b),
        }
    }
}
