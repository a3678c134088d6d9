//! The claims, and the seats by which workers draw numbers.
ghost use Rattle.std.specs.Prelude.{◌≡◌, ◌<◌, ◌≤◌, ◌^◌, ◌++◌, ◌∷◌, [], All, IfNone, IfOk, IfSome, None, length, vec_capacity};
ghost use Rattle.df_claims.specs.Lawful.{first_draws, most_seats};
ghost use Rattle.df_claims.specs.Seats.{AreAllDrawn, AreAllSeats, IsFinished, IsFresh, IsSeatOf, seat_after};

use crate::rule::{Draw, DrawnOnce, Draws, Part};
use atomic_table::{Seat, Table};
use std::alloc::{AllocError, Global};
use std::marker::Model;

/// Numbers below a total, to be drawn by several threads, each number at most once.
pub struct Claims {
    table: Table<(), Draws, u64, DrawnOnce, Global>,
    total: u64,
}

// A body that owns one drops it by a call.
impl Drop for Claims {
    fn drop(self) {
        let Claims { table, total: _ } = self;
        drop(table);
    }
}

impl Model for Claims {
    ghost use Rattle.std.specs.Prelude.{◌≡◌};
    ghost use Rattle.df_claims.specs.Seats.{ClaimsView};

    ghost Value = { ClaimsView };

    ghost view = { λ c. record { table = c.table.shared.table_id; total = c.total } };

    ghost invariant = { λ c. (c.table.shared.key ≡ c.total) × (c.table.shared.table_id.words ≡ 1) };
}

/// What a worker draws with. It knows whether it got none; the list of the numbers drawn with it exists in
/// proofs alone.
pub struct ClaimSeat {
    seat: Seat<(), Draws>,
    is_finished: bool,
}

// A body that owns one drops it by a call.
impl Drop for ClaimSeat {
    fn drop(self) {
        let ClaimSeat {
            seat,
            is_finished: _,
        } = self;
        drop(seat);
    }
}

impl Model for ClaimSeat {
    ghost use Rattle.std.specs.Prelude.{◌≡◌, [], if◌then◌else◌};
    ghost use Rattle.df_claims.specs.Seats.{SeatView};

    ghost Value = { SeatView };

    ghost view = { λ s. record { table = s.seat.table_id; id = s.seat.id; draws = s.seat.me.0 } };

    ghost invariant = { λ s. (s.seat.me.0.misses ≡ (if s.is_finished then 1 else 0)) × (s.seat.me.1 ≡ []) };
}

impl Claims {
    /// The claims of the numbers below `total`, and as many seats as `seats` says: 1 to 16, one for each thread that
    /// draws. The word and the seats are allocated here, and nothing is later.
    pub fn new(
        alloc: Global,
        total: u64,
        seats: usize,
    ) -> Result<(Claims, Vec<ClaimSeat>), AllocError>
        requires total { total ≤ 2 ^ 32 }
        requires seats { (1 ≤ seats) × (seats ≤ most_seats) }
        ensures total { IfOk result (λ made. made.0.total ≡ total) }
        ensures count { IfOk result (λ made. length made.1.items ≡ seats) }
        ensures fresh { IfOk result (λ made. All IsFresh made.1.items) }
        ensures all { IfOk result (λ made. AreAllSeats made.0 made.1.items) }
    {
        let room = Vec::with_capacity(alloc, seats)?;
        let (table, first) = Table::of_words(alloc, &[0], &total)?;
        let claims = Claims { table, total };
        let seats = claims.cut(first, seats, room);
        Ok((claims, seats))
    }

    // Cuts the first seat into so many, in the room that is there.
    fn cut(
        &self,
        mut first: Seat<(), Draws>,
        count: usize,
        mut seats: Vec<ClaimSeat>,
    ) -> Vec<ClaimSeat>
        requires first { (first.table_id ≡ self.now.table)
            × (first.me ≡ (first_draws self.now.total, [])) }
        requires count { (1 ≤ count) × (count ≤ most_seats) }
        requires room { (seats.items ≡ []) × (count ≤ vec_capacity seats) }
        ensures count { length result.items ≡ count }
        ensures fresh { All IsFresh result.items }
        ensures all { AreAllSeats self.now result.items }
    {
        for _ in 1..count {
            let seat = self.table.shared.split_seat::<Part>(&mut first);
            seats.push_reserved(ClaimSeat {
                seat,
                is_finished: false,
            });
        }
        seats.push_reserved(ClaimSeat {
            seat: first,
            is_finished: false,
        });
        seats
    }

    /// Draws a number below the total that no other call has drawn or will draw. None once all are drawn; from then
    /// on the seat makes no step, and gets None again. It waits for nobody: it makes one atomic step, or none.
    pub fn next(&self, seat: &mut ClaimSeat) -> Option<u64>
        requires { IsSeatOf self.now seat.old }
        ensures seat { IsSeatOf self.now seat.new × (seat.new ≡ seat_after result seat.old) }
        ensures drawn { IfSome result (λ n. (n < self.now.total)
            × (seat.new.draws.numbers ≡ seat.old.draws.numbers ++ n ∷ [])) }
        ensures none { IfNone result (IsFinished seat.new × AreAllDrawn self.now seat.new) }
        ensures finished { IsFinished seat.old → (result ≡ None) × (seat.new ≡ seat.old) }
    {
        if seat.is_finished {
            return None;
        }
        let found = self.table.shared.fetch_add::<Draw>(&mut seat.seat, 0, 1);
        if found < self.total {
            Some(found)
        } else {
            seat.is_finished = true;
            None
        }
    }
}
