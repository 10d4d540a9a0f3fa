ghost use Rattle.std.specs.Prelude.{◌≡◌, ◌+◌, ◌<◌, length};
ghost use Rattle.turn_table.specs.Views.{seat_in, at_rest};

use crate::turned::Turned;
use crate::view::View;
use atomic_table::Seat;

/// The right to a seat of a table, between its turns. Contracts see by it which history the seat has seen,
/// the room that is kept for it, and whether its last look said that something waits.
#[derive(Drop)]
pub struct Pass<V: Turned> {
    /// The number of the seat.
    pub number: u32,
    pub seat: Seat<Option<V>, View<V, V::Entry>>,
    ghost rests: { seat.me ≡ at_rest seat.me },
    ghost one: { (length seat.me.0.parts ≡ 1) × (seat_in seat.me.0.parts ≡ number) },
    ghost fits: { (0 < number) × (number + 1 < seat.table_id.words) },
}
