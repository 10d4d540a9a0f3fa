//! The rule of the table. Word 0 is the next ticket, word 1 the ticket that is served, and word `k + 1` that of seat `k`.
//! As many bells come after these; the rule says nothing of them.
use crate::turned::Turned;
use crate::view::{Setup, View};
use atomic_table::TableRule;

pub struct Turns;

impl<V: Turned> TableRule<Option<V>, View<V, V::Entry>, Setup<V>> for Turns {
    ghost use Rattle.turn_table.specs.Kept.{Kept, first_view};

    ghost holds = { Kept V.fixed V.history V.owner V.waiting V.room };

    ghost first = { first_view V.fixed V.history V.owner V.waiting V.room };
}
