ghost use Rattle.std.specs.Prelude.{◌≡◌, ◌+◌, ◌*◌, ◌<◌, [], ◌∷◌, length};
ghost use Rattle.turn_table.specs.Views.{seat_in, words_in, setups, in_turn};

use crate::plays::{Lower, Raise};
use crate::table::TurnTable;
use crate::turned::{Tells, Turned};
use crate::view::View;
use atomic_table::Seat;
use std::snapshot::Snapshot;

/// A turn, with the value. It ends by [`TurnTable::close`], and can't be let go before.
pub struct Turn<'a, V: Turned> {
    /// The number of its seat.
    pub number: u32,
    pub seat: Seat<Option<V>, View<V, V::Entry>>,
    pub value: V,
    /// The value as the turn was opened.
    pub opened: Snapshot<V>,
    pub(crate) table: &'a TurnTable<V>,
    ghost turns: { seat.me ≡ in_turn opened.value seat.me },
    ghost one: { (length seat.me.0.parts ≡ 1) × (seat_in seat.me.0.parts ≡ number) },
    ghost fits: { (0 < number) × (number + 1 < seat.table_id.words) },
    ghost wide: { 2 * length (words_in seat.me.0.stage) + 2 ≡ seat.table_id.words },
    ghost of: { (seat.table_id ≡ table.now.table.shared.table_id) × (setups seat.me.0.parts ≡ table.now.table.shared.key ∷ []) },
}

impl<'a, V: Turned> Turn<'a, V> {
    ghost use mir.Syntax.{named};
    ghost use Rattle.std.specs.Borrow.{Lends, sem};
    ghost use Rattle.std.specs.Prelude.{◌≤◌, true, false};
    ghost use Rattle.turn_table.specs.contracts.turn.Turn.{the_row};
    ghost use Rattle.turn_table.specs.Histories.{Grew};
    ghost use Rattle.turn_table.specs.Words.{set_word};
    ghost use Rattle.turn_table.specs.Passes.{words_of, IsSameTurn};

    /// The value in hand.
    pub fn value(&mut self) -> &mut V
        ensures* writes_back { sem 𝓛 (Lends (the_row (record { mir = named 1; lft = [] }) V.row V.Entry.row V.Fixed.row V.Turned) V.row self.entry result (λ w. record self.old { value = w })) }
        ensures value { result.now ≡ self.old.value }
    {
        &mut self.value
    }

    /// Raises the word of a seat for which something waits, after entries of this seat.
    pub fn raise(&mut self, seat: u32)
        requires seat { (0 < seat) × (seat ≤ length (words_of self.old)) }
        requires waits { V.waiting (V.history self.old.value) seat ≡ true }
        requires grew { Grew V.owner self.old.number (V.history self.old.opened.value) (V.history self.old.value) }
        ensures kept { IsSameTurn self.old self.new }
        ensures words { words_of self.new ≡ set_word (words_of self.old) seat 1 }
    {
        let shared = &self.table.table.shared;
        shared.store::<Raise>(&mut self.seat, seat as usize + 1, 1);
    }

    /// Lowers the own word, where nothing waits for the own seat.
    pub fn lower(&mut self)
        requires quiet { V.waiting (V.history self.old.value) self.old.number ≡ false }
        ensures kept { IsSameTurn self.old self.new }
        ensures words { words_of self.new ≡ set_word (words_of self.old) self.old.number 0 }
    {
        let shared = &self.table.table.shared;
        shared.store::<Lower>(&mut self.seat, self.number as usize + 1, 0);
    }
}

impl<'a, V: Tells> Turn<'a, V> {
    ghost use Rattle.turn_table.specs.Histories.{Grew};
    ghost use Rattle.turn_table.specs.Words.{TellExactly};
    ghost use Rattle.turn_table.specs.Passes.{words_of, IsSameTurn};

    /// Makes the words right for the value in hand, after entries of this seat: raises those of all seats
    /// for which something waits, and lowers the own one where nothing does. Others need no lowering,
    /// since entries of this seat never end their waiting.
    pub fn tell(&mut self)
        requires words { TellExactly V.waiting (V.history self.old.opened.value) (words_of self.old) }
        requires grew { Grew V.owner self.old.number (V.history self.old.opened.value) (V.history self.old.value) }
        ensures kept { IsSameTurn self.old self.new }
        ensures words { TellExactly V.waiting (V.history self.old.value) (words_of self.new) }
    {
        let seats = self.table.seats();
        let mut seat = 1;
        while seat <= seats {
            if self.value.waits_for(seat) {
                self.raise(seat);
            } else if seat == self.number {
                self.lower();
            }
            seat += 1;
        }
    }
}
