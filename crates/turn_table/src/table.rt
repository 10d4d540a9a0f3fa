ghost use Rattle.std.specs.Prelude.{◌≡◌, ◌+◌, ◌*◌, ◌%◌, ◌<◌, ◌≤◌};

use crate::pass::Pass;
use crate::plays::{Draw, Look, PassOn, Ring, Serve};
use crate::rule::Turns;
use crate::seating::{deal, gather, lay};
use crate::turn::Turn;
use crate::turned::Turned;
use crate::view::{Setup, View};
use atomic_table::Table;
use std::alloc::{AllocError, Global};
use std::snapshot::Snapshot;
use std::sync::Wait;

// The words: the next ticket, the one that is served, that of each seat, and then as many bells.
const TICKET: usize = 0;

const SERVING: usize = 1;

/// One value, which seats use by turns.
#[derive(Drop)]
pub struct TurnTable<V: Turned> {
    pub table: Table<Option<V>, View<V, V::Entry>, Setup<V>, Turns, Global>,
    count: u32,
    ghost counted: { (count ≡ table.shared.key.seats) × (0 < count) × (count ≤ 64) },
    ghost sized: { (table.shared.table_id.words ≡ 2 * table.shared.key.seats + 2) × (table.shared.table_id.slots ≡ 1) × (0 < table.shared.key.seats) },
}

impl<V: Turned> TurnTable<V> {
    ghost use Rattle.std.specs.Prelude.{◌≢◌, ℕ, true, false, IfOk, length, map};
    ghost use Rattle.std.specs.List.{AllByRecursion};
    ghost use Rattle.turn_table.specs.Histories.{Follows, Grew};
    ghost use Rattle.turn_table.specs.Words.{TellExactly};
    ghost use Rattle.turn_table.specs.Numbered.{HasSeat};
    ghost use Rattle.turn_table.specs.Passes.{AreNumbered, start_of, seats_of, IsPassOf, IsTurnOf, seen_by, room_of, was_told, words_of};

    /// A table of this value, with a pass for each seat, in order. There are 1 to 64 seats, and nothing
    /// waits for any of them. Out of memory, the value is dropped.
    pub fn new(
        alloc: Global,
        value: V,
        seats: u32,
    ) -> Result<(TurnTable<V>, Vec<Pass<V>>), AllocError>
        requires seats { (0 < seats) × (seats ≤ 64) }
        requires quiet { (k : ℕ) → 0 < k → k ≤ seats → V.waiting (V.history value) k ≡ false }
        ensures told { IfOk result (λ r. (seats_of r.0 ≡ seats) × (start_of r.0 ≡ value)) }
        ensures passes { IfOk result (λ r. (length r.1.items ≡ seats) × AreNumbered V.history V.room r.0 1 r.1.items) }
    {
        let passes = Vec::with_capacity(alloc, seats as usize)?;
        let (table, seat) = lay(alloc, value, seats)?;
        let passes = deal(&table.shared, seat, seats, passes);
        let table = TurnTable {
            table,
            count: seats,
        };
        Ok((table, passes))
    }

    /// How many seats it has.
    pub fn seats(&self) -> u32
        ensures { result ≡ seats_of self.now }
    {
        self.count
    }

    // The word that is the bell of a ticket. No two tickets that wait share one, since at most as many as there are seats are out.
    fn bell(&self, ticket: u64) -> usize
        ensures bell { result ≡ seats_of self.now + 2 + ticket % seats_of self.now }
        ensures within { (seats_of self.now + 1 < result) × (result < self.now.table.shared.table_id.words) }
    {
        let seats = self.count as u64;
        (seats + 2 + ticket % seats) as usize
    }

    /// Waits until all turns that were asked for before are closed, and gives the value.
    pub fn open<'a, R: Wait>(&'a self, rt: &R, pass: Pass<V>) -> Turn<'a, V>
        requires of { IsPassOf self.now pass }
        ensures of { IsTurnOf self.now result }
        ensures seat { result.number ≡ pass.number }
        ensures value { result.value ≡ result.opened.value }
        ensures fixed { V.fixed result.opened.value ≡ V.fixed (start_of self.now) }
        ensures seen { Follows V.owner pass.number (seen_by pass) (V.history result.opened.value) }
        ensures room { room_of pass ≤ V.room result.opened.value pass.number }
        ensures words { TellExactly V.waiting (V.history result.opened.value) (words_of result) }
        ensures told { was_told pass ≡ true → V.waiting (V.history result.opened.value) pass.number ≡ true }
    {
        let Pass { number, mut seat } = pass;
        let shared = &self.table.shared;
        let ticket = shared.fetch_add::<Draw>(&mut seat, TICKET, 1);
        let bell = self.bell(ticket);
        for _ in rt.forever() {
            // read before the served ticket: where a close comes between, the bell rings, and the thread doesn't park
            let heard = shared.peek(bell);
            let serving = shared.load::<Serve>(&mut seat, SERVING);
            if serving == ticket {
                let value = shared.exchange(&mut seat, 0, None).unwrap();
                let opened = Snapshot::of(&value);
                return Turn {
                    number,
                    seat,
                    value,
                    opened,
                    table: self,
                };
            }
            // a wait looks at the low 32 bits of a word
            shared.park(rt, bell, (heard % (1 << 32)) as u32);
        }
        unreachable!()
    }

    /// Puts the value back, and lets the next seat have it. Since the turn was opened the history grew by
    /// entries of its seat alone, the room of the others is no less, and the words are right.
    pub fn close(&self, turn: Turn<'_, V>) -> Pass<V>
        requires of { IsTurnOf self.now turn }
        requires grew { Grew V.owner turn.number (V.history turn.opened.value) (V.history turn.value) }
        requires fixed { V.fixed turn.value ≡ V.fixed turn.opened.value }
        requires rooms { (k : ℕ) → k ≢ turn.number → V.room turn.opened.value k ≤ V.room turn.value k }
        requires words { TellExactly V.waiting (V.history turn.value) (words_of turn) }
        ensures of { IsPassOf self.now result }
        ensures seat { result.number ≡ turn.entry.number }
        ensures seen { seen_by result ≡ V.history turn.entry.value }
        ensures room { room_of result ≡ V.room turn.entry.value turn.entry.number }
        ensures told { was_told result ≡ false }
    {
        let Turn {
            number,
            mut seat,
            value,
            opened: _,
            table: _,
        } = turn;
        let shared = &self.table.shared;
        let empty = shared.exchange(&mut seat, 0, Some(value));
        let None = empty else { unreachable!() };
        let served = shared.fetch_add::<PassOn>(&mut seat, SERVING, 1);
        let bell = self.bell(served.wrapping_add(1));
        shared.fetch_add::<Ring>(&mut seat, bell, 1);
        shared.wake_one(bell);
        Pass { number, seat }
    }

    /// Whether something waits for the seat, by its word. It waits for nobody, and takes no turn: another
    /// seat may have the value.
    pub fn look(&self, pass: &mut Pass<V>) -> bool
        requires of { IsPassOf self.now pass.old }
        ensures of { IsPassOf self.now pass.new }
        ensures seat { pass.new.number ≡ pass.old.number }
        ensures room { room_of pass.new ≡ room_of pass.old }
        ensures seen { Follows V.owner pass.old.number (seen_by pass.old) (seen_by pass.new) }
        ensures no { result ≡ false → V.waiting (seen_by pass.new) pass.old.number ≡ false }
        ensures told { was_told pass.new ≡ result }
    {
        let word = self
            .table
            .shared
            .load::<Look>(&mut pass.seat, pass.number as usize + 1);
        word != 0
    }

    /// The value, once all passes are back, in whatever order.
    pub fn finish(self, mut passes: Vec<Pass<V>>) -> V
        requires of { AllByRecursion (λ p. IsPassOf self p) passes.items }
        requires all { (k : ℕ) → 0 < k → k ≤ seats_of self → HasSeat k (map (λ p. p.number) passes.items) }
        ensures fixed { V.fixed result ≡ V.fixed (start_of self) }
        ensures seen { AllByRecursion (λ p. Follows V.owner p.number (seen_by p) (V.history result)) passes.items }
        ensures room { AllByRecursion (λ p. room_of p ≤ V.room result p.number) passes.items }
    {
        let Some(Pass { number: _, seat }) = passes.pop() else {
            unreachable!()
        };
        let seat = gather(&self.table.shared, seat, passes);
        let TurnTable { table, count: _ } = self;
        let mut closed = table.close_with(seat);
        let value = closed.take(0);
        closed.free();
        value.unwrap()
    }
}
