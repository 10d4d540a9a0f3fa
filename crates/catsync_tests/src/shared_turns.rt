ghost use Rattle.std.specs.Prelude.{◌≡◌, ◌≢◌, ◌≤◌, ℕ};
ghost use Rattle.base_types.specs.Scenario.{IsBackend};
ghost use Rattle.shared_seg.specs.Kept.{places_in};
ghost use Rattle.turn_table.specs.Passes.{IsPassOf, start_of};

use crate::inputs::script_of;
use base_types::NoMemory;
use script_text::Script;
use seg_calls::Seg;
use shared_seg::Shared;
use std::alloc::Global;
use std::sync::Wait;
use std::test::Fail;
use turn_table::{Pass, TurnTable};

// Promises a backend places, and says how many it has.
fn promise(shared: &mut Shared, backend: u32) -> u32
    requires backend { IsBackend shared.old.script.backends backend }
    ensures script { shared.new.script ≡ shared.old.script }
    ensures history { shared.new.history ≡ shared.old.history }
    ensures others { (k : ℕ) → k ≢ backend → places_in shared.new k ≡ places_in shared.old k }
{
    match shared.promise(backend, 48) {
        Ok(()) => shared.promised(backend),
        Err(_) => 0,
    }
}

// A turn in which it is promised them.
fn take_turn<R: Wait>(rt: &R, table: &TurnTable<Shared>, pass: Pass<Shared>) -> u32
    requires of { IsPassOf table.now pass }
    requires backend { IsBackend (start_of table.now).script.backends pass.number }
{
    let seat = pass.number;
    let mut turn = table.open(rt, pass);
    let places = promise(turn.value(), seat);
    turn.tell();
    let _ = table.close(turn);
    places
}

// How many places the backends of a script of two were promised, each in a turn.
fn places_promised<R: Wait>(rt: &R, alloc: Global, script: &Script) -> Result<[u32; 2], NoMemory>
    requires { 2 ≤ script.now.backends }
{
    let shared = Shared::new(alloc, script)?;
    let (table, mut passes) = TurnTable::new(alloc, shared, 2)?;
    let (Some(second), Some(first)) = (passes.pop(), passes.pop()) else {
        unreachable!()
    };
    let of_first = take_turn(rt, &table, first);
    Ok([of_first, take_turn(rt, &table, second)])
}

fn promised_to_two<R: Wait>(rt: &R, alloc: Global) -> Result<[u32; 2], NoMemory> {
    let script = script_of(alloc, b"backends 2\nend\n")?;
    if script.backends() < 2 {
        return Ok([0, 0]);
    }
    places_promised(rt, alloc, &script)
}

#[test]
fn what_backends_share_goes_from_turn_to_turn(rt: HostRuntime) -> Result<(), Fail> {
    let places = promised_to_two(&rt, rt.alloc())?;
    assert!(rt; places == [48, 48]);
    Ok(())
}
