ghost use Rattle.std.specs.Prelude.{◌≡◌, ◌≢◌, ◌≤◌};
ghost use Rattle.edge_io.specs.Causes.{Rose};
ghost use Rattle.edge_io.specs.Taken.{Grows, GrowsByFront};
ghost use Rattle.make_script.specs.Scripts.{made_script};
ghost use Rattle.catsync_top.specs.Sessions.{HasMadeByWalk};
ghost use Rattle.catsync_top.specs.Top.{IsEndOfMaking};

use crate::Status;
use edge_io::{Sink, send};
use make_script::{MOST_NUMBER, made_text, make};
use std::alloc::Global;
use walk_run::walk;

// Makes the script of a number, walks it, and writes it under the comment that counts what came of it.
pub(crate) fn write_made<K: Sink>(alloc: Global, number: u32, sink: &mut K) -> Status
    requires least { 1 ≤ number }
    requires most { number ≤ MOST_NUMBER }
    ensures made { result ≡ Status.Done → HasMadeByWalk (made_script number) (K.taken sink.old) (K.taken sink.new) Grows }
    ensures write_front { result ≡ Status.WriteFault → HasMadeByWalk (made_script number) (K.taken sink.old) (K.taken sink.new) GrowsByFront }
    ensures nothing { result ≢ Status.Done → result ≢ Status.WriteFault → K.taken sink.new ≡ K.taken sink.old }
    ensures ends { IsEndOfMaking result }
    ensures write_fault { result ≡ Status.WriteFault → Rose (K.faults sink.old) (K.faults sink.new) }
    ensures sink_steady { result ≢ Status.WriteFault → K.faults sink.new ≡ K.faults sink.old }
{
    let Ok(script) = make(alloc, number) else {
        return Status::NoMemory;
    };
    let Ok(world) = walk(alloc, &script) else {
        return Status::NoMemory;
    };
    let Ok(text) = made_text(
        alloc,
        &script,
        world.entries.as_slice(),
        world.lines.as_slice(),
    ) else {
        return Status::NoMemory;
    };
    match send(sink, text.as_slice()) {
        Ok(()) => Status::Done,
        Err(_) => Status::WriteFault,
    }
}
