ghost use Rattle.std.specs.Prelude.{◌≡◌, ◌≢◌, []};
ghost use Rattle.edge_io.specs.Causes.{Rose};
ghost use Rattle.edge_io.specs.Taken.{Grows, GrowsByFront};
ghost use Rattle.cacheless.specs.declared.check_kind.CheckKind.TheVariants as kinds;
ghost use Rattle.catsync_top.specs.declared.arguments.Word.TheVariants as words;
ghost use Rattle.catsync_top.specs.Sessions.{RanCoherently};
ghost use Rattle.catsync_top.specs.Top.{IsBad, IsTooLong, HasScript, HadNoFault, IfBadScript, IfDiffers, HasEnded};

use crate::Status;
use crate::top::MOST_INPUT;
use backend_core::Backend;
use edge_io::{ReadRefusal, Sink, Source, read_all};
use out_text::put_output;
use script_text::{Rest, ScriptFault, read_script};
use std::alloc::Global;
use walk_run::{World, walk};

// Walks the script that the source gives, and writes its output.
pub(crate) fn walk_script<S: Source, K: Sink>(
    alloc: Global,
    source: &mut S,
    sink: &mut K,
    sessions: &mut Vec<Backend>,
) -> Status
    requires { sessions.old.items ≡ [] }
    ensures accepted { result ≢ Status.Usage }
    ensures never_stopped { result ≢ Status.Stopped }
    ensures done { result ≡ Status.Done → RanCoherently kinds.Walk (S.left source.old) (S.left source.new) (K.taken sink.old) (K.taken sink.new) Grows sessions.new.items }
    ensures write_front { result ≡ Status.WriteFault → RanCoherently kinds.Walk (S.left source.old) (S.left source.new) (K.taken sink.old) (K.taken sink.new) GrowsByFront sessions.new.items }
    ensures nothing { result ≢ Status.Done → result ≢ Status.WriteFault → K.taken sink.new ≡ K.taken sink.old }
    ensures no_sessions { result ≢ Status.Done → result ≢ Status.WriteFault → sessions.new.items ≡ [] }
    ensures bad_script { IfBadScript result (IsBad (words.Output kinds.Walk) (S.left source.old) (S.left source.new)) }
    ensures too_long { result ≡ Status.TooLong → IsTooLong (words.Output kinds.Walk) (S.left source.old) (S.left source.new) }
    ensures never_differs { IfDiffers result (λ entry. ⊥) }
    ensures read_fault { result ≡ Status.ReadFault → Rose (S.faults source.old) (S.faults source.new) }
    ensures write_fault { result ≡ Status.WriteFault → Rose (K.faults sink.old) (K.faults sink.new) }
    ensures source_steady { result ≢ Status.ReadFault → S.faults source.new ≡ S.faults source.old }
    ensures sink_steady { result ≢ Status.WriteFault → K.faults sink.new ≡ K.faults sink.old }
    ensures complete { HasScript (words.Output kinds.Walk) (S.left source.old) → HadNoFault (S.faults source.old) (S.faults source.new) → HadNoFault (K.faults sink.old) (K.faults sink.new) → HasEnded (words.Output kinds.Walk) result }
{
    let input = match read_all(alloc, source, MOST_INPUT) {
        Ok(input) => input,
        Err(ReadRefusal::Failed) => return Status::ReadFault,
        Err(ReadRefusal::NoMemory) => return Status::NoMemory,
    };
    if input.len() > MOST_INPUT {
        return Status::TooLong;
    }
    let read = match read_script(alloc, &input, Rest::Refused) {
        Ok(read) => read,
        Err(ScriptFault::Bad { line, cause }) => return Status::BadScript { line, cause },
        Err(ScriptFault::NoMemory) => return Status::NoMemory,
    };
    let Ok(world) = walk(alloc, &read.script) else {
        return Status::NoMemory;
    };
    let World {
        entries,
        lines,
        backends,
    } = world;
    *sessions = backends.into_vec();
    match put_output(sink, entries.as_slice(), lines.as_slice()) {
        Ok(()) => Status::Done,
        Err(_) => Status::WriteFault,
    }
}
