ghost use Rattle.std.specs.Prelude.{◌≡◌, ◌≢◌, ◌≤◌, [], length, map};
ghost use Rattle.edge_io.specs.Causes.{Rose};
ghost use Rattle.edge_io.specs.Taken.{Grows, GrowsByFront};
ghost use Rattle.thread_run.specs.Stops.{NoneFell, OneRose};
ghost use Rattle.cacheless.specs.declared.check_kind.CheckKind.TheVariants as kinds;
ghost use Rattle.catsync_top.specs.declared.arguments.Word.TheVariants as words;
ghost use Rattle.catsync_top.specs.Gates.{HasAsked};
ghost use Rattle.catsync_top.specs.Sessions.{RanCoherently};
ghost use Rattle.catsync_top.specs.Top.{HasRead, IsBad, IsTooLong, HasScript, HadNoFault, HadNoStop, IfBadScript, IfDiffers, HasEnded, IsRefusalOfInput};

use crate::Status;
use crate::top::MOST_INPUT;
use backend_core::Backend;
use edge_io::{Gate, ReadRefusal, Sink, Source, read_all};
use out_text::put_output;
use script_text::{MOST_BACKENDS, Rest, ScriptFault, read_script};
use std::alloc::Global;
use std::sync::Wait;
use std::thread::Threads;
use thread_run::{RunRefusal, run};

// Runs the script that the source gives, each backend on a thread of its own, and writes its output.
#[tactic(auto, using(thread_run::proofs::Stopping::none_fell_same))]
pub(crate) fn run_script<R: Threads + Wait + Sync, S: Source, K: Sink, G: Gate>(
    rt: &R,
    alloc: Global,
    source: &mut S,
    sink: &mut K,
    gates: &mut Vec<G>,
    sessions: &mut Vec<Backend>,
) -> Status
    requires gates { MOST_BACKENDS ≤ length gates.old.items }
    requires sessions { sessions.old.items ≡ [] }
    ensures accepted { result ≢ Status.Usage }
    ensures done { result ≡ Status.Done → RanCoherently kinds.Run (S.left source.old) (S.left source.new) (K.taken sink.old) (K.taken sink.new) Grows sessions.new.items }
    ensures write_front { result ≡ Status.WriteFault → RanCoherently kinds.Run (S.left source.old) (S.left source.new) (K.taken sink.old) (K.taken sink.new) GrowsByFront sessions.new.items }
    ensures nothing { result ≢ Status.Done → result ≢ Status.WriteFault → K.taken sink.new ≡ K.taken sink.old }
    ensures no_sessions { result ≢ Status.Done → result ≢ Status.WriteFault → sessions.new.items ≡ [] }
    ensures bad_script { IfBadScript result (IsBad (words.Output kinds.Run) (S.left source.old) (S.left source.new)) }
    ensures too_long { result ≡ Status.TooLong → IsTooLong (words.Output kinds.Run) (S.left source.old) (S.left source.new) }
    ensures never_differs { IfDiffers result (λ entry. ⊥) }
    ensures read_fault { result ≡ Status.ReadFault → Rose (S.faults source.old) (S.faults source.new) }
    ensures write_fault { result ≡ Status.WriteFault → Rose (K.faults sink.old) (K.faults sink.new) }
    ensures source_steady { result ≢ Status.ReadFault → S.faults source.new ≡ S.faults source.old }
    ensures sink_steady { result ≢ Status.WriteFault → K.faults sink.new ≡ K.faults sink.old }
    ensures stopped { result ≡ Status.Stopped → OneRose (map G.stops gates.old.items) (map G.stops gates.new.items) }
    ensures stopped_read { result ≡ Status.Stopped → HasRead (words.Output kinds.Run) (S.left source.old) (S.left source.new) }
    ensures gates_kept { NoneFell (map G.stops gates.old.items) (map G.stops gates.new.items) }
    ensures asked { HasAsked result (S.left source.old) (S.left source.new) (map G.asked gates.old.items) (map G.asked gates.new.items) }
    ensures refused_unasked { IsRefusalOfInput result → gates.new ≡ gates.old }
    ensures gates_steady { result ≢ Status.Stopped → result ≢ Status.NoMemory → map G.stops gates.new.items ≡ map G.stops gates.old.items }
    ensures complete { HasScript (words.Output kinds.Run) (S.left source.old) → HadNoFault (S.faults source.old) (S.faults source.new) → HadNoFault (K.faults sink.old) (K.faults sink.new) → HadNoStop (words.Output kinds.Run) (map G.stops gates.old.items) (map G.stops gates.new.items) → HasEnded (words.Output kinds.Run) result }
{
    let input = match read_all(alloc, source, MOST_INPUT) {
        Ok(input) => input,
        Err(ReadRefusal::Failed) => return Status::ReadFault,
        Err(ReadRefusal::NoMemory) => return Status::NoMemory,
    };
    if input.len() > MOST_INPUT {
        return Status::TooLong;
    }
    let read = match read_script(alloc, &input, Rest::Refused) {
        Ok(read) => read,
        Err(ScriptFault::Bad { line, cause }) => return Status::BadScript { line, cause },
        Err(ScriptFault::NoMemory) => return Status::NoMemory,
    };
    let ran = match run(rt, alloc, &read.script, gates) {
        Ok(ran) => ran,
        Err(RunRefusal::Stopped) => return Status::Stopped,
        Err(RunRefusal::NoMemory) => return Status::NoMemory,
    };
    let thread_run::Ran {
        entries,
        lines,
        backends,
    } = ran;
    *sessions = backends.into_vec();
    match put_output(sink, entries.as_slice(), lines.as_slice()) {
        Ok(()) => Status::Done,
        Err(_) => Status::WriteFault,
    }
}
