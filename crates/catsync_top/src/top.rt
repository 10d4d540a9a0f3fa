ghost use Rattle.std.specs.Prelude.{◌≡◌, ◌≢◌, ◌≤◌, ℕ, [], map, length};
ghost use Rattle.std.specs.String.{string_bytes};
ghost use Rattle.edge_io.specs.Causes.{Rose};
ghost use Rattle.edge_io.specs.Taken.{Grows, GrowsByFront};
ghost use Rattle.make_script.specs.Scripts.{made_script};
ghost use Rattle.thread_run.specs.Stops.{NoneFell, OneRose};
ghost use Rattle.cacheless.specs.declared.check_kind.CheckKind.{CheckKind};
ghost use Rattle.cacheless.specs.declared.check_kind.CheckKind.TheVariants as kinds;
ghost use Rattle.catsync_top.specs.declared.arguments.Word.{Word};
ghost use Rattle.catsync_top.specs.declared.arguments.Word.TheVariants as words;
ghost use Rattle.catsync_top.specs.Gates.{HasAsked};
ghost use Rattle.catsync_top.specs.Sessions.{RanCoherently, HasMadeByWalk};
ghost use Rattle.catsync_top.specs.Top.{Ask, AskToMake, AskNothing, AskSomething, Ran, HasFound, HasDifferedAsAsked, HasRead, IsBad, IsTooLong, HasScript, HadNoFault, HadNoStop, IfBadScript, IfDiffers, HasEnded, IsEndOfMaking, IsRefusalOfInput};

use crate::Status;
use crate::arguments::{Word, made_of, word_of};
use crate::checking::check_output;
use crate::making::write_made;
use crate::running::run_script;
use crate::walking::walk_script;
use backend_core::Backend;
use check_tool::CheckKind;
use edge_io::{Gate, Sink, Source};
use script_text::MOST_BACKENDS;
use std::alloc::Global;
use std::sync::Wait;
use std::thread::Threads;

/// The most bytes of a script that is walked or run.
pub const MOST_INPUT: usize = 1_048_576;

/// The most bytes of a script and an output that is checked.
pub const MOST_CHECKED: usize = 268_435_456;

/// Runs the program: its arguments, where it reads, where it writes, and a gate for each backend
/// that a script can have, which `run` alone asks. It takes memory from `alloc`, and none while
/// it writes. `sessions` is empty before the call; after `Done` and `WriteFault` of `walk` and `run`
/// it holds the backends that were run.
///
/// `walk` reads a script, and writes its history and answers; so does `run`, with a thread for each
/// backend. `check walk` and `check run` read a script and, after its `end` line, an output; they
/// write the number of the output's entries. `make N`, with N from 1 to 1,000, reads nothing, and
/// writes the script of that number under a comment that counts what came of a walk of it.
///
/// The order is: arguments, reading, script, work, writing. What is said of the bytes holds as far
/// as the source and the sink tell them. `run` may wait; each other word returns.
///
/// - `Usage`: exactly where the arguments are none of `walk`, `run`, `check walk`, `check run`, and
///   `make` with a number from 1 to 1,000 in decimal; nothing is read.
/// - `ReadFault`, `WriteFault`: only where the source's or the sink's count of faults rose.
/// - `TooLong`: exactly where the source gives more bytes before its end than [`MOST_INPUT`] for
///   `walk` and `run`, [`MOST_CHECKED`] for a check.
/// - `BadScript`: exactly where that line is the first that breaks a rule of scripts, and that rule
///   is the first that it breaks.
/// - `Stopped`: of `run`, only where the input was read to its end and is a script, and a gate's count of
///   stops rose.
/// - `NoMemory`: at any point before writing.
/// - `Differs`: of a check, exactly where what follows the script isn't an output of it, of `walk` or
///   of `run` as asked.
/// - `Done`: the input was read to its end, and the whole output was written; for a check, what
///   follows the script is an output of it; for `make`, nothing was read.
#[tactic(auto, using(thread_run::proofs::Stopping::none_fell_same))]
pub fn catsync<R: Threads + Wait + Sync, S: Source, K: Sink, G: Gate>(
    rt: &R,
    alloc: Global,
    arguments: &[String],
    source: &mut S,
    sink: &mut K,
    gates: &mut Vec<G>,
    sessions: &mut Vec<Backend>,
) -> Status
    requires gates { MOST_BACKENDS ≤ length gates.old.items }
    requires sessions { sessions.old.items ≡ [] }

    // Which arguments are accepted.
    ensures usage { result ≡ Status.Usage → AskNothing (map string_bytes arguments.now) }
    ensures accepted { result ≢ Status.Usage → AskSomething (map string_bytes arguments.now) }

    // What was written, of what was read.
    ensures done { (kind : CheckKind) → Ask (map string_bytes arguments.now) (words.Output kind) → result ≡ Status.Done → Ran kind (S.left source.old) (S.left source.new) (K.taken sink.old) (K.taken sink.new) Grows sessions.new.items }
    ensures write_front { (kind : CheckKind) → Ask (map string_bytes arguments.now) (words.Output kind) → result ≡ Status.WriteFault → Ran kind (S.left source.old) (S.left source.new) (K.taken sink.old) (K.taken sink.new) GrowsByFront sessions.new.items }
    ensures found { (kind : CheckKind) → Ask (map string_bytes arguments.now) (words.Check kind) → result ≡ Status.Done → HasFound kind (S.left source.old) (S.left source.new) (K.taken sink.old) (K.taken sink.new) Grows }
    ensures found_front { (kind : CheckKind) → Ask (map string_bytes arguments.now) (words.Check kind) → result ≡ Status.WriteFault → HasFound kind (S.left source.old) (S.left source.new) (K.taken sink.old) (K.taken sink.new) GrowsByFront }
    ensures made { (number : ℕ) → AskToMake (map string_bytes arguments.now) number → result ≡ Status.Done → HasMadeByWalk (made_script number) (K.taken sink.old) (K.taken sink.new) Grows }
    ensures made_front { (number : ℕ) → AskToMake (map string_bytes arguments.now) number → result ≡ Status.WriteFault → HasMadeByWalk (made_script number) (K.taken sink.old) (K.taken sink.new) GrowsByFront }
    ensures nothing { result ≢ Status.Done → result ≢ Status.WriteFault → K.taken sink.new ≡ K.taken sink.old }
    ensures no_sessions { result ≢ Status.Done → result ≢ Status.WriteFault → sessions.new.items ≡ [] }
    ensures none_made { (number : ℕ) → AskToMake (map string_bytes arguments.now) number → sessions.new.items ≡ [] }
    ensures none_checked { (kind : CheckKind) → Ask (map string_bytes arguments.now) (words.Check kind) → sessions.new.items ≡ [] }

    // The sessions of a script that was walked or run.
    ensures coherent { (kind : CheckKind) → Ask (map string_bytes arguments.now) (words.Output kind) → result ≡ Status.Done → RanCoherently kind (S.left source.old) (S.left source.new) (K.taken sink.old) (K.taken sink.new) Grows sessions.new.items }
    ensures coherent_front { (kind : CheckKind) → Ask (map string_bytes arguments.now) (words.Output kind) → result ≡ Status.WriteFault → RanCoherently kind (S.left source.old) (S.left source.new) (K.taken sink.old) (K.taken sink.new) GrowsByFront sessions.new.items }

    // When each refusal comes.
    ensures differs { IfDiffers result (HasDifferedAsAsked (map string_bytes arguments.now) (S.left source.old) (S.left source.new)) }
    ensures bad_script { (word : Word) → Ask (map string_bytes arguments.now) word → IfBadScript result (IsBad word (S.left source.old) (S.left source.new)) }
    ensures too_long { (word : Word) → Ask (map string_bytes arguments.now) word → result ≡ Status.TooLong → IsTooLong word (S.left source.old) (S.left source.new) }
    ensures made_ends { (number : ℕ) → AskToMake (map string_bytes arguments.now) number → IsEndOfMaking result }
    ensures read_fault { result ≡ Status.ReadFault → Rose (S.faults source.old) (S.faults source.new) }
    ensures write_fault { result ≡ Status.WriteFault → Rose (K.faults sink.old) (K.faults sink.new) }

    // A count that rose shows in the status.
    ensures source_steady { result ≢ Status.ReadFault → S.faults source.new ≡ S.faults source.old }
    ensures sink_steady { result ≢ Status.WriteFault → K.faults sink.new ≡ K.faults sink.old }
    ensures unread { result ≡ Status.Usage → S.left source.new ≡ S.left source.old }
    ensures made_unread { (number : ℕ) → AskToMake (map string_bytes arguments.now) number → S.left source.new ≡ S.left source.old }

    // The gates: `run` alone asks them, once it has read a script, and where one stopped a backend the status is `Stopped` or `NoMemory`.
    ensures gates { NoneFell (map G.stops gates.old.items) (map G.stops gates.new.items) }
    ensures unasked { (Ask (map string_bytes arguments.now) (words.Output kinds.Run) → ⊥) → gates.new ≡ gates.old }
    ensures asked { Ask (map string_bytes arguments.now) (words.Output kinds.Run) → HasAsked result (S.left source.old) (S.left source.new) (map G.asked gates.old.items) (map G.asked gates.new.items) }
    ensures refused_unasked { IsRefusalOfInput result → gates.new ≡ gates.old }
    ensures stopped { result ≡ Status.Stopped → Ask (map string_bytes arguments.now) (words.Output kinds.Run) × OneRose (map G.stops gates.old.items) (map G.stops gates.new.items) }
    ensures stopped_read { result ≡ Status.Stopped → HasRead (words.Output kinds.Run) (S.left source.old) (S.left source.new) }
    ensures gates_steady { result ≢ Status.Stopped → result ≢ Status.NoMemory → map G.stops gates.new.items ≡ map G.stops gates.old.items }

    // A script is walked or run, and what follows it is checked, where neither source nor sink fails and no gate stops.
    ensures complete { (word : Word) → Ask (map string_bytes arguments.now) word → HasScript word (S.left source.old) → HadNoFault (S.faults source.old) (S.faults source.new) → HadNoFault (K.faults sink.old) (K.faults sink.new) → HadNoStop word (map G.stops gates.old.items) (map G.stops gates.new.items) → HasEnded word result }
{
    if let Some(number) = made_of(arguments) {
        return write_made(alloc, number, sink);
    }
    let Some(word) = word_of(arguments) else {
        return Status::Usage;
    };
    match word {
        Word::Output(CheckKind::Walk) => walk_script(alloc, source, sink, sessions),
        Word::Output(CheckKind::Run) => run_script(rt, alloc, source, sink, gates, sessions),
        Word::Check(kind) => check_output(alloc, kind, source, sink),
    }
}
