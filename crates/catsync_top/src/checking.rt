ghost use Rattle.std.specs.Prelude.{◌≡◌, ◌≢◌};
ghost use Rattle.edge_io.specs.Causes.{Rose, HasCause};
ghost use Rattle.edge_io.specs.Taken.{Grows, GrowsByFront, Sends};
ghost use Rattle.catsync_top.specs.declared.arguments.Word.TheVariants as words;
ghost use Rattle.catsync_top.specs.Top.{HasFound, HasDiffered, IsBad, IsTooLong, HasScript, HadNoFault, IfBadScript, IfDiffers, HasEnded, checked_text};

use crate::Status;
use crate::top::MOST_CHECKED;
use base_types::{LineBuffer, NoMemory};
use check_tool::{CheckKind, Checked, check};
use edge_io::{Failed, ReadRefusal, Sink, Source, read_all, send};
use script_text::{Rest, ScriptFault, read_script};
use std::alloc::Global;

// Checks the output that the source gives after a script.
pub(crate) fn check_output<S: Source, K: Sink>(
    alloc: Global,
    kind: CheckKind,
    source: &mut S,
    sink: &mut K,
) -> Status
    ensures accepted { result ≢ Status.Usage }
    ensures never_stopped { result ≢ Status.Stopped }
    ensures done { result ≡ Status.Done → HasFound kind (S.left source.old) (S.left source.new) (K.taken sink.old) (K.taken sink.new) Grows }
    ensures write_front { result ≡ Status.WriteFault → HasFound kind (S.left source.old) (S.left source.new) (K.taken sink.old) (K.taken sink.new) GrowsByFront }
    ensures differs { IfDiffers result (HasDiffered kind (S.left source.old) (S.left source.new)) }
    ensures nothing { result ≢ Status.Done → result ≢ Status.WriteFault → K.taken sink.new ≡ K.taken sink.old }
    ensures bad_script { IfBadScript result (IsBad (words.Check kind) (S.left source.old) (S.left source.new)) }
    ensures too_long { result ≡ Status.TooLong → IsTooLong (words.Check kind) (S.left source.old) (S.left source.new) }
    ensures read_fault { result ≡ Status.ReadFault → Rose (S.faults source.old) (S.faults source.new) }
    ensures write_fault { result ≡ Status.WriteFault → Rose (K.faults sink.old) (K.faults sink.new) }
    ensures source_steady { result ≢ Status.ReadFault → S.faults source.new ≡ S.faults source.old }
    ensures sink_steady { result ≢ Status.WriteFault → K.faults sink.new ≡ K.faults sink.old }
    ensures complete { HasScript (words.Check kind) (S.left source.old) → HadNoFault (S.faults source.old) (S.faults source.new) → HadNoFault (K.faults sink.old) (K.faults sink.new) → HasEnded (words.Check kind) result }
{
    let input = match read_all(alloc, source, MOST_CHECKED) {
        Ok(input) => input,
        Err(ReadRefusal::Failed) => return Status::ReadFault,
        Err(ReadRefusal::NoMemory) => return Status::NoMemory,
    };
    if input.len() > MOST_CHECKED {
        return Status::TooLong;
    }
    let read = match read_script(alloc, &input, Rest::Given) {
        Ok(read) => read,
        Err(ScriptFault::Bad { line, cause }) => return Status::BadScript { line, cause },
        Err(ScriptFault::NoMemory) => return Status::NoMemory,
    };
    let output = &input[read.rest_at.min(input.len())..];
    let count = match check(alloc, &read.script, kind, output) {
        Ok(Checked::Output { entries }) => entries,
        Ok(Checked::Differs { entry }) => return Status::Differs { entry },
        Err(NoMemory) => return Status::NoMemory,
    };
    match put_checked(sink, count) {
        Ok(()) => Status::Done,
        Err(_) => Status::WriteFault,
    }
}

// Writes how many entries were checked.
fn put_checked<K: Sink>(sink: &mut K, entries: u64) -> Result<(), Failed>
    ensures bytes { Sends (K.taken sink.old) (K.taken sink.new) result (checked_text entries) }
    ensures cause { HasCause (K.faults sink.old) (K.faults sink.new) result }
{
    let mut line = LineBuffer::new();
    line.push(b"checked ");
    line.push_u64(entries);
    line.push(b" entries\n");
    send(sink, line.as_bytes())
}
