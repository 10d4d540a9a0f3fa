use base_types::{Kind, Mode, Name, Oid, Purpose};
use command_answers::CommandError;

/// What a command wants next.
#[derive(Clone, Copy)]
pub enum Want {
    /// Nothing: it has done what it says, and answers what [`crate::Exec::told`] says. That rests on this
    /// scan, if on any.
    Done(Option<Purpose>),
    /// Nothing: it failed.
    Fails(CommandError),
    /// Nothing: it failed, since no relation has the name.
    Absent(Name),
    /// The relation of this name, locked; given are the rows of its scan by name.
    Lookup { name: Name, mode: Mode },
    /// The descriptor of this relation.
    Open { rel: Oid, kind: Kind },
    /// What a catalog cache has for this scan; given are its rows.
    Search(Purpose),
    /// The rows that an open descriptor has of this scan.
    Read(Purpose),
    /// A lock on a further relation.
    Lock { rel: Oid, mode: Mode },
    /// That its draft is written.
    Write,
}
