use crate::inputs::script_of;
use backend_core::Backend;
use base_types::{Field, Name, NoMemory};
use event_kinds::LineText;
use script_text::Script;
use std::alloc::Global;
use std::test::Fail;
use walk_run::walk;

// A name, a field, and what is shown of it.
type Shown = (&'static [u8], Field, Option<&'static [u8]>);

// Scripts of two backends up to some place, and what the second backend shows then. It opens a table, and the first
// one alters a statistics target of it. The new target is shown once its message is fetched and all six scans are
// made anew, and nothing before the last of them; nor is anything after the block.
const SHOWN: &[(&[u8], &[Shown])] = &[
    (
        b"\
backends 2
1: create table t (a int4)
2: begin
2: open t
steps 1*7 2*18
end
",
        &[
            (b"t", Field::Name, Some(b"t")),
            (b"t", Field::Statistics, Some(b"1:-1")),
            (b"u", Field::Name, None),
            (b"t", Field::Of, None),
        ],
    ),
    (
        b"\
backends 2
1: create table t (a int4)
1: alter table t alter column a set statistics 200
2: begin
2: open t
steps 1*7 2*18 1*25
end
",
        &[(b"t", Field::Statistics, Some(b"1:-1"))],
    ),
    (
        b"\
backends 2
1: create table t (a int4)
1: alter table t alter column a set statistics 200
2: begin
2: open t
2: lock table t in row share mode
steps 1*7 2*18 1*25 2*14
end
",
        &[(b"t", Field::Name, None), (b"t", Field::Statistics, None)],
    ),
    (
        b"\
backends 2
1: create table t (a int4)
1: alter table t alter column a set statistics 200
2: begin
2: open t
2: lock table t in row share mode
steps 1*7 2*18 1*25 2*15
end
",
        &[
            (b"t", Field::Name, Some(b"t")),
            (b"t", Field::Statistics, Some(b"1:200")),
        ],
    ),
    (
        b"\
backends 2
1: create table t (a int4)
2: begin
2: open t
2: commit
steps 1*7 2*19
end
",
        &[(b"t", Field::Name, None)],
    ),
];

// Whether two texts are one, or both are none.
fn is_text(shown: Option<&LineText>, wanted: Option<&[u8]>) -> bool {
    match (shown, wanted) {
        (Some(text), Some(bytes)) => text.as_bytes() == bytes,
        (None, None) => true,
        _ => false,
    }
}

fn shows_field(backend: &Backend, row: &Shown) -> bool {
    let &(name, field, wanted) = row;
    match Name::new(name) {
        Ok(name) => is_text(backend.field(&name, field), wanted),
        Err(_) => false,
    }
}

fn shows_all(backend: &Backend, rows: &[Shown]) -> bool {
    for row in rows {
        if !shows_field(backend, row) {
            return false;
        }
    }
    true
}

fn second_shows(backends: &[Backend], rows: &[Shown]) -> bool {
    match backends.get(1) {
        Some(backend) => shows_all(backend, rows),
        None => false,
    }
}

// Whether the second backend shows these after the walk of a script.
fn walk_shows(alloc: Global, script: &Script, rows: &[Shown]) -> Result<bool, NoMemory> {
    Ok(second_shows(walk(alloc, script)?.backends.as_slice(), rows))
}

fn shows(alloc: Global, text: &[u8], rows: &[Shown]) -> Result<bool, NoMemory> {
    let script = script_of(alloc, text)?;
    walk_shows(alloc, &script, rows)
}

#[test]
fn fields_of_open_relations_are_shown(rt: HostRuntime) -> Result<(), Fail> {
    for &(text, rows) in SHOWN {
        assert!(rt; shows(rt.alloc(), text, rows)?);
    }
    Ok(())
}
