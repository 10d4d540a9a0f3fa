use crate::inputs::read;
use base_types::NoMemory;
use script_text::{Rest, write_script};
use std::alloc::Global;
use std::test::Fail;

// A text that is read and written again; nothing for one that is no script.
fn written(alloc: Global, text: &[u8]) -> Result<Vec<u8>, NoMemory> {
    match read(alloc, text, Rest::Refused) {
        Ok(read) => write_script(alloc, &read.script),
        Err(_) => Ok(Vec::new(alloc)),
    }
}

// Commands as they may be given, and as they are written.
pub(crate) const COMMANDS: &[(&str, &str)] = &[
    ("begin", "begin"),
    ("COMMIT ;", "commit"),
    ("rollback;", "rollback"),
    ("savepoint s", "savepoint s"),
    ("release savepoint s", "release s"),
    ("release savepoint", "release savepoint"),
    ("rollback to savepoint s", "rollback to s"),
    ("show t", "show t"),
    ("show t of", "show t of"),
    ("columns t", "columns t"),
    ("column t c", "column t c"),
    ("regclass 016384", "regclass 16384"),
    (
        "lock table t in share row exclusive mode",
        "lock table t in share row exclusive mode",
    ),
    ("open t", "open t"),
    ("peek t name", "peek t name"),
    ("close t", "close t"),
    ("create table t()", "create table t ()"),
    (
        "create table t(a int,b boolean,c smallint)",
        "create table t (a int4, b bool, c int2)",
    ),
    ("drop table t", "drop table t"),
    ("alter table t rename to u", "alter table t rename to u"),
    (
        "alter table t add column c bigint",
        "alter table t add column c int8",
    ),
    ("alter table t drop column c", "alter table t drop column c"),
    (
        "alter table t rename column c to d",
        "alter table t rename column c to d",
    ),
    (
        "alter table t alter column c set default x-1",
        "alter table t alter column c set default x-1",
    ),
    (
        "alter table t alter column c set statistics -01",
        "alter table t alter column c set statistics -1",
    ),
    (
        "alter table t set(fillfactor=70)",
        "alter table t set (fillfactor = 70)",
    ),
    (
        "alter table t add constraint k check (a = b * 2)",
        "alter table t add constraint k check (a=b*2)",
    ),
    (
        "alter table t add constraint k foreign key(c)references u(d)not valid",
        "alter table t add constraint k foreign key (c) references u (d) not valid",
    ),
    (
        "alter table t validate constraint k",
        "alter table t validate constraint k",
    ),
    (
        "alter table t drop constraint k",
        "alter table t drop constraint k",
    ),
    (
        "alter table t enable trigger g",
        "alter table t enable trigger g",
    ),
    (
        "alter table t disable trigger g",
        "alter table t disable trigger g",
    ),
    ("create trigger g on t", "create trigger g on t"),
    ("create index i on t(a,b)", "create index i on t (a, b)"),
    ("drop index i", "drop index i"),
    ("alter index i rename to j", "alter index i rename to j"),
];

// The text of a script of one command.
pub(crate) fn text_of_command(alloc: Global, command: &str) -> Result<String, NoMemory> {
    Ok(format!(in alloc; "backends 2\n1: {command}\nend\n")?)
}

// Whether a text is read, and written again so.
fn is_written(alloc: Global, text: &str, wanted: &str) -> Result<bool, NoMemory> {
    Ok(written(alloc, text.as_bytes())?.as_slice() == wanted.as_bytes())
}

fn is_command_written(alloc: Global, given: &str, want: &str) -> Result<bool, NoMemory> {
    let text = text_of_command(alloc, given)?;
    let wanted = text_of_command(alloc, want)?;
    is_written(alloc, text.as_str(), wanted.as_str())
}

// Whole scripts as they may be given, and as they are written.
const SCRIPTS: &[(&str, &str)] = &[
    (
        "BACKENDS 1\r\n1: CREATE TABLE t (a INT);\nend",
        "backends 1\n1: create table t (a int4)\nend\n",
    ),
    (
        "ring 4096\n-- \u{e4}\n\nbackends 64\n\t64 : begin\nend",
        "backends 64\n64: begin\nend\n",
    ),
    (
        "ring 64 from 16777215\nbackends 000000001\nend\n",
        "ring 64 from 16777215\nbackends 1\nend\n",
    ),
    (
        "backends 2\nsteps 1 *999999 2\nend\n",
        "backends 2\nsteps 1*999999 2\nend\n",
    ),
];

#[test]
fn commands_and_whole_scripts_are_read_and_written(rt: HostRuntime) -> Result<(), Fail> {
    for &(given, want) in COMMANDS {
        assert!(rt; is_command_written(rt.alloc(), given, want)?, "{given}");
    }
    for &(given, want) in SCRIPTS {
        assert!(rt; is_written(rt.alloc(), given, want)?, "{given}");
    }
    Ok(())
}
