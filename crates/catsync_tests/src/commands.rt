use crate::events::text_of;
use crate::inputs::script_of;
use crate::row_texts::rows_of;
use crate::scripts::text_of_command;
use crate::values::name as name_of;
use base_types::{Change, Command, Kind, Listed, NoMemory, Oid, Xid};
use command_answers::{Answer, answer_text};
use ddl_effect::{Draft, EffectRefusal, Facts, OpenRelation, effect};
use event_kinds::{Entry, Event, Item};
use script_text::Script;
use std::alloc::Global;
use std::test::Fail;
use txn_blocks::{BlockCause, TxnBlocks};

// The script of one command.
fn script_of_command(alloc: Global, command: &str) -> Result<Script, NoMemory> {
    let text = text_of_command(alloc, command)?;
    script_of(alloc, text.as_bytes())
}

// Commands, and what the blocks say of each outside a block, inside one, and in a failed one.
const ADMITTED: &[(&str, [&str; 3])] = &[
    ("begin", ["ok", "ok", "25P02"]),
    ("commit", ["ok", "ok", "ok"]),
    ("rollback", ["ok", "ok", "ok"]),
    ("savepoint s", ["25P01", "ok", "25P02"]),
    ("release s", ["25P01", "3B001", "25P02"]),
    ("rollback to s", ["25P01", "3B001", "3B001"]),
    ("lock table t in share mode", ["25P01", "ok", "25P02"]),
    ("open t", ["25P01", "ok", "25P02"]),
    ("peek t", ["25P01", "ok", "25P02"]),
    ("close t", ["25P01", "ok", "25P02"]),
    ("show t", ["ok", "ok", "25P02"]),
    ("create table t (a int4)", ["ok", "ok", "25P02"]),
    ("drop table t", ["ok", "ok", "25P02"]),
    ("alter table t rename to u", ["ok", "ok", "25P02"]),
];

// What the blocks say of a command.
fn admitted(blocks: &TxnBlocks, command: &Command) -> &'static str {
    match blocks.admit(command) {
        Ok(()) => "ok",
        Err(BlockCause::Failed) => "25P02",
        Err(BlockCause::NoBlock) => "25P01",
        Err(BlockCause::NoSavepoint { .. }) => "3B001",
    }
}

// Whether this is said of a command outside a block, inside one, and in a failed one.
fn is_said_of(
    alloc: Global,
    command: &Command,
    wanted: [&'static str; 3],
) -> Result<bool, NoMemory> {
    let mut blocks = TxnBlocks::new(alloc);
    let outside = admitted(&blocks, command);
    blocks.begin(1, true)?;
    let inside = admitted(&blocks, command);
    blocks.fail();
    Ok([outside, inside, admitted(&blocks, command)] == wanted)
}

// Whether this is said of the one command of a script.
fn is_admitted(alloc: Global, command: &str, wanted: [&'static str; 3]) -> Result<bool, NoMemory> {
    let script = script_of_command(alloc, command)?;
    match script.commands() {
        [placed] => is_said_of(alloc, &placed.command, wanted),
        _ => Ok(false),
    }
}

#[test]
fn blocks_admit_commands(rt: HostRuntime) -> Result<(), Fail> {
    for &(command, wanted) in ADMITTED {
        assert!(rt; is_admitted(rt.alloc(), command, wanted)?, "{command}");
    }
    Ok(())
}

// Whether a block is open, whether it has failed, and where the level of command 9 begins.
fn state(blocks: &TxnBlocks) -> (bool, bool, u32) {
    (blocks.is_open(), blocks.is_failed(), blocks.level_from(9))
}

const BEGUN_FAILED_ENDED: [(bool, bool, u32); 3] = [
    (true, false, 4),
    (true, true, 4),
    (false, false, 9),
];

// The states of a block that is begun, where it has failed, and after it has ended so.
fn states(blocks: &mut TxnBlocks, ending: &Command) -> Result<[(bool, bool, u32); 3], NoMemory> {
    blocks.ended_well(4, &Command::Begin)?;
    blocks.ended_well(5, &Command::Begin)?;
    let begun = state(blocks);
    blocks.fail();
    let failed = state(blocks);
    blocks.ended_well(6, ending)?;
    Ok([begun, failed, state(blocks)])
}

#[test]
fn blocks_open_fail_and_end(rt: HostRuntime) -> Result<(), Fail> {
    let mut blocks = TxnBlocks::new(rt.alloc());
    blocks.fail();
    blocks.begin(2, false)?;
    blocks.ended_well(3, &Command::Commit)?;
    assert!(rt; state(&blocks) == (false, false, 9));
    assert!(rt; states(&mut blocks, &Command::Commit)? == BEGUN_FAILED_ENDED);
    assert!(rt; states(&mut blocks, &Command::Rollback)? == BEGUN_FAILED_ENDED);
    blocks.begin(7, true)?;
    blocks.end();
    assert!(rt; state(&blocks) == (false, false, 9));
    Ok(())
}

// The commands of a block with two savepoints of one name, and the innermost level after each. They have the
// numbers from 1 on.
const LEVELS: &[(&str, u32)] = &[
    ("begin", 1),
    ("savepoint s", 2),
    ("savepoint r", 3),
    ("savepoint s", 4),
    ("release s", 3),
    ("rollback to s", 2),
    ("savepoint r", 7),
    ("release s", 1),
];

#[test]
fn savepoints_begin_levels(rt: HostRuntime) -> Result<(), Fail> {
    let mut blocks = TxnBlocks::new(rt.alloc());
    for (index, &(command, level)) in LEVELS.iter().enumerate() {
        end_well(rt.alloc(), &mut blocks, index as u32 + 1, command)?;
        assert!(rt; blocks.level_from(9) == level, "{command}");
    }
    Ok(())
}

// The command of this number came out well.
fn end_well(
    alloc: Global,
    blocks: &mut TxnBlocks,
    number: u32,
    command: &str,
) -> Result<(), NoMemory> {
    let script = script_of_command(alloc, command)?;
    match script.commands() {
        [placed] => blocks.ended_well(number, &placed.command),
        _ => Ok(()),
    }
}

#[test]
fn a_rollback_to_a_savepoint_mends(rt: HostRuntime) -> Result<(), Fail> {
    let mut blocks = TxnBlocks::new(rt.alloc());
    end_well(rt.alloc(), &mut blocks, 1, "begin")?;
    end_well(rt.alloc(), &mut blocks, 2, "savepoint s")?;
    blocks.fail();
    assert!(rt; state(&blocks) == (true, true, 2));
    end_well(rt.alloc(), &mut blocks, 3, "rollback to s")?;
    assert!(rt; state(&blocks) == (true, false, 2));
    Ok(())
}

// A table with a live column, another one that has a default, and a dropped one; its index; and a table with a dropped column
// and a live one.
const CATALOG: &[u8] =
    b"+class(16384,t,r,-) +att(16384,1,a,int4,100,l) +att(16384,2,b,text,-1,l) +att(16384,3,........pg.dropped.3........,int4,-1,d) +def(16385,16384,2,x) +class(16386,i,i,-) +ind(16386,16384,v,1) +att(16387,2,a,text,-1,l) +class(16387,e,r,70) +att(16387,1,........pg.dropped.1........,int4,-1,d)";

// Commands, and what each changes of this catalog, as a write with the number of its new oids in place of the Xid;
// or why it changes nothing. A greater statistics target than 10,000 is written as 10,000.
const EFFECTS: &[(&str, &[u8])] = &[
    (
        "create table x (a int4, b text)",
        b"h 1 1 write 1 +class(1,x,r,-) +att(1,1,a,int4,-1,l) +att(1,2,b,text,-1,l)",
    ),
    (
        "create table x (a int4, a text)",
        b"error 42701 column a already exists",
    ),
    ("show t", b"h 1 1 write 0"),
    ("show t columns", b"h 1 1 write 0"),
    ("show t of", b"error 42809 t has no field of"),
    ("show u", b"absent u"),
    ("lock table t in share mode", b"h 1 1 write 0"),
    (
        "lock table i in share mode",
        b"error 42809 i is not a table",
    ),
    (
        "alter table t add column c bool",
        b"h 1 1 write 0 +att(16384,4,c,bool,-1,l)",
    ),
    (
        "alter table t add column a bool",
        b"error 42701 column a already exists",
    ),
    (
        "alter table i add column a bool",
        b"error 42809 i is not a table",
    ),
    ("alter table u add column a bool", b"absent u"),
    (
        "alter table e drop column a",
        b"h 1 1 write 0 =att(16387,2,........pg.dropped.2........,text,-1,d)",
    ),
    (
        "alter table t drop column a",
        b"error 0A000 column a is used by an index or constraint",
    ),
    (
        "alter table t drop column b",
        b"h 1 1 write 0 -def(16385) =att(16384,2,........pg.dropped.2........,text,-1,d)",
    ),
    (
        "alter table t drop column c",
        b"error 42703 column c does not exist",
    ),
    (
        "alter table i drop column c",
        b"error 42809 i is not a table",
    ),
    ("alter table u drop column c", b"absent u"),
    (
        "alter table t rename column a to c",
        b"h 1 1 write 0 =att(16384,1,c,int4,100,l)",
    ),
    (
        "alter table t rename column a to b",
        b"error 42701 column b already exists",
    ),
    (
        "alter table t rename column a to a",
        b"error 42701 column a already exists",
    ),
    (
        "alter table t rename column c to d",
        b"error 42703 column c does not exist",
    ),
    (
        "alter table t rename column c to b",
        b"error 42703 column c does not exist",
    ),
    (
        "alter table i rename column c to b",
        b"error 42809 i is not a table",
    ),
    ("alter table u rename column c to b", b"absent u"),
    (
        "alter table t alter column a set statistics -1",
        b"h 1 1 write 0 =att(16384,1,a,int4,-1,l)",
    ),
    (
        "alter table t alter column b set statistics 0",
        b"h 1 1 write 0 =att(16384,2,b,text,0,l)",
    ),
    (
        "alter table t alter column b set statistics 10000",
        b"h 1 1 write 0 =att(16384,2,b,text,10000,l)",
    ),
    (
        "alter table t alter column b set statistics 10001",
        b"h 1 1 write 0 =att(16384,2,b,text,10000,l)",
    ),
    (
        "alter table t alter column a set statistics -2",
        b"error 22023 value -2 is out of range",
    ),
    (
        "alter table t alter column c set statistics -2",
        b"error 22023 value -2 is out of range",
    ),
    (
        "alter table t alter column c set statistics 0",
        b"error 42703 column c does not exist",
    ),
    (
        "alter table i alter column c set statistics -2",
        b"error 42809 i is not a table",
    ),
    (
        "alter table u alter column c set statistics -2",
        b"absent u",
    ),
    (
        "alter table t set (fillfactor = 10)",
        b"h 1 1 write 0 =class(16384,t,r,10)",
    ),
    (
        "alter table t set (fillfactor = 100)",
        b"h 1 1 write 0 =class(16384,t,r,100)",
    ),
    (
        "alter table t set (fillfactor = 9)",
        b"error 22023 value 9 is out of range",
    ),
    (
        "alter table t set (fillfactor = 101)",
        b"error 22023 value 101 is out of range",
    ),
    (
        "alter table i set (fillfactor = 9)",
        b"error 42809 i is not a table",
    ),
    ("alter table u set (fillfactor = 9)", b"absent u"),
    (
        "alter table e rename to x",
        b"h 1 1 write 0 =class(16387,x,r,70)",
    ),
    (
        "alter table t rename to i",
        b"h 1 1 write 0 =class(16384,i,r,-)",
    ),
    ("alter table i rename to x", b"error 42809 i is not a table"),
    ("alter table u rename to x", b"absent u"),
    (
        "drop table e",
        b"h 1 1 write 0 -att(16387,1) -att(16387,2) -class(16387)",
    ),
    ("drop table i", b"error 42809 i is not a table"),
    ("drop table u", b"absent u"),
];

// Commands of a session that has the table `t` open under that name and under `u`, and what each changes of the
// same catalog, or why it changes nothing. The tests of a table that is open come after that of its kind.
const EFFECTS_OPEN: &[(&str, &[u8])] = &[
    (
        "alter table t add column c int4",
        b"error 55006 relation 16384 is open in this session",
    ),
    (
        "alter table t drop column z",
        b"error 55006 relation 16384 is open in this session",
    ),
    (
        "alter table t rename column z to a",
        b"error 55006 relation 16384 is open in this session",
    ),
    (
        "alter table t alter column a set statistics -2",
        b"error 55006 relation 16384 is open in this session",
    ),
    (
        "alter table t set (fillfactor = 9)",
        b"error 55006 relation 16384 is open in this session",
    ),
    (
        "alter table t rename to x",
        b"error 55006 relation 16384 is open in this session",
    ),
    (
        "drop table t",
        b"error 55006 relation 16384 is open in this session",
    ),
    ("alter table u rename to x", b"absent u"),
    ("alter table i rename to x", b"error 42809 i is not a table"),
    (
        "alter table e rename to x",
        b"h 1 1 write 0 =class(16387,x,r,70)",
    ),
    ("open e", b"h 1 1 write 0"),
    ("open z", b"absent z"),
    ("peek u", b"h 1 1 write 0"),
    ("peek u of", b"error 42809 u has no field of"),
    ("peek e", b"error 55000 e is not open"),
    ("close t", b"h 1 1 write 0"),
    ("close e", b"error 55000 e is not open"),
];

// A table `u`, to which a table `t` refers by its column `a`; `t` has a check, a reference to itself, two defaults,
// two triggers and an index on `b` and `a`.
const DEPENDENTS: &[u8] =
    b"+class(16384,u,r,-) +att(16384,1,x,int4,-1,l) +att(16384,2,z,text,-1,l) +class(16385,t,r,-) +att(16385,1,a,int4,-1,l) +att(16385,2,b,text,-1,l) +att(16385,3,c,int4,-1,l) +def(16386,16385,3,seven) +def(16388,16385,1,two) +class(16389,i,i,-) +ind(16389,16385,v,2+1) +con(16392,16385,s,f,v,3,16385,2) +con(16390,16385,k,c,v,a>0) +con(16391,16385,f,f,n,1,16384,1) +trg(16393,16385,h,e) +trg(16394,16385,g,d)";

// What commands change of that catalog, or why they change nothing.
const DEPENDENT_EFFECTS: &[(&str, &[u8])] = &[
    (
        "alter table t alter column a set default one",
        b"h 1 1 write 1 -def(16388) +def(1,16385,1,one) !16385",
    ),
    (
        "alter table u alter column z set default one",
        b"h 1 1 write 1 +def(1,16384,2,one) !16384",
    ),
    (
        "alter table u alter column a set default one",
        b"error 42703 column a does not exist",
    ),
    (
        "alter table t drop column c",
        b"error 0A000 column c is used by an index or constraint",
    ),
    (
        "alter table u drop column x",
        b"error 0A000 column x is used by an index or constraint",
    ),
    (
        "alter table u drop column z",
        b"h 1 1 write 0 =att(16384,2,........pg.dropped.2........,text,-1,d)",
    ),
    (
        "alter table t add constraint l check (b > 0) not valid",
        b"h 1 1 write 1 +con(1,16385,l,c,n,b>0) !16385",
    ),
    (
        "alter table t add constraint f check (b > 0)",
        b"error 42710 constraint f already exists",
    ),
    (
        "alter table t add constraint l foreign key (b) references u (z)",
        b"h 1 1 write 1 +con(1,16385,l,f,v,2,16384,2) !16384",
    ),
    (
        "alter table u add constraint f foreign key (x) references u (z) not valid",
        b"h 1 1 write 1 +con(1,16384,f,f,n,1,16384,2) !16384",
    ),
    (
        "alter table t add constraint k foreign key (q) references v (q)",
        b"error 42710 constraint k already exists",
    ),
    (
        "alter table t add constraint l foreign key (q) references v (q)",
        b"error 42703 column q does not exist",
    ),
    (
        "alter table t add constraint l foreign key (a) references v (q)",
        b"absent v",
    ),
    (
        "alter table t add constraint l foreign key (a) references i (q)",
        b"error 42809 i is not a table",
    ),
    (
        "alter table t add constraint l foreign key (a) references u (q)",
        b"error 42703 column q does not exist",
    ),
    (
        "alter table t validate constraint f",
        b"h 1 1 write 0 =con(16391,16385,f,f,v,1,16384,1) !16385",
    ),
    ("alter table t validate constraint k", b"h 1 1 write 0"),
    (
        "alter table u validate constraint f",
        b"error 42704 constraint f does not exist",
    ),
    (
        "alter table t drop constraint k",
        b"h 1 1 write 0 -con(16390) !16385",
    ),
    (
        "alter table t drop constraint f",
        b"h 1 1 write 0 -con(16391) !16385 !16384",
    ),
    (
        "alter table t drop constraint s",
        b"h 1 1 write 0 -con(16392) !16385 !16385",
    ),
    (
        "alter table u drop constraint f",
        b"error 42704 constraint f does not exist",
    ),
    (
        "alter table t enable trigger g",
        b"h 1 1 write 0 =trg(16394,16385,g,e) !16385",
    ),
    ("alter table t disable trigger g", b"h 1 1 write 0"),
    (
        "alter table u disable trigger g",
        b"error 42704 trigger g does not exist",
    ),
    (
        "create trigger g on u",
        b"h 1 1 write 1 +trg(1,16384,g,e) !16384",
    ),
    (
        "create trigger g on t",
        b"error 42710 trigger g already exists",
    ),
    (
        "create index m on t (c, a, c)",
        b"h 1 1 write 1 +class(1,m,i,-) +ind(1,16385,v,3+1+3) !16385",
    ),
    (
        "create index m on t (a, q, r)",
        b"error 42703 column q does not exist",
    ),
    (
        "create index m on t (q,q,q,q,q,q,q,q,q,q,q,q,q,q,q,q,q,q,q,q,q,q,q,q,q,q,q,q,q,q,q,q,q)",
        b"error 54011 too many columns",
    ),
    ("create index m on i (q)", b"error 42809 i is not a table"),
    (
        "drop index i",
        b"h 1 1 write 0 -ind(16389) -class(16389) !16385",
    ),
    ("drop index t", b"error 42809 t is not an index"),
    ("drop index m", b"absent m"),
    (
        "alter index i rename to j",
        b"h 1 1 write 0 =class(16389,j,i,-)",
    ),
    (
        "alter index t rename to j",
        b"error 42809 t is not an index",
    ),
    (
        "drop table t",
        b"h 1 1 write 0 -ind(16389) -class(16389) -con(16390) -con(16391) -con(16392) -def(16386) -def(16388) -trg(16393) -trg(16394) -att(16385,1) -att(16385,2) -att(16385,3) -class(16385) !16384 !16385",
    ),
    (
        "drop table u",
        b"error 2BP01 other objects depend on relation u",
    ),
];

// The same where the session has `u` open: what is tested after a further lock, and what isn't altered.
const DEPENDENT_EFFECTS_OPEN: &[(&str, &[u8])] = &[
    (
        "alter table t drop constraint f",
        b"error 55006 relation 16384 is open in this session",
    ),
    (
        "alter table t drop constraint g",
        b"error 42704 constraint g does not exist",
    ),
    (
        "alter table t add constraint l foreign key (b) references u (z)",
        b"h 1 1 write 1 +con(1,16385,l,f,v,2,16384,2) !16384",
    ),
    (
        "create index m on u (q)",
        b"error 55006 relation 16384 is open in this session",
    ),
    (
        "drop table t",
        b"error 55006 relation 16384 is open in this session",
    ),
];

// The relations that the session has open.
const OPEN: &[(&str, u32)] = &[("t", 16384), ("u", 16384)];

fn open_relations(
    alloc: Global,
    opens: &[(&'static str, u32)],
) -> Result<Listed<OpenRelation>, NoMemory> {
    let mut list = Listed::new(alloc);
    for &(name, rel) in opens {
        list.push(OpenRelation {
            name: name_of(name.as_bytes()),
            rel: Oid(rel),
            kind: Kind::Table,
            command: 2,
        })?;
    }
    Ok(list)
}

fn refusal_text(alloc: Global, refusal: &EffectRefusal) -> Result<Vec<u8>, NoMemory> {
    let mut text = Vec::new(alloc);
    match refusal {
        EffectRefusal::Cause(error) => answer_text(&Answer::Error(*error), &mut text)?,
        EffectRefusal::Absent(name) => {
            text.extend_from_slice(b"absent ")?;
            text.extend_from_slice(name.as_bytes())?;
        }
        EffectRefusal::NoMemory => return Err(NoMemory),
    }
    Ok(text)
}

// A draft as a write, with the number of its new oids in place of the Xid.
fn draft_text(alloc: Global, draft: &Draft) -> Result<Vec<u8>, NoMemory> {
    let items = items_of(alloc, draft)?;
    let entry = Entry {
        backend: 1,
        command: 1,
        event: Event::Write {
            xid: Xid(draft.new_oids),
            items,
        },
    };
    text_of(alloc, &entry)
}

fn items_of(alloc: Global, draft: &Draft) -> Result<Listed<Item>, NoMemory> {
    let mut items = Listed::new(alloc);
    for change in draft.changes.as_slice() {
        items.push(item_of(change))?;
    }
    for rel in draft.forced.as_slice() {
        items.push(Item::Force(*rel))?;
    }
    Ok(items)
}

fn item_of(change: &Change) -> Item {
    match change {
        Change::Insert(row) => Item::Add(*row),
        Change::Replace(row) => Item::Put(*row),
        Change::Delete(key) => Item::Remove(*key),
    }
}

// What the one command of a script changes by these facts, or why it changes nothing.
fn effect_among(alloc: Global, command: &str, facts: &Facts) -> Result<Vec<u8>, NoMemory> {
    let script = script_of_command(alloc, command)?;
    match script.commands() {
        [placed] => match effect(alloc, &placed.command, facts) {
            Ok(draft) => draft_text(alloc, &draft),
            Err(refusal) => refusal_text(alloc, &refusal),
        },
        _ => Ok(Vec::new(alloc)),
    }
}

// Whether a command changes this where there are the rows of a text, and these relations are open.
fn has_effect(
    alloc: Global,
    rows: &[u8],
    opens: &[(&'static str, u32)],
    command: &str,
    wanted: &[u8],
) -> Result<bool, NoMemory> {
    let facts = Facts {
        rows: Listed::from_vec(rows_of(alloc, rows)?),
        opened: open_relations(alloc, opens)?,
    };
    Ok(effect_among(alloc, command, &facts)?.as_slice() == wanted)
}

// The rows of a catalog, the relations that the session has open, and what commands change then.
const TABLES_OF_EFFECTS: &[(&[u8], &[(&str, u32)], &[(&str, &[u8])])] = &[
    (CATALOG, &[], EFFECTS),
    (CATALOG, OPEN, EFFECTS_OPEN),
    (DEPENDENTS, &[], DEPENDENT_EFFECTS),
    (DEPENDENTS, &[("u", 16384)], DEPENDENT_EFFECTS_OPEN),
];

#[test]
fn commands_have_their_effects(rt: HostRuntime) -> Result<(), Fail> {
    for &(rows, opens, effects) in TABLES_OF_EFFECTS {
        for &(command, wanted) in effects {
            assert!(rt;
                has_effect(rt.alloc(), rows, opens, command, wanted)?,
                "{command}"
            );
        }
    }
    Ok(())
}
