use base_types::{Field, Mode, Name, Oid, Xid};

/// Why a command failed. Each is an error of PostgreSQL, with its SQLSTATE in the text.
#[derive(Clone, Copy)]
pub enum CommandError {
    /// 25P02: the block has failed, and this command isn't one that ends or mends it.
    BlockFailed,
    /// 25P01: the command needs a transaction block.
    NoBlock,
    /// 3B001: the block has no savepoint of this name.
    NoSavepoint { name: Name },
    /// 55000: the session holds nothing open under this name.
    NotOpen { name: Name },
    /// 42P01: no relation has the name; the entry of the scan that said so, from 1.
    NoRelation { name: Name, at: u64 },
    /// 42704: no index has the name; the entry of the scan that said so, from 1.
    NoIndex { name: Name, at: u64 },
    /// 42704: the table has no such constraint.
    NoConstraint { name: Name },
    /// 42704: the table has no such trigger.
    NoTrigger { name: Name },
    /// 55P03: another backend holds the relation in a conflicting mode.
    Locked { rel: Oid, holder: u32, mode: Mode },
    /// 55P03: a running transaction has the new name in use.
    NameInUse { name: Name, xid: Xid },
    /// 42P07: a relation has the new name.
    RelationExists { name: Name },
    /// 42809: the relation isn't a table.
    NotTable { name: Name },
    /// 42809: the relation isn't an index.
    NotIndex { name: Name },
    /// 42809: the relation has no such field.
    NoField { name: Name, field: Field },
    /// 55006: the session holds the relation open.
    InUse { rel: Oid },
    /// 2BP01: a foreign key of another table refers to it.
    Depends { name: Name },
    /// 0A000: an index or a foreign key uses the column.
    ColumnUsed { name: Name },
    /// 42701: the table has a column of this name.
    ColumnExists { name: Name },
    /// 42703: the table has no column of this name.
    NoColumn { name: Name },
    /// 42710: the table has a constraint of this name.
    ConstraintExists { name: Name },
    /// 42710: the table has a trigger of this name.
    TriggerExists { name: Name },
    /// 22023: the number isn't one that the setting takes.
    OutOfRange { value: i64 },
    /// 54011: more columns than a table or an index may have.
    TooManyColumns,
    /// 53200: out of memory.
    WantOfMemory,
}
