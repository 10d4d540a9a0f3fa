use crate::row_texts::rows_of;
use base_types::{
    CacheId, Catalog, Field, Key, KeyPart, Kind, LineBuffer, Listed, Mode, Name, NameFault,
    NoMemory, Oid, Purpose, Row, Text, Word, conflicts, field_text, goes_before, has_field,
    key_hash, read_by, selects, writers,
};
use std::alloc::Global;
use std::test::Fail;

// The table of the PostgreSQL manual, "Explicit Locking".
const CONFLICTS: [&[u8; 8]; 8] = [
    b".......x",
    b"......xx",
    b"....xxxx",
    b"...xxxxx",
    b"..xx.xxx",
    b"..xxxxxx",
    b".xxxxxxx",
    b"xxxxxxxx",
];

// The modes of the writers of each field, as they are written, of tables and then of indexes.
const WRITERS: &[(Kind, Field, &[u8])] = &[
    (Kind::Table, Field::Name, b"name: ax"),
    (Kind::Table, Field::Columns, b"columns: ax"),
    (Kind::Table, Field::Defaults, b"defaults: ax"),
    (Kind::Table, Field::Statistics, b"statistics: su ax"),
    (Kind::Table, Field::Fillfactor, b"fillfactor: su ax"),
    (Kind::Table, Field::Constraints, b"constraints: su sr ax"),
    (Kind::Table, Field::Referenced, b"referenced: sr ax"),
    (Kind::Table, Field::Indexes, b"indexes: sh ax"),
    (Kind::Table, Field::Triggers, b"triggers: sr ax"),
    (Kind::Table, Field::Valid, b"valid:"),
    (Kind::Index, Field::Name, b"name: su ax"),
    (Kind::Index, Field::Of, b"of: ax"),
    (Kind::Index, Field::Valid, b"valid: ax"),
    (Kind::Index, Field::Columns, b"columns:"),
];

const BYTES_63: &[u8] = b"a23456789_123456789_123456789_123456789_123456789_123456789_123";

const BYTES_64: &[u8] = b"a23456789_123456789_123456789_123456789_123456789_123456789_1234";

// Bytes, and whether they are a name, a word and a text.
const SHORT_TEXTS: &[(&[u8], [bool; 3])] = &[
    (b"t_1", [true, true, true]),
    (BYTES_63, [true, true, true]),
    (BYTES_64, [false, false, false]),
    (b"", [false, false, false]),
    (b"........pg.dropped.1600........", [true, false, false]),
    (b"........pg.dropped.012........", [false, false, false]),
    (b"1a", [false, true, true]),
    (b"a-b", [false, true, true]),
    (b"-1a_", [false, true, true]),
    (b"a+", [false, false, true]),
    (b"a+b>=-1*c<0", [false, false, true]),
    (b"a,b", [false, false, false]),
];

// The name of these bytes; of others, that of a dropped column.
pub(crate) fn name(text: &[u8]) -> Name {
    match Name::new(text) {
        Ok(name) => name,
        Err(_) => Name::dropped(1),
    }
}

fn is_name(text: &[u8]) -> bool {
    match Name::new_or_dropped(text) {
        Ok(name) => name.as_bytes() == text,
        Err(_) => false,
    }
}

fn is_word(text: &[u8]) -> bool {
    match Word::new(text) {
        Ok(word) => word.as_bytes() == text,
        Err(_) => false,
    }
}

fn is_text(text: &[u8]) -> bool {
    match Text::new(text) {
        Ok(found) => found.as_bytes() == text,
        Err(_) => false,
    }
}

#[test]
fn names_words_and_texts(rt: HostRuntime) {
    for &(text, wanted) in SHORT_TEXTS {
        assert!(rt; [is_name(text), is_word(text), is_text(text)] == wanted);
    }
}

// What is first wrong with a name, and the place of a byte that may not be there.
fn fault(text: &[u8]) -> (&'static str, u32) {
    match Name::new(text) {
        Ok(_) => ("none", 0),
        Err(NameFault::Empty) => ("empty", 0),
        Err(NameFault::TooLong) => ("too long", 0),
        Err(NameFault::BadByte { at }) => ("bad byte", at),
    }
}

// What is first wrong with some names. The name of a dropped column is none that may be given.
const NAME_FAULTS: &[(&[u8], &str, u32)] = &[
    (b"", "empty", 0),
    (BYTES_64, "too long", 0),
    (b"aB C", "bad byte", 1),
    (b"........pg.dropped.12........", "bad byte", 0),
];

#[test]
fn the_first_fault_of_a_name(rt: HostRuntime) {
    for &(text, fault_name, at) in NAME_FAULTS {
        assert!(rt; fault(text) == (fault_name, at));
    }
    assert!(rt; Name::dropped(12).as_bytes() == b"........pg.dropped.12........".as_slice());
}

// Whether a mode conflicts with those that are marked in its row.
fn conflicts_so(mode: Mode, row: &[u8; 8]) -> bool {
    for (other, mark) in Mode::ALL.iter().zip(row) {
        if conflicts(mode, *other) != (*mark == b'x') {
            return false;
        }
    }
    true
}

#[test]
fn conflict_table(rt: HostRuntime) {
    for (mode, row) in Mode::ALL.iter().zip(&CONFLICTS) {
        assert!(rt; conflicts_so(*mode, row));
    }
}

// A field and the modes of its writers.
fn writers_line(kind: Kind, field: Field) -> LineBuffer {
    let mut line = LineBuffer::new();
    line.push(field.word());
    line.push(b":");
    for mode in writers(kind, field).as_slice() {
        if line.as_bytes().len() < 500 {
            line.push(b" ");
            line.push(mode.word());
        }
    }
    line
}

// A kind has the fields of which a writer locks all others out.
#[test]
fn writers_table(rt: HostRuntime) {
    for &(kind, field, text) in WRITERS {
        assert!(rt; writers_line(kind, field).as_bytes() == text);
        assert!(rt; has_field(kind, field) == writers(kind, field).has(Mode::AccessExclusive));
    }
}

// A column `b`, and a column `a` after it.
const TWO_COLUMNS: &[u8] = b"+att(16384,1,b,int4,-1,l) +att(16384,2,a,int4,-1,l)";

// Whether a scan asks for the first of two rows, gives it before the second, and the second before it.
fn order(purpose: &Purpose, rows: &[Row]) -> [bool; 3] {
    match rows {
        [a, b] => [
            selects(purpose, a),
            goes_before(purpose, a, b),
            goes_before(purpose, b, a),
        ],
        _ => [false; 3],
    }
}

#[test]
fn columns_go_by_number_or_by_name(rt: HostRuntime) -> Result<(), Fail> {
    let rows = rows_of(rt.alloc(), TWO_COLUMNS)?;
    let by_number = read_by(Field::Columns, Oid(16384));
    assert!(rt; order(&by_number, &rows) == [true, true, false]);
    let by_name = Purpose::AttList(Oid(16384));
    assert!(rt; order(&by_name, &rows) == [true, false, true]);
    Ok(())
}

// A live column `b` and a dropped one, a foreign key, and an index.
const COLUMNS: &[u8] =
    b"+att(16384,1,b,int4,-1,l) +att(16384,2,........pg.dropped.2........,int4,-1,d)";

const KEY: &[u8] = b"+con(16390,16385,k,f,n,2,16384,1)";

const INDEX: &[u8] = b"+ind(16400,16384,v,1+3+12)";

// Rows, a field of a relation, and its text where there are these rows alone.
const FIELDS: &[(&[u8], Field, u32, &str)] = &[
    (COLUMNS, Field::Columns, 16384, "b:int4"),
    (COLUMNS, Field::Statistics, 16384, "1:-1"),
    (COLUMNS, Field::Defaults, 16384, "-"),
    (KEY, Field::Constraints, 16385, "k:fk:n:2:16384:1"),
    (KEY, Field::Constraints, 16384, "-"),
    (KEY, Field::Referenced, 16384, "16390:16385:1"),
    (INDEX, Field::Indexes, 16384, "16400:v:1+3+12"),
    (INDEX, Field::Of, 16400, "16384:1+3+12"),
    (INDEX, Field::Valid, 16400, "v"),
];

#[test]
fn fields_have_their_texts(rt: HostRuntime) -> Result<(), Fail> {
    for &(rows, field, rel, want) in FIELDS {
        let rows = rows_of(rt.alloc(), rows)?;
        let text = field_text(rt.alloc(), field, Oid(rel), &rows)?;
        assert!(rt; text.as_slice() == want.as_bytes(), "{want}");
    }
    Ok(())
}

fn catalog_name(row: &Row) -> &'static str {
    match row.catalog() {
        Catalog::Class => "pg_class",
        Catalog::Attribute => "pg_attribute",
        Catalog::AttrDef => "pg_attrdef",
        Catalog::Index => "pg_index",
        Catalog::Constraint => "pg_constraint",
        Catalog::Trigger => "pg_trigger",
    }
}

// A row of each catalog.
const CATALOGS: &[(&[u8], &str)] = &[
    (b"+class(16384,t,r,-)", "pg_class"),
    (b"+att(16384,1,a,int4,-1,l)", "pg_attribute"),
    (b"+def(16386,16384,1,0)", "pg_attrdef"),
    (INDEX, "pg_index"),
    (KEY, "pg_constraint"),
    (b"+trg(16389,16384,g,e)", "pg_trigger"),
];

// Whether a row is in the catalog of this name.
fn is_in_catalog(alloc: Global, row: &[u8], wanted: &str) -> Result<bool, NoMemory> {
    match rows_of(alloc, row)?.first() {
        Some(row) => Ok(catalog_name(row) == wanted),
        None => Ok(false),
    }
}

#[test]
fn rows_have_their_catalogs(rt: HostRuntime) -> Result<(), Fail> {
    for &(row, wanted) in CATALOGS {
        assert!(rt; is_in_catalog(rt.alloc(), row, wanted)?, "{wanted}");
    }
    Ok(())
}

#[test]
fn hashes(rt: HostRuntime) {
    for text in [b"an", b"c0"].iter() {
        let by_name = Key::new(&[KeyPart::Name(name(*text))]);
        assert!(rt; key_hash(CacheId::RelName, &by_name) == 4078);
    }
    let by_column = Key::new(&[KeyPart::Oid(Oid(16384)), KeyPart::Name(name(b"a"))]);
    assert!(rt; key_hash(CacheId::AttName, &by_column) == 85949054);
}

#[test]
fn lists(rt: HostRuntime) -> Result<(), Fail> {
    let mut list = Listed::new(rt.alloc());
    list.push(7u32)?;
    let list = Listed::from_vec(list.into_vec());
    assert!(rt; list.as_slice() == [7].as_slice());
    Ok(())
}
