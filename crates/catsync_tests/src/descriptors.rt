ghost use Rattle.std.specs.Prelude.{◌≡◌, true};
ghost use Rattle.std.specs.List.{list_all};
ghost use Rattle.base_types.specs.Scans.{selects as is_asked_for};
ghost use Rattle.rel_desc.specs.Descriptors.{IsGiven};

use crate::row_texts::rows_of;
use base_types::{Field, NoMemory, Oid, Purpose, Row, selects};
use rel_desc::{DescBuild, Descriptor};
use std::alloc::Global;
use std::test::Fail;

// What each scan of a table in turn gives, and its entry: also a foreign key of another table that refers to it.
const TABLE: &[(&[u8], u64)] = &[
    (b"+class(16384,t,r,70)", 5),
    (
        b"+att(16384,1,a,int4,100,l) +att(16384,2,b,text,-1,l) +att(16384,3,........pg.dropped.3........,int4,-1,d)",
        7,
    ),
    (b"+def(16390,16384,1,0)", 9),
    (
        b"+con(16391,16384,k,c,v,a>0) +con(16395,16500,f,f,n,2,16384,1)",
        11,
    ),
    (b"+ind(16392,16384,v,1)", 13),
    (b"+trg(16393,16384,g,e) +trg(16389,16384,h,d)", 15),
];

// Its fields, and where each was read.
const TABLE_FIELDS: &[(Field, &str, u64)] = &[
    (Field::Name, "t", 5),
    (Field::Fillfactor, "70", 5),
    (Field::Columns, "a:int4 b:text", 7),
    (Field::Statistics, "1:100 2:-1", 7),
    (Field::Defaults, "1=0", 9),
    (Field::Constraints, "k:check:v:a>0", 11),
    (Field::Referenced, "16395:16500:1", 11),
    (Field::Indexes, "16392:v:1", 13),
    (Field::Triggers, "g:e h:d", 15),
];

// What it gave before a message marked the build.
const TABLE_AT_FIRST: &[(&[u8], u64)] = &[
    (b"+class(16384,t,r,-)", 1),
    (b"+att(16384,1,a,int4,-1,l)", 2),
];

const INDEX: &[(&[u8], u64)] = &[(b"+class(16392,i,i,-)", 3), (b"+ind(16392,16384,n,1+2)", 4)];

const INDEX_FIELDS: &[(Field, &str, u64)] = &[
    (Field::Name, "i", 3),
    (Field::Of, "16384:1+2", 4),
    (Field::Valid, "n", 4),
];

// Whether a scan asks for each of these rows.
fn are_asked_for(scan: &Purpose, rows: &[Row]) -> bool
    ensures { result ≡ list_all (is_asked_for scan.now) rows.now }
{
    rows.iter().all(|row| selects(scan, row))
}

// Whether a scan may give these rows: a scan of the relation's own row gives one.
fn is_given(scan: &Purpose, rows: &[Row]) -> bool
    ensures { result ≡ true → IsGiven scan.now rows.now }
{
    are_asked_for(scan, rows) && (!matches!(scan, Purpose::Class(_)) || rows.len() == 1)
}

// Whether the build wants a scan that gives these rows, and takes them.
fn takes(build: &mut DescBuild, rows: Vec<Row>, at: u64) -> bool {
    let Some(scan) = build.wants() else {
        return false;
    };
    if !is_given(&scan, &rows) {
        return false;
    }
    build.take(rows, at).is_ok()
}

fn takes_all(
    alloc: Global,
    build: &mut DescBuild,
    scans: &[(&[u8], u64)],
) -> Result<bool, NoMemory> {
    for (text, at) in scans {
        let rows = rows_of(alloc, text)?;
        if !takes(build, rows, *at) {
            return Ok(false);
        }
    }
    Ok(true)
}

fn has_field(descriptor: &Descriptor, field: Field, text: &str, at: u64) -> bool {
    match descriptor.field(field) {
        Some(value) => value.as_bytes() == text.as_bytes() && descriptor.read_at(field) == Some(at),
        None => false,
    }
}

fn has_fields(descriptor: &Descriptor, fields: &[(Field, &str, u64)]) -> bool {
    for (field, text, at) in fields {
        if !has_field(descriptor, *field, text, *at) {
            return false;
        }
    }
    true
}

// Whether the kind lacks a field.
fn lacks(descriptor: &Descriptor, field: Field) -> bool {
    descriptor.field(field).is_none() && descriptor.read_at(field).is_none()
}

// Whether a build wants no scan, and its descriptor has these fields, lacks this one, and was built of so many rows.
fn is_built(build: DescBuild, fields: &[(Field, &str, u64)], lacking: Field, rows: usize) -> bool {
    if build.wants().is_some() {
        return false;
    }
    let descriptor = build.done();
    has_fields(&descriptor, fields)
        && lacks(&descriptor, lacking)
        && descriptor.rows().len() == rows
}

fn table_is_built(alloc: Global) -> Result<bool, NoMemory> {
    let mut build = DescBuild::new(alloc, Oid(16384));
    let is_taken = takes_all(alloc, &mut build, TABLE_AT_FIRST)?;
    build.restart();
    let is_whole = takes_all(alloc, &mut build, TABLE)?;
    Ok(is_taken && is_whole && is_built(build, TABLE_FIELDS, Field::Of, 10))
}

fn index_is_built(alloc: Global) -> Result<bool, NoMemory> {
    let mut build = DescBuild::new(alloc, Oid(16392));
    let is_whole = takes_all(alloc, &mut build, INDEX)?;
    Ok(is_whole && is_built(build, INDEX_FIELDS, Field::Columns, 2))
}

#[test]
fn descriptors_are_built_of_scans(rt: HostRuntime) -> Result<(), Fail> {
    assert!(rt; table_is_built(rt.alloc())?);
    assert!(rt; index_is_built(rt.alloc())?);
    Ok(())
}
