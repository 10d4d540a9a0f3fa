ghost use Rattle.std.specs.Prelude.{◌≡◌};
ghost use Rattle.local_caches.specs.Homes.{home_of as home};
ghost use Rattle.local_caches.specs.Kept.{is_keyed as asks_for_key};

use base_types::{CacheId, Key, KeyPart, Oid, Purpose};

/// Whether the scan asks for the row of a key.
pub fn is_keyed(scan: &Purpose) -> bool
    ensures { result ≡ asks_for_key scan.now }
{
    matches!(
        scan,
        Purpose::RelName(_) | Purpose::RelOid(_) | Purpose::AttName(_, _)
    )
}

// By what a catalog cache finds what a scan gave.
#[derive(Clone, Copy)]
pub(crate) enum Lookup {
    // a row or a negative entry, by its key
    Key(CacheId, Key),
    // a list of columns, by the first part of their keys
    List(Key),
}

// Where it is kept what a scan gave.
#[derive(Clone, Copy)]
pub(crate) enum Home {
    // in a catalog cache
    Cat(Lookup),
    // with the descriptor of a relation
    Rel(Oid),
}

// Where it is kept what this scan gave.
pub(crate) fn home_of(scan: &Purpose) -> Home
    ensures { result ≡ home scan.now }
{
    match scan {
        Purpose::RelName(name) => Home::Cat(Lookup::Key(
            CacheId::RelName,
            Key::new(&[KeyPart::Name(*name)]),
        )),
        Purpose::RelOid(rel) => Home::Cat(Lookup::Key(
            CacheId::RelOid,
            Key::new(&[KeyPart::Oid(*rel)]),
        )),
        Purpose::AttName(rel, name) => Home::Cat(Lookup::Key(
            CacheId::AttName,
            Key::new(&[KeyPart::Oid(*rel), KeyPart::Name(*name)]),
        )),
        Purpose::AttList(rel) => Home::Cat(Lookup::List(Key::new(&[KeyPart::Oid(*rel)]))),
        Purpose::Class(rel)
        | Purpose::Attribute(rel)
        | Purpose::AttrDef(rel)
        | Purpose::Constraint(rel)
        | Purpose::Index(rel)
        | Purpose::Trigger(rel)
        | Purpose::IndexRow(rel) => Home::Rel(*rel),
    }
}
