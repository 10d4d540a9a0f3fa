// The scans that a descriptor is built of, and what the relation cache has of them.

ghost use Rattle.std.specs.Prelude.{◌≡◌, ◌≢◌, [], None, Some, not, is_some, IfOk, OnOk, OnErr};
ghost use Rattle.std.specs.Option.{option_copied, option_map};
ghost use Rattle.std.specs.List.{find};
ghost use Rattle.base_types.specs.Scans.{build_scans, same_scan as same};
ghost use Rattle.rel_cache.specs.Descriptors.{renewed};
ghost use Rattle.rel_cache.specs.Caches.{held_of, HeldUnder, ChangesHeld};
ghost use Rattle.local_caches.specs.declared.home.Home.TheVariants as homes;
ghost use Rattle.local_caches.specs.Homes.{home_of};
ghost use Rattle.local_caches.specs.Parts.{parts_held, IsPartOf, PutsPart, KeepsParts};

use crate::part::Part;
use base_types::{Kind, Listed, NoMemory, Oid, Purpose, Row, same_scan, table_scans};
use pin_pool::Ref;
use rel_cache::RelCache;
use rel_desc::values_read;
use std::alloc::Global;

// The first of them that is this scan.
pub(crate) fn part_of<'a>(parts: &'a [Part], scan: &Purpose) -> Option<&'a Part>
    ensures { option_copied result ≡ find (λ part. same part.scan scan.now) parts.now }
{
    parts.iter().find(|part| same_scan(&part.scan, scan))
}

// The first scan of a descriptor that isn't among them.
pub(crate) fn first_missing_of(parts: &[Part], kind: Kind, rel: Oid) -> Option<Purpose>
    ensures { result ≡ find (λ scan. not (is_some (find (λ part. same part.scan scan) parts.now))) (build_scans kind rel) }
{
    match kind {
        Kind::Table => first_of(parts, &table_scans(rel)),
        Kind::Index => first_of(parts, &[Purpose::Class(rel), Purpose::IndexRow(rel)]),
    }
}

// The first of these scans that isn't among them.
fn first_of(parts: &[Part], wanted: &[Purpose]) -> Option<Purpose>
    ensures { result ≡ find (λ scan. not (is_some (find (λ part. same part.scan scan) parts.now))) wanted.now }
{
    wanted
        .iter()
        .find(|scan| part_of(parts, scan).is_none())
        .copied()
}

// What a scan gave for the descriptor of the relation that it asks for, with the texts of its fields.
pub(crate) fn part_made(
    alloc: Global,
    rel: Oid,
    scan: &Purpose,
    rows: Listed<Row>,
    at: u64,
) -> Result<Part, NoMemory>
    requires { home_of scan.now ≡ homes.Rel rel }
    ensures { IfOk result (λ part. IsPartOf part scan.now rows at) }
{
    let texts = values_read(alloc, rel, scan, rows.as_slice())?;
    Ok(Part {
        scan: *scan,
        rows,
        at,
        texts,
    })
}

// Adds a scan to those of a relation's descriptor. Where there is none, or where it is to be built anew, it
// begins with the scan. Out of memory, each relation has the scans that it had.
pub(crate) fn put_part(
    alloc: Global,
    relations: &mut RelCache<Listed<Part>>,
    rel: Oid,
    part: Part,
) -> Result<(), NoMemory>
    ensures ok { OnOk result (PutsPart relations.old relations.new rel part) }
    ensures err { OnErr result (KeepsParts relations.old relations.new) }
{
    let Some(r) = relations.reference(rel) else {
        return begin(alloc, relations, rel, part);
    };
    let mut parts = take_parts(alloc, relations, rel, &r);
    let added = parts.push(part);
    let _ = relations.replace(&r, parts);
    added
}

// A descriptor that begins with a scan.
fn begin(
    alloc: Global,
    relations: &mut RelCache<Listed<Part>>,
    rel: Oid,
    part: Part,
) -> Result<(), NoMemory>
    requires { held_of relations.old rel ≡ None }
    ensures ok { OnOk result (PutsPart relations.old relations.new rel part) }
    ensures err { OnErr result (KeepsParts relations.old relations.new) }
{
    let mut parts = Listed::new(alloc);
    parts.push(part)?;
    let Ok(r) = relations.insert(rel, parts) else {
        return Err(NoMemory);
    };
    relations.close(r);
    Ok(())
}

// Takes the scans out of a relation's descriptor, which is valid then; none where it is to be built anew.
fn take_parts(
    alloc: Global,
    relations: &mut RelCache<Listed<Part>>,
    rel: Oid,
    r: &Ref,
) -> Listed<Part>
    requires { HeldUnder relations.old rel r.now }
    ensures parts { result ≡ parts_held (held_of relations.old rel) }
    ensures held { ChangesHeld relations.old relations.new rel (option_map (renewed []) (held_of relations.old rel)) }
{
    let valid = relations.is_valid(r);
    let parts = relations.replace(r, Listed::new(alloc));
    if valid { parts } else { Listed::new(alloc) }
}
