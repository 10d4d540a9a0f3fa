ghost use Rattle.std.specs.Prelude.{◌≡◌, ◌++◌, codes, OnOk, IfOk, if◌then◌else◌};
ghost use Rattle.base_types.specs.Fields.{field_text as text_of};
ghost use Rattle.base_types.specs.Names.{IsInLine};

use crate::{Field, NoMemory, Oid, Row, item_of};
use std::alloc::Global;

/// The text of a relation's field, made of the rows of the scan that reads it: the items with a
/// blank between each two, or a dash where there is no item.
pub fn field_text(alloc: Global, field: Field, rel: Oid, rows: &[Row]) -> Result<Vec<u8>, NoMemory>
    ensures ok { IfOk result (λ text. text.items ≡ text_of field rel rows.now) }
    ensures in_line { IfOk result (λ text. IsInLine text.items) }
{
    let mut text = Vec::new(alloc);
    let mut some = false;
    for row in rows {
        if let Some(item) = item_of(field, rel, row) {
            push_item(&mut text, some, item.as_bytes())?;
            some = true;
        }
    }
    if text.is_empty() {
        text.push(b'-')?;
    }
    Ok(text)
}

// Adds an item, after a blank where there are items before it.
fn push_item(text: &mut Vec<u8>, some: bool, item: &[u8]) -> Result<(), NoMemory>
    ensures { OnOk result (text.new.items ≡ (if some then text.old.items ++ codes " " else text.old.items) ++ item.now) }
{
    if some {
        text.push(b' ')?;
    }
    text.extend_from_slice(item)?;
    Ok(())
}
