ghost use Rattle.std.specs.Prelude.{◌≡◌, None, Some, true};
ghost use Rattle.std.specs.Option.{MatchOption};
ghost use Rattle.shared_seg.specs.Naming.{NameFree, NamesFree, IsTakenBy, IsTaken};

use base_types::{Name, Xid};
use event_kinds::Item;
use row_visibility::Clash;
use segment_rows::SegmentRows;

// A new name that is taken.
#[derive(Clone, Copy)]
pub(crate) struct Taken {
    pub name: Name,
    pub clash: Clash,
}

// The first new name of these changes that is taken, if there is one.
pub(crate) fn first_taken(rows: &SegmentRows, own: Option<Xid>, items: &[Item]) -> Option<Taken>
    ensures { MatchOption result (NamesFree rows.now.store own items.now) (IsTaken rows.now.store own items.now) }
{
    for item in items {
        if let Some(taken) = taken_by(rows, own, item) {
            return Some(taken);
        }
    }
    None
}

// The new name of a change, if it has one that is taken.
fn taken_by(rows: &SegmentRows, own: Option<Xid>, item: &Item) -> Option<Taken>
    ensures { MatchOption result (NameFree rows.now.store own item.now) (IsTakenBy rows.now.store own item.now) }
{
    let name = rows.new_name(own, item)?;
    let clash = rows.name_clash(own, &name)?;
    Some(Taken { name, clash })
}
