// What a command asks of the relations that its session has open.

ghost use Rattle.std.specs.Prelude.{◌≡◌, ◌<◌, IfSome, length};
ghost use Rattle.ddl_effect.specs.Opens.{place_latest, latest_open as the_latest, without_latest as all_others, has_open as is_open};

use crate::OpenRelation;
use base_types::{Listed, Name, Oid};

// The place of the latest that was opened under a name.
fn latest_place(name: &Name, opens: &[OpenRelation]) -> Option<usize>
    ensures place { result ≡ place_latest name.now opens.now }
    ensures within { IfSome result (λ at. at < length opens.now) }
{
    let mut place = None;
    for (at, o) in opens.iter().enumerate() {
        if name.as_bytes() == o.name.as_bytes() {
            place = Some(at);
        }
    }
    place
}

/// The latest that was opened under a name. `None`: exactly where none was.
pub fn latest_open(name: &Name, opens: &[OpenRelation]) -> Option<OpenRelation>
    ensures { result ≡ the_latest name.now opens.now }
{
    match latest_place(name, opens) {
        Some(at) => Some(opens[at]),
        None => None,
    }
}

/// All of these but the latest that was opened under a name, if one was.
pub fn without_latest(name: &Name, opens: Listed<OpenRelation>) -> Listed<OpenRelation>
    ensures { result ≡ all_others name.now opens }
{
    let place = latest_place(name, opens.as_slice());
    let mut left = opens.into_vec();
    if let Some(at) = place {
        left.remove(at);
    }
    Listed::from_vec(left)
}

// Whether a relation is one of these.
pub(crate) fn has_open(rel: Oid, opens: &[OpenRelation]) -> bool
    ensures { result ≡ is_open rel opens.now }
{
    opens.iter().any(|o| o.rel.0 == rel.0)
}
