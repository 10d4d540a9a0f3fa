ghost use Rattle.std.specs.Prelude.{◌≡◌, ◌<◌, ◌+◌, None, length, MatchOption};
ghost use Rattle.std.specs.Option.{option_copied};
ghost use Rattle.catalog_rows.specs.Slots.{version_numbered, version_for};

use row_visibility::Version;

// Where the version of this number is kept, if there is a slot for it: the first one has the number 1.
pub(crate) fn slot_of(slots: &[Option<Version>], number: u64) -> Option<usize>
    ensures { MatchOption result (version_numbered slots.now number ≡ None) (λ at. (number ≡ at + 1) × (at < length slots.now)) }
{
    let before = number.checked_sub(1)?;
    if before < slots.len() as u64 {
        Some(before as usize)
    } else {
        None
    }
}

// The version of this number, if it is there.
pub(crate) fn version_at(slots: &[Option<Version>], number: u64) -> Option<&Version>
    ensures { option_copied result ≡ version_numbered slots.now number }
{
    let at = slot_of(slots, number)?;
    slots[at].as_ref()
}

// A copy of the version with this number, if there is a number and it has a version.
pub(crate) fn copy_at(slots: &[Option<Version>], number: Option<u64>) -> Option<Version>
    ensures { result ≡ version_for slots.now number }
{
    match number {
        Some(number) => version_at(slots, number).copied(),
        None => None,
    }
}
