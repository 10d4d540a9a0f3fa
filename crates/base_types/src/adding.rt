ghost use Rattle.std.specs.Prelude.{◌≡◌, OnOk, OnErr, take};
ghost use Rattle.base_types.specs.Adding.{Adds};

use crate::NoMemory;

/// Adds a text at the end of `out`. After an error `out` may have more bytes than before.
pub fn add_text(text: &[u8], out: &mut Vec<u8>) -> Result<(), NoMemory>
    ensures { Adds out.old.items out.new.items result text.now }
{
    out.extend_from_slice(text)?;
    Ok(())
}

/// The result of adding to `out`, which had `before` bytes until then: after an error it has those
/// bytes alone.
pub fn whole_or_nothing(
    out: &mut Vec<u8>,
    before: usize,
    added: Result<(), NoMemory>,
) -> Result<(), NoMemory>
    ensures same { result ≡ added }
    ensures ok { OnOk added (out.new.items ≡ out.old.items) }
    ensures err { OnErr added (out.new.items ≡ take before out.old.items) }
{
    if added.is_err() {
        out.truncate(before);
    }
    added
}
