ghost use Rattle.local_caches.specs.Texts.{AreTexts};

use base_types::{Listed, Purpose, Row};
use rel_desc::FieldValue;

// A scan for a descriptor: what it gave, the number of its entry in the history, from 1, and the texts of the
// fields that it reads.
#[derive(Drop)]
pub(crate) struct Part {
    pub(crate) scan: Purpose,
    pub(crate) rows: Listed<Row>,
    pub(crate) at: u64,
    pub(crate) texts: Listed<FieldValue>,
    // the texts are those of the rows
    ghost made: { AreTexts scan rows texts },
}
