// The fields of the relations that a backend has open, as it has them at hand.

ghost use Rattle.std.specs.Prelude.{◌≡◌, List, not, IfSome};
ghost use Rattle.std.specs.Option.{option_copied};
ghost use Rattle.base_types.specs.Scenario.{Scenario};
ghost use Rattle.event_kinds.specs.declared.entry.Entry.{Entry};
ghost use Rattle.cacheless.specs.Session.{opening_of};
ghost use Rattle.cacheless.specs.State.{kept_at, is_kept};

use crate::Backend;
use base_types::{Field, Name, has_field};
use ddl_effect::{OpenRelation, latest_open};
use event_kinds::LineText;

impl Backend {
    ghost use Rattle.history_model.specs.Legal.{IsLegal};
    ghost use Rattle.cacheless.specs.Plays.{Plays};
    ghost use Rattle.cacheless.specs.Suspects.{lacks};
    ghost use Rattle.backend_core.specs.Agrees.{AreSpelled, Stands};
    ghost use Rattle.backend_core.specs.Fields.{field_now, field_kept, IsFreshNow};

    /// The text of a field of the latest relation that is open under a name, as its descriptor has it
    /// (`RelationGetDescr` and its like in `src/include/utils/rel.h`). It is the field's text in the whole
    /// history where the backend's clear locks protect the field; conditions: it stands in that history, which
    /// is legal and was played by the script's commands, and these have forms that lines may have. `None`:
    /// exactly where no relation is open under the name, its kind lacks the field, or a scan of its
    /// descriptor isn't kept. It takes no memory.
    pub fn field(&self, name: &Name, field: Field) -> Option<&LineText>
        ensures value { option_copied result ≡ field_now self.now name.now field }
        ensures fresh { (scenario : Scenario) (seen : List Entry) → Stands scenario seen self.now → AreSpelled scenario → IsLegal seen → Plays scenario seen → IfSome (option_copied result) (IsFreshNow scenario seen self.now name.now field) }
    {
        match latest_open(name, self.progress.opens.as_slice()) {
            Some(o) => self.field_of(&o, field),
            None => None,
        }
    }

    // That of a relation that is open.
    fn field_of(&self, o: &OpenRelation, field: Field) -> Option<&LineText>
        ensures { option_copied result ≡ field_kept (kept_at self.now.progress) field o.now }
    {
        if has_field(o.kind, field) && self.has_whole(o) {
            self.progress.caches.value(o.rel, field)
        } else {
            None
        }
    }

    // Whether its descriptor lacks no scan.
    fn has_whole(&self, o: &OpenRelation) -> bool
        ensures { result ≡ not (lacks (is_kept (kept_at self.now.progress)) (opening_of o.now)) }
    {
        self.progress.caches.first_missing(o.kind, o.rel).is_none()
    }
}
