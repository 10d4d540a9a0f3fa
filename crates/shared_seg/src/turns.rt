use crate::shared::Shared;
use event_kinds::Entry;
use script_text::Script;
use seg_calls::Seg;
use turn_table::{Tells, Turned};

// What backends share goes from hand to hand by turns.
impl Turned for Shared {
    ghost use Rattle.history_model.specs.Log.{is_waiting};
    ghost use Rattle.history_model.proofs.Waiting.{waiting-other};
    ghost use Rattle.shared_seg.specs.Kept.{places_in};

    type Entry = Entry;

    type Fixed = Script;

    ghost fixed = { λ s. s.script };

    ghost history = { λ s. s.history };

    ghost owner = { λ e. e.backend };

    ghost waiting = { is_waiting };

    ghost room = { places_in };

    ghost stays = { waiting-other };
}

impl Tells for Shared {
    fn waits_for(&self, seat: u32) -> bool {
        self.waits(seat)
    }
}
