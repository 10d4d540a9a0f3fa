ghost use Rattle.std.specs.Prelude.{◌≡◌};
ghost use Rattle.base_types.specs.Scenario.{Scenario};

use crate::retold::Retold;
use script_text::Script;
use std::marker::{Model, PhantomData};

// The script that is played, which contracts alone see.
pub(crate) struct PlayedScript {
    marker: PhantomData<Script>,
    pub ghost scenario: { Scenario },
}

impl Model for PlayedScript {
    ghost use Rattle.std.specs.Borrow.{ftrue};

    ghost also_owns = { λ _. ftrue };
}

// It owns nothing, so it may go to another thread.
unsafe impl Send for PlayedScript {}

impl Drop for PlayedScript {
    fn drop(self) {
        let Self { marker: _ } = self;
    }
}

impl PlayedScript {
    // The script that was given.
    pub(crate) fn of(script: &Script) -> PlayedScript
        ensures { result.scenario ≡ script.now }
    {
        let _ = script;
        PlayedScript {
            marker: PhantomData,
        }
    }

    // Another one, made of the script that was played.
    pub(crate) fn retold<R: Retold>(was: &PlayedScript, by: &R) -> PlayedScript
        ensures { result.scenario ≡ R.retold by.now was.now.scenario }
    {
        let _ = was;
        let _ = by;
        PlayedScript {
            marker: PhantomData,
        }
    }
}
