use crate::Frame;
use std::marker::Model;

// The rebuilds, the last one on top.
#[derive(Drop)]
pub(crate) struct Frames {
    pub(crate) items: Vec<Frame>,
}

impl Model for Frames {
    ghost use Rattle.std.specs.Prelude.{List};
    ghost use Rattle.backend_core.specs.declared.frame.Frame.{Frame};

    ghost Value = { List Frame };

    ghost view = { λ s. s.items.items };
}
