/// Whether an index serves queries (`indisvalid`), written `v`, or doesn't, written `n`.
#[derive(Clone, Copy)]
pub enum IndexState {
    Neither,
    Valid,
}

impl IndexState {
    ghost use Rattle.std.specs.Prelude.{◌≡◌, ◌≤◌, length};
    ghost use Rattle.base_types.specs.Words.{state_word};

    /// The letter of the state.
    pub fn word(self) -> &'static [u8]
        ensures text { result.now ≡ state_word self }
        ensures short { length result.now ≤ 1 }
    {
        match self {
            IndexState::Neither => b"n",
            IndexState::Valid => b"v",
        }
    }
}
