/// The eight lock modes of a relation in rising order (`src/include/storage/lockdefs.h`).
#[derive(Clone, Copy)]
pub enum Mode {
    AccessShare,
    RowShare,
    RowExclusive,
    ShareUpdateExclusive,
    Share,
    ShareRowExclusive,
    Exclusive,
    AccessExclusive,
}

impl Mode {
    ghost use Rattle.std.specs.Prelude.{◌≡◌, ◌≤◌, length};
    ghost use Rattle.base_types.specs.Words.{mode_word};
    ghost use Rattle.base_types.specs.Modes.{mode_number};

    /// All modes, in rising order.
    pub const ALL: [Mode; 8] = [
        Mode::AccessShare,
        Mode::RowShare,
        Mode::RowExclusive,
        Mode::ShareUpdateExclusive,
        Mode::Share,
        Mode::ShareRowExclusive,
        Mode::Exclusive,
        Mode::AccessExclusive,
    ];

    /// The number by which the server counts the mode, 1 to 8.
    pub fn number(self) -> u32
        ensures { result ≡ mode_number self }
    {
        match self {
            Mode::AccessShare => 1,
            Mode::RowShare => 2,
            Mode::RowExclusive => 3,
            Mode::ShareUpdateExclusive => 4,
            Mode::Share => 5,
            Mode::ShareRowExclusive => 6,
            Mode::Exclusive => 7,
            Mode::AccessExclusive => 8,
        }
    }

    /// The mode's word of two letters.
    pub fn word(self) -> &'static [u8]
        ensures text { result.now ≡ mode_word self }
        ensures short { length result.now ≤ 2 }
    {
        match self {
            Mode::AccessShare => b"as",
            Mode::RowShare => b"rs",
            Mode::RowExclusive => b"rx",
            Mode::ShareUpdateExclusive => b"su",
            Mode::Share => b"sh",
            Mode::ShareRowExclusive => b"sr",
            Mode::Exclusive => b"ex",
            Mode::AccessExclusive => b"ax",
        }
    }
}
