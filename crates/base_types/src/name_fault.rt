/// Why bytes are no name, word or text, in the order of the tests.
#[derive(Clone, Copy)]
pub enum NameFault {
    /// There are no bytes.
    Empty,
    /// There are more than 63 bytes.
    TooLong,
    /// A byte that is not allowed: the place of the first one, counted from 0.
    BadByte { at: u32 },
}
