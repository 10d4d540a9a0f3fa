/// Where a backend was halted.
#[derive(Clone, Copy)]
pub(crate) struct HaltedAt {
    /// The number of the backend, from 1.
    pub(crate) backend: u32,
    /// How many of its commands it has finished, which are all that it makes.
    pub(crate) commands: usize,
}
