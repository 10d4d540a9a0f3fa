/// The most backends of a script.
pub const MOST_BACKENDS: u32 = 64;

/// The most commands of a script.
pub const MOST_COMMANDS: usize = 20_000;

/// The most steps of a script.
pub const MOST_STEPS: u32 = 1_000_000;

/// The number of messages that the queue holds without a `ring` line, and at most.
pub const QUEUE_SIZE: u32 = 4096;

/// The number of a queue's first message is below so many times its size.
pub const QUEUE_ROUNDS: u64 = 262_144;
