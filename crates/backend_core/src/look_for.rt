/// Before what a backend looks whether messages wait.
#[derive(Clone, Copy)]
pub enum LookFor {
    /// Its transaction's start, or what comes after a grant or a fetch of the most messages.
    Accept,
    /// A scan: one of the rebuild on top, or one of the next act.
    Scan { rebuilds: bool },
    /// The answer that there is no relation of a name.
    Absent,
}
