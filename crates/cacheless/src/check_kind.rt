/// Which word writes such an output.
#[derive(Clone, Copy, Debug)]
pub enum CheckKind {
    /// `walk`: the backends' entries come by the script's schedule.
    Walk,
    /// `run`: the entries come in any order, each backend's to its stop.
    Run,
}
