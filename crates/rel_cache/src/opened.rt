use pin_pool::Ref;

/// What the cache has of a relation that is opened.
#[derive(Clone, Copy)]
pub enum Opened {
    /// A descriptor that nothing has made out of date.
    Valid(Ref),
    /// A descriptor that is to be built anew before it is used.
    Invalid(Ref),
    /// None.
    Unknown,
}

/// What is to be done after a message.
#[derive(Clone, Copy)]
pub enum Need {
    Nothing,
    /// The descriptor is in use: it stays, and is to be built anew in its place.
    Rebuild(Ref),
}
