use base_types::Oid;
use pin_pool::Ref;

// A descriptor, and whose it is.
#[derive(Drop)]
pub(crate) struct Kept<D> {
    pub(crate) rel: Oid,
    pub(crate) value: D,
}

// Where a relation's descriptor is, and whether nothing has made it out of date.
#[derive(Clone, Copy)]
pub(crate) struct Place {
    pub(crate) at: Ref,
    pub(crate) valid: bool,
}
