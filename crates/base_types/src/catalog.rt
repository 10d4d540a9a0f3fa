/// The catalogs whose rows are kept.
#[derive(Clone, Copy)]
pub enum Catalog {
    Class,
    Attribute,
    AttrDef,
    Index,
    Constraint,
    Trigger,
}
