/// The number of a relation, constraint or other object of the catalogs.
#[derive(Clone, Copy)]
pub struct Oid(pub u32);

/// The number of a transaction that has written, from 1 in the order of first writes.
#[derive(Clone, Copy)]
pub struct Xid(pub u32);

/// The oid that the first new object gets (`FirstNormalObjectId` in `src/include/access/transam.h`).
pub const FIRST_OID: u32 = 16384;
