ghost use Rattle.std.specs.Prelude.{◌≡◌};
ghost use Rattle.inval_messages.specs.Messages.{same_message};

use base_types::{CacheId, Oid};

/// An invalidation message (`SharedInvalidationMessage` in `src/include/storage/sinval.h`).
#[derive(Clone, Copy)]
pub enum Message {
    /// For the entries of a catalog cache with this hash, and for all its lists
    /// (`SharedInvalCatcacheMsg`).
    Cat { cache: CacheId, hash: u32 },
    /// For the descriptor of a relation (`SharedInvalRelcacheMsg`).
    Rel { rel: Oid },
}

impl Message {
    /// Whether two messages are one.
    pub fn is_same(self, other: Message) -> bool
        ensures { result ≡ same_message self other }
    {
        match (self, other) {
            (
                Message::Cat { cache, hash },
                Message::Cat {
                    cache: other_cache,
                    hash: other_hash,
                },
            ) => cache.number() == other_cache.number() && hash == other_hash,
            (Message::Rel { rel }, Message::Rel { rel: other_rel }) => rel.0 == other_rel.0,
            _ => false,
        }
    }
}

impl Default for Message {
    /// The message that fills a place of a buffer which holds no message yet: for no relation's oid.
    fn default() -> Message
        ensures { result ≡ Message.Rel (record { 0 = 0 }) }
    {
        Message::Rel { rel: Oid(0) }
    }
}
