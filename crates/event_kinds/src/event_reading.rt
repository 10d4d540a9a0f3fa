ghost use Rattle.event_kinds.specs.Readers.{Gives};

use crate::cursor::Cursor;
use crate::{Event, Item};
use base_types::{Mode, Oid, Purpose, Xid};

// Changes, scans, and all events but a write.
impl<'a> Cursor<'a> {
    ghost use Rattle.event_kinds.specs.Reading.{item_at, number_event_at, purpose_at, relation_scan_at, object_scan_at, constraint_scan_at, short_event_at, fetch_at, holder_at, lock_event_at, unlock_event_at, scan_event_at, owner_at, clash_event_at};

    // A change of a write.
    #[tactic(auto, unfolding(crate::specs::Reading::item_at))]
    pub(crate) fn item(&mut self) -> Option<Item>
        ensures { Gives result self.new (item_at self.old) }
    {
        if self.eat(b"+").is_some() {
            let Some(row) = self.row() else {
                return None;
            };
            return Some(Item::Add(row));
        }
        if self.eat(b"=").is_some() {
            let Some(row) = self.row() else {
                return None;
            };
            return Some(Item::Put(row));
        }
        if self.eat(b"-").is_some() {
            let Some(key) = self.key() else {
                return None;
            };
            return Some(Item::Remove(key));
        }
        if self.eat(b"!").is_some() {
            let Some(rel) = self.number() else {
                return None;
            };
            return Some(Item::Force(Oid(rel)));
        }
        None
    }

    // A scan.
    #[tactic(auto, unfolding(crate::specs::Reading::purpose_at))]
    fn purpose(&mut self) -> Option<Purpose>
        ensures { Gives result self.new (purpose_at self.old) }
    {
        if self.eat(b"relname ").is_some() {
            return Some(Purpose::RelName(self.name()?));
        }
        if self.eat(b"reloid ").is_some() {
            return Some(Purpose::RelOid(Oid(self.number()?)));
        }
        if self.eat(b"attname ").is_some() {
            let rel = Oid(self.number()?);
            self.eat(b" ")?;
            return Some(Purpose::AttName(rel, self.name()?));
        }
        self.relation_scan()
    }

    // A scan of one relation's rows.
    #[tactic(auto, unfolding(crate::specs::Reading::relation_scan_at))]
    fn relation_scan(&mut self) -> Option<Purpose>
        ensures { Gives result self.new (relation_scan_at self.old) }
    {
        if self.eat(b"attlist ").is_some() {
            let Some(rel) = self.number() else {
                return None;
            };
            return Some(Purpose::AttList(Oid(rel)));
        }
        if self.eat(b"class ").is_some() {
            let Some(rel) = self.number() else {
                return None;
            };
            return Some(Purpose::Class(Oid(rel)));
        }
        if self.eat(b"attribute ").is_some() {
            let Some(rel) = self.number() else {
                return None;
            };
            return Some(Purpose::Attribute(Oid(rel)));
        }
        if self.eat(b"attrdef ").is_some() {
            let Some(rel) = self.number() else {
                return None;
            };
            return Some(Purpose::AttrDef(Oid(rel)));
        }
        self.object_scan()
    }

    // A scan of one table's indexes, triggers or constraints, or of an index's own row.
    #[tactic(auto, unfolding(crate::specs::Reading::object_scan_at))]
    fn object_scan(&mut self) -> Option<Purpose>
        ensures { Gives result self.new (object_scan_at self.old) }
    {
        if self.eat(b"index ").is_some() {
            let Some(rel) = self.number() else {
                return None;
            };
            return Some(Purpose::Index(Oid(rel)));
        }
        if self.eat(b"trigger ").is_some() {
            let Some(rel) = self.number() else {
                return None;
            };
            return Some(Purpose::Trigger(Oid(rel)));
        }
        if self.eat(b"indexrow ").is_some() {
            let Some(rel) = self.number() else {
                return None;
            };
            return Some(Purpose::IndexRow(Oid(rel)));
        }
        self.constraint_scan()
    }

    // A scan of one relation's constraints.
    #[tactic(auto, unfolding(crate::specs::Reading::constraint_scan_at))]
    fn constraint_scan(&mut self) -> Option<Purpose>
        ensures { Gives result self.new (constraint_scan_at self.old) }
    {
        self.eat(b"constraint ")?;
        Some(Purpose::Constraint(Oid(self.number()?)))
    }

    // Events whose texts are one word or a word and a number.
    #[tactic(auto, unfolding(crate::specs::Reading::short_event_at))]
    pub(crate) fn short_event(&mut self) -> Option<Event>
        ensures { Gives result self.new (short_event_at self.old) }
    {
        if self.eat(b"start").is_some() {
            return Some(Event::Start);
        }
        if self.eat(b"look yes").is_some() {
            return Some(Event::Look { yes: true });
        }
        if self.eat(b"look no").is_some() {
            return Some(Event::Look { yes: false });
        }
        if self.eat(b"fetch ").is_some() {
            return self.fetch();
        }
        self.number_event()
    }

    // Events whose texts are a word and a number, and those that end a backend.
    #[tactic(auto, unfolding(crate::specs::Reading::number_event_at))]
    fn number_event(&mut self) -> Option<Event>
        ensures { Gives result self.new (number_event_at self.old) }
    {
        if self.eat(b"visible ").is_some() {
            let Some(xid) = self.number() else {
                return None;
            };
            return Some(Event::Visible { xid: Xid(xid) });
        }
        if self.eat(b"publish ").is_some() {
            let Some(count) = self.number() else {
                return None;
            };
            return Some(Event::Publish { count });
        }
        if self.eat(b"release ").is_some() {
            let Some(from) = self.number() else {
                return None;
            };
            return Some(Event::Release { from });
        }
        if self.eat(b"gone ").is_some() {
            let Some(from) = self.number() else {
                return None;
            };
            return Some(Event::Gone { from });
        }
        if self.eat(b"fail").is_some() {
            return Some(Event::Fail);
        }
        if self.eat(b"stop").is_some() {
            return Some(Event::Stop);
        }
        None
    }

    // A fetch, after its word.
    #[tactic(auto, unfolding(crate::specs::Reading::fetch_at))]
    fn fetch(&mut self) -> Option<Event>
        ensures { Gives result self.new (fetch_at self.old) }
    {
        if self.eat(b"reset").is_some() {
            return Some(Event::FetchReset);
        }
        let count = self.number()?;
        Some(Event::Fetch { count })
    }

    // Whether a lock was granted, or who holds it.
    #[tactic(auto, unfolding(crate::specs::Reading::holder_at))]
    fn holder(&mut self) -> Option<Option<(u32, Mode)>>
        ensures { Gives result self.new (holder_at self.old) }
    {
        if self.eat(b"ok").is_some() {
            return Some(None);
        }
        if self.eat(b"held ").is_some() {
            let Some(holder) = self.number() else {
                return None;
            };
            if self.eat(b" ").is_none() {
                return None;
            }
            let Some(held) = self.mode() else {
                return None;
            };
            return Some(Some((holder, held)));
        }
        None
    }

    // A lock, after its word.
    #[tactic(auto, unfolding(crate::specs::Reading::lock_event_at))]
    pub(crate) fn lock_event(&mut self) -> Option<Event>
        ensures { Gives result self.new (lock_event_at self.old) }
    {
        let Some(rel) = self.number() else {
            return None;
        };
        if self.eat(b" ").is_none() {
            return None;
        }
        let Some(mode) = self.mode() else {
            return None;
        };
        if self.eat(b" ").is_none() {
            return None;
        }
        let rel = Oid(rel);
        match self.holder() {
            None => None,
            Some(None) => Some(Event::LockOk { rel, mode }),
            Some(Some((holder, held))) => Some(Event::LockHeld {
                rel,
                mode,
                holder,
                held,
            }),
        }
    }

    // An unlock, after its word.
    #[tactic(auto, unfolding(crate::specs::Reading::unlock_event_at))]
    pub(crate) fn unlock_event(&mut self) -> Option<Event>
        ensures { Gives result self.new (unlock_event_at self.old) }
    {
        let Some(rel) = self.number() else {
            return None;
        };
        if self.eat(b" ").is_none() {
            return None;
        }
        let Some(mode) = self.mode() else {
            return None;
        };
        Some(Event::Unlock {
            rel: Oid(rel),
            mode,
        })
    }

    // A scan, after its word.
    #[tactic(auto, unfolding(crate::specs::Reading::scan_event_at))]
    pub(crate) fn scan_event(&mut self) -> Option<Event>
        ensures { Gives result self.new (scan_event_at self.old) }
    {
        let Some(purpose) = self.purpose() else {
            return None;
        };
        if self.eat(b" rows ").is_none() {
            return None;
        }
        let Some(rows) = self.number() else {
            return None;
        };
        Some(Event::Scan { purpose, rows })
    }

    // What has a name that was refused: a row, or a running transaction.
    #[tactic(auto, unfolding(crate::specs::Reading::owner_at))]
    fn owner(&mut self) -> Option<(bool, u32)>
        ensures { Gives result self.new (owner_at self.old) }
    {
        if self.eat(b"row ").is_some() {
            let Some(number) = self.number() else {
                return None;
            };
            return Some((true, number));
        }
        if self.eat(b"running ").is_some() {
            let Some(number) = self.number() else {
                return None;
            };
            return Some((false, number));
        }
        None
    }

    // A clash, after its word.
    #[tactic(auto, unfolding(crate::specs::Reading::clash_event_at))]
    pub(crate) fn clash_event(&mut self) -> Option<Event>
        ensures { Gives result self.new (clash_event_at self.old) }
    {
        let Some(name) = self.name() else {
            return None;
        };
        if self.eat(b" ").is_none() {
            return None;
        }
        match self.owner() {
            None => None,
            Some((true, oid)) => Some(Event::ClashRow {
                name,
                rel: Oid(oid),
            }),
            Some((false, xid)) => Some(Event::ClashRunning {
                name,
                xid: Xid(xid),
            }),
        }
    }
}
