ghost use Rattle.std.specs.Prelude.{◌≡◌, ◌≤◌, ◌<◌, ◌++◌, ◌∷◌, [], length, codes};
ghost use Rattle.event_kinds.specs.Readers.{Gives, more_at, with_front};

use crate::cursor::Cursor;
use base_types::{ConKind, Name, Nums, Oid, Row, RowKey};

// Rows and their keys.
impl<'a> Cursor<'a> {
    ghost use Rattle.event_kinds.specs.Reading.{class_at, att_at, def_at, ind_at, check_con_at, foreign_con_at, what_at, con_at, trg_at, row_at, key_at, number_at, name_at, digits_at, signed_at, fill_at, nums_at, then_comma, then_paren};

    // A row.
    #[tactic(auto, unfolding(crate::specs::Reading::row_at))]
    pub(crate) fn row(&mut self) -> Option<Row>
        ensures { Gives result self.new (row_at self.old) }
    {
        if self.eat(b"class(").is_some() {
            return self.class_row();
        }
        if self.eat(b"att(").is_some() {
            return self.att_row();
        }
        if self.eat(b"def(").is_some() {
            return self.def_row();
        }
        if self.eat(b"ind(").is_some() {
            return self.ind_row();
        }
        if self.eat(b"con(").is_some() {
            return self.con_row();
        }
        if self.eat(b"trg(").is_some() {
            return self.trg_row();
        }
        None
    }

    #[tactic(auto, unfolding(crate::specs::Reading::class_at))]
    fn class_row(&mut self) -> Option<Row>
        ensures { Gives result self.new (class_at self.old) }
    {
        let Some(oid) = self.next_number() else {
            return None;
        };
        let Some(name) = self.next_name() else {
            return None;
        };
        let Some(kind) = self.kind() else {
            return None;
        };
        if self.eat(b",").is_none() {
            return None;
        }
        let Some(fill) = self.fill() else {
            return None;
        };
        if self.eat(b")").is_none() {
            return None;
        }
        Some(Row::Class {
            oid: Oid(oid),
            name,
            kind,
            fill,
        })
    }

    #[tactic(auto, unfolding(crate::specs::Reading::att_at))]
    fn att_row(&mut self) -> Option<Row>
        ensures { Gives result self.new (att_at self.old) }
    {
        let Some(rel) = self.next_number() else {
            return None;
        };
        let Some(num) = self.next_number() else {
            return None;
        };
        let Some(name) = self.next_name() else {
            return None;
        };
        let Some(col_type) = self.col_type() else {
            return None;
        };
        if self.eat(b",").is_none() {
            return None;
        }
        let Some(stat) = self.signed() else {
            return None;
        };
        if self.eat(b",").is_none() {
            return None;
        }
        let Some(live) = self.live() else {
            return None;
        };
        if self.eat(b")").is_none() {
            return None;
        }
        Some(Row::Att {
            rel: Oid(rel),
            num,
            name,
            col_type,
            stat,
            live,
        })
    }

    #[tactic(auto, unfolding(crate::specs::Reading::def_at))]
    fn def_row(&mut self) -> Option<Row>
        ensures { Gives result self.new (def_at self.old) }
    {
        let Some(oid) = self.next_number() else {
            return None;
        };
        let Some(rel) = self.next_number() else {
            return None;
        };
        let Some(num) = self.next_number() else {
            return None;
        };
        let Some(word) = self.word() else {
            return None;
        };
        if self.eat(b")").is_none() {
            return None;
        }
        Some(Row::Def {
            oid: Oid(oid),
            rel: Oid(rel),
            num,
            word,
        })
    }

    #[tactic(auto, unfolding(crate::specs::Reading::ind_at))]
    fn ind_row(&mut self) -> Option<Row>
        ensures { Gives result self.new (ind_at self.old) }
    {
        let Some(index) = self.next_number() else {
            return None;
        };
        let Some(table) = self.next_number() else {
            return None;
        };
        let Some(state) = self.state() else {
            return None;
        };
        if self.eat(b",").is_none() {
            return None;
        }
        let Some(nums) = self.nums() else {
            return None;
        };
        if self.eat(b")").is_none() {
            return None;
        }
        Some(Row::Ind {
            index: Oid(index),
            table: Oid(table),
            state,
            nums,
        })
    }

    #[tactic(auto, unfolding(crate::specs::Reading::con_at))]
    fn con_row(&mut self) -> Option<Row>
        ensures { Gives result self.new (con_at self.old) }
    {
        let Some(oid) = self.next_number() else {
            return None;
        };
        let Some(rel) = self.next_number() else {
            return None;
        };
        let Some(name) = self.next_name() else {
            return None;
        };
        let Some((valid, what)) = self.what() else {
            return None;
        };
        if self.eat(b")").is_none() {
            return None;
        }
        Some(Row::Con {
            oid: Oid(oid),
            rel: Oid(rel),
            name,
            valid,
            what,
        })
    }

    #[tactic(auto, unfolding(crate::specs::Reading::trg_at))]
    fn trg_row(&mut self) -> Option<Row>
        ensures { Gives result self.new (trg_at self.old) }
    {
        let Some(oid) = self.next_number() else {
            return None;
        };
        let Some(rel) = self.next_number() else {
            return None;
        };
        let Some(name) = self.next_name() else {
            return None;
        };
        let Some(on) = self.on() else {
            return None;
        };
        if self.eat(b")").is_none() {
            return None;
        }
        Some(Row::Trg {
            oid: Oid(oid),
            rel: Oid(rel),
            name,
            on,
        })
    }

    // Whether a constraint is known to hold, and what it demands.
    #[tactic(auto, unfolding(crate::specs::Reading::what_at))]
    fn what(&mut self) -> Option<(bool, ConKind)>
        ensures { Gives result self.new (what_at self.old) }
    {
        if self.eat(b"c,").is_some() {
            return self.check_what();
        }
        if self.eat(b"f,").is_some() {
            return self.foreign_what();
        }
        None
    }

    #[tactic(auto, unfolding(crate::specs::Reading::check_con_at))]
    fn check_what(&mut self) -> Option<(bool, ConKind)>
        ensures { Gives result self.new (check_con_at self.old) }
    {
        let Some(valid) = self.valid() else {
            return None;
        };
        if self.eat(b",").is_none() {
            return None;
        }
        let Some(text) = self.text() else {
            return None;
        };
        Some((valid, ConKind::Check(text)))
    }

    #[tactic(auto, unfolding(crate::specs::Reading::foreign_con_at))]
    fn foreign_what(&mut self) -> Option<(bool, ConKind)>
        ensures { Gives result self.new (foreign_con_at self.old) }
    {
        let Some(valid) = self.valid() else {
            return None;
        };
        if self.eat(b",").is_none() {
            return None;
        }
        let Some(num) = self.next_number() else {
            return None;
        };
        let Some(refrel) = self.next_number() else {
            return None;
        };
        let Some(refnum) = self.number() else {
            return None;
        };
        Some((
            valid,
            ConKind::Foreign {
                num,
                refrel: Oid(refrel),
                refnum,
            },
        ))
    }

    // A number that may be below 0.
    #[tactic(auto, unfolding(crate::specs::Reading::signed_at))]
    fn signed(&mut self) -> Option<i32>
        ensures { Gives result self.new (signed_at self.old) }
    {
        if self.eat(b"-").is_some() {
            let size = self.number()?;
            if size == 0 {
                return None;
            }
            return i32::try_from(-i64::from(size)).ok();
        }
        let number = self.number()?;
        i32::try_from(number).ok()
    }

    // A fillfactor, or a dash.
    #[tactic(auto, unfolding(crate::specs::Reading::fill_at))]
    fn fill(&mut self) -> Option<Option<u32>>
        ensures { Gives result self.new (fill_at self.old) }
    {
        if self.eat(b"-").is_some() {
            return Some(None);
        }
        let number = self.number()?;
        Some(Some(number))
    }

    // Column numbers with a `+` between them.
    #[tactic(auto, using(crate::proofs::Loops::first_with), unfolding(crate::specs::Reading::nums_at))]
    fn nums(&mut self) -> Option<Nums>
        ensures { Gives result self.new (nums_at self.old) }
    {
        let first = self.digits()?;
        self.more_nums(first)
    }

    // The column numbers that begin with one that was read.
    fn more_nums(&mut self, first: u32) -> Option<Nums>
        ensures { Gives result self.new (with_front (first ∷ []) (more_at (codes "+") digits_at 31 self.old)) }
    {
        let mut nums = one_num(first);
        'turns: for _turn in 0..31u32 {
            if self.eat(b"+").is_none() {
                return Some(nums);
            }
            let num = self.digits()?;
            nums = with_num(&nums, num);
        }
        Some(nums)
    }

    // A number and a comma.
    fn next_number(&mut self) -> Option<u32>
        ensures { Gives result self.new (then_comma number_at self.old) }
    {
        let number = self.number()?;
        self.eat(b",")?;
        Some(number)
    }

    // A name and a comma.
    fn next_name(&mut self) -> Option<Name>
        ensures { Gives result self.new (then_comma name_at self.old) }
    {
        let name = self.name()?;
        self.eat(b",")?;
        Some(name)
    }

    // A number and a parenthesis.
    fn last_number(&mut self) -> Option<u32>
        ensures { Gives result self.new (then_paren number_at self.old) }
    {
        let number = self.number()?;
        self.eat(b")")?;
        Some(number)
    }

    // A row's key.
    #[tactic(auto, unfolding(crate::specs::Reading::key_at))]
    pub(crate) fn key(&mut self) -> Option<RowKey>
        ensures { Gives result self.new (key_at self.old) }
    {
        if self.eat(b"class(").is_some() {
            let Some(oid) = self.last_number() else {
                return None;
            };
            return Some(RowKey::Class(Oid(oid)));
        }
        if self.eat(b"att(").is_some() {
            let rel = Oid(self.next_number()?);
            return Some(RowKey::Att(rel, self.last_number()?));
        }
        if self.eat(b"def(").is_some() {
            let Some(oid) = self.last_number() else {
                return None;
            };
            return Some(RowKey::Def(Oid(oid)));
        }
        if self.eat(b"ind(").is_some() {
            let Some(oid) = self.last_number() else {
                return None;
            };
            return Some(RowKey::Ind(Oid(oid)));
        }
        if self.eat(b"con(").is_some() {
            let Some(oid) = self.last_number() else {
                return None;
            };
            return Some(RowKey::Con(Oid(oid)));
        }
        if self.eat(b"trg(").is_some() {
            let Some(oid) = self.last_number() else {
                return None;
            };
            return Some(RowKey::Trg(Oid(oid)));
        }
        None
    }
}

// One column number.
fn one_num(num: u32) -> Nums
    ensures { result ≡ num ∷ [] }
{
    Nums::new(&[num])
}

// One column number more. Condition: at most 31 so far.
fn with_num(nums: &Nums, num: u32) -> Nums
    requires { length nums.now ≤ 31 }
    ensures { result ≡ nums.now ++ num ∷ [] }
{
    let mut all = [0; 32];
    let len = nums.as_slice().len();
    all[..len].copy_from_slice(nums.as_slice());
    all[len] = num;
    Nums::new(&all[..len + 1])
}
