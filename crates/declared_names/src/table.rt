//! Where marks stand in a list.
ghost use Rattle.std.specs.Prelude.{◌≡◌, ◌<◌, ◌+◌, nat_eq, get_or, drop, length, IfOk};
ghost use Rattle.std.specs.List.{position_from};

use aidl_base::OutOfMemory;
use indexmap::IndexMap;
use std::alloc::Global;
use std::marker::Model;

/// Where marks stand in a list: the first place of each, and from each place the next with the same mark.
pub struct Table {
    marks: Vec<u64>,
    heads: IndexMap<u64, usize>,
    nexts: Vec<Option<usize>>,
}

impl Drop for Table {
    fn drop(self) {
        let Table {
            marks: _,
            heads: _,
            nexts: _,
        } = self;
    }
}

impl Model for Table {
    ghost use Rattle.std.specs.Prelude.{List, ℕ, nat_eq, length, ◌≡◌};
    ghost use Rattle.std.specs.List.{position_from};
    ghost use Rattle.indexmap.specs.IndexMap.{get};
    ghost use Rattle.declared_names.specs.Tables.{AreNexts};

    ghost Value = { List ℕ };

    ghost view = { λ table. table.marks.items };

    ghost invariant = { λ table. record {
      heads : (mark : ℕ) → get nat_eq table.heads mark
          ≡ position_from (nat_eq mark) 0 table.marks.items;
      count : length table.nexts.items ≡ length table.marks.items;
      nexts : AreNexts table.marks.items table.nexts.items 0;
    } };
}

impl Table {
    /// The table of a list of marks.
    pub fn new(alloc: Global, marks: Vec<u64>) -> Result<Table, OutOfMemory>
        ensures { IfOk result (λ table. table ≡ marks.items) }
    {
        let n = marks.len();
        let mut heads = IndexMap::new(alloc);
        let mut nexts = Vec::from_elem(alloc, None, n)?;
        for i in (0..n).rev() {
            let later = heads.insert(marks[i], i)?;
            nexts[i] = later;
        }
        Ok(Table {
            marks,
            heads,
            nexts,
        })
    }

    /// The mark at a place.
    pub fn mark(&self, place: usize) -> u64
        requires { place < length self.now }
        ensures { result ≡ get_or self.now place 0 }
    {
        self.marks[place]
    }

    /// The first place of a mark.
    pub fn first(&self, mark: u64) -> Option<usize>
        ensures { result ≡ position_from (nat_eq mark) 0 self.now }
    {
        self.heads.get(&mark).copied()
    }

    /// The next place with the mark that a place has.
    pub fn next(&self, place: usize) -> Option<usize>
        requires { place < length self.now }
        ensures { result ≡ position_from (nat_eq (get_or self.now place 0))
            (place + 1) (drop (place + 1) self.now) }
    {
        self.nexts[place]
    }
}
