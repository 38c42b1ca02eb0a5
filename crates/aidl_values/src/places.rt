//! Places of fields in ascending order.
ghost use Rattle.std.specs.Prelude.{◌≡◌, ◌<◌, List, [], ◌∷◌, ◌++◌, get_or, MatchOption, IfOk, OnOk, OnErr};
ghost use Rattle.std.specs.List.{All, range_with_len};
ghost use Rattle.aidl_values.specs.Data.{Data};
ghost use Rattle.aidl_values.specs.Given.{given_at};

use aidl_base::OutOfMemory;
use std::alloc::Global;
use std::marker::Model;

/// Places of fields in ascending order, which contracts see as a list of numbers. Each place takes four bytes.
pub struct Places {
    row: Vec<u32>,
}

impl Drop for Places {
    fn drop(self) {
        let Places { row: _ } = self;
    }
}

impl Model for Places {
    ghost use Rattle.std.specs.Prelude.{ℕ, List};
    ghost use Rattle.aidl_values.specs.Given.{ArePlaces};

    ghost Value = { List ℕ };

    ghost view = { λ it. it.row.items };

    ghost invariant = { λ it. ArePlaces it.row.items };
}

impl Places {
    /// No places.
    pub fn new(alloc: Global) -> Places
        ensures { result ≡ [] }
    {
        Places {
            row: Vec::new(alloc),
        }
    }

    /// Adds a place that is greater than those before it. On a refusal the places are as they were.
    pub fn push(&mut self, place: u32) -> Result<(), OutOfMemory>
        requires { All (λ p. p < place) self.old }
        ensures ok { OnOk result (self.new ≡ self.old ++ place ∷ []) }
        ensures err { OnErr result (self.new ≡ self.old) }
    {
        self.row.push(place)?;
        Ok(())
    }

    /// So many places from the first one on.
    pub fn first(alloc: Global, count: usize) -> Result<Places, OutOfMemory>
        ensures { IfOk result (λ ps. ps ≡ range_with_len 0 count) }
    {
        let mut places = Places::new(alloc);
        for i in 0..count {
            // Memory ends long before places of 32 bits do.
            let Ok(place) = u32::try_from(i) else {
                return Err(OutOfMemory);
            };
            places.push(place)?;
        }
        Ok(places)
    }

    // Where the value of a place stands among those that were given, if it was.
    pub(crate) fn find(&self, place: usize) -> Option<usize>
        ensures { MatchOption result
            ((vs : List Data) (other : Data) → given_at self.now vs place other ≡ other)
            (λ k. (vs : List Data) (other : Data) → given_at self.now vs place other ≡ get_or vs k other) }
    {
        let row = self.row.as_slice();
        let Ok(narrow) = u32::try_from(place) else {
            return None;
        };
        match row.binary_search(&narrow) {
            Ok(k) => Some(k),
            Err(_) => None,
        }
    }

    // The same places.
    pub(crate) fn try_clone(&self, alloc: Global) -> Result<Places, OutOfMemory>
        ensures { IfOk result (λ ps. ps ≡ self.now) }
    {
        Ok(Places {
            row: self.row.as_slice().to_vec(alloc)?,
        })
    }
}
