//! Rows of declarations, each made at the first need.
ghost use Rattle.std.specs.Prelude.{◌≡◌, ℕ, IfOk, IfSome};

use crate::walks::Walks;
use aidl_base::OutOfMemory;
use indexmap::IndexMap;
use std::alloc::Global;
use std::marker::Model;
use std::rc::Rc;

/// What makes the row of a declaration out of its number.
pub trait RowMaker: Sized {
    type Row: Drop;

    ghost is_row: { Self → ℕ → Self.Row → Type 0 };

    /// The row of a declaration.
    fn make_row(&self, alloc: Global, decl: u32) -> Result<Self::Row, OutOfMemory>
        ensures { IfOk result (λ row. is_row self.now decl row) };
}

// The row of one declaration.
#[derive(Drop)]
struct LastRow<R: Drop> {
    decl: u32,
    row: Rc<R>,
}

/// Rows of declarations, each made when it is asked for first, and the one that was asked for last. Contracts see what makes them.
pub struct DeclRows<M: RowMaker + Drop> {
    maker: M,
    walks: Walks,
    rows: IndexMap<u32, Rc<M::Row>>,
    last: Option<LastRow<M::Row>>,
}

// By hand, so that one who drops them meets one call.
impl<M: RowMaker + Drop> Drop for DeclRows<M> {
    fn drop(self) {
        let DeclRows {
            maker: _,
            walks: _,
            rows: _,
            last: _,
        } = self;
    }
}

impl<M: RowMaker + Drop> Model for DeclRows<M> {
    ghost use Rattle.std.specs.Prelude.{ℕ, nat_eq, IfSome};
    ghost use Rattle.indexmap.specs.IndexMap.{get};

    ghost Value = { M };

    ghost coded = { M.code };

    ghost view = { λ rows. rows.maker };

    ghost invariant = { λ rows. record {
      each : (decl : ℕ) → IfSome (get nat_eq rows.rows decl)
          (λ row. M.is_row rows.maker decl row.value);
      last : IfSome rows.last (λ it. M.is_row rows.maker it.decl it.row.value);
    } };
}

impl<M: RowMaker + Drop> DeclRows<M> {
    /// Without a row.
    pub fn new(alloc: Global, maker: M) -> DeclRows<M>
        ensures { result ≡ maker }
    {
        DeclRows {
            maker,
            walks: Walks::new(alloc),
            rows: IndexMap::new(alloc),
            last: None,
        }
    }

    /// The row of a declaration. That of the last one is at hand: what is of one declaration often follows each other.
    pub fn row(&mut self, alloc: Global, decl: u32) -> Result<Rc<M::Row>, OutOfMemory>
        ensures same { self.new ≡ self.old }
        ensures row { IfOk result (λ row. M.is_row self.old decl row.value) }
    {
        match &self.last {
            Some(last) if last.decl == decl => Ok(last.row.clone()?),
            _ => self.kept_row(alloc, decl),
        }
    }

    /// The same; None the first times, in which the members of the declaration are to be gone through one by one.
    pub fn row_after_walks(
        &mut self,
        alloc: Global,
        decl: u32,
    ) -> Result<Option<Rc<M::Row>>, OutOfMemory>
        ensures same { self.new ≡ self.old }
        ensures row { IfOk result (λ o. IfSome o (λ row. M.is_row self.old decl row.value)) }
    {
        if !self.is_last(decl) && self.walks.is_walk(decl)? {
            return Ok(None);
        }
        Ok(Some(self.row(alloc, decl)?))
    }

    // Whether the row of a declaration is at hand. It is an advice, and no clause binds it.
    fn is_last(&self, decl: u32) -> bool {
        match &self.last {
            Some(last) => last.decl == decl,
            None => false,
        }
    }

    // The row of a declaration, which is at hand from now on.
    fn kept_row(&mut self, alloc: Global, decl: u32) -> Result<Rc<M::Row>, OutOfMemory>
        ensures same { self.new ≡ self.old }
        ensures row { IfOk result (λ row. M.is_row self.old decl row.value) }
    {
        let row = match self.rows.get(&decl) {
            Some(row) => row.clone()?,
            None => self.new_row(alloc, decl)?,
        };
        let last = row.clone()?;
        self.last = Some(LastRow { decl, row: last });
        Ok(row)
    }

    // Makes the row of a declaration and keeps it.
    fn new_row(&mut self, alloc: Global, decl: u32) -> Result<Rc<M::Row>, OutOfMemory>
        ensures same { self.new ≡ self.old }
        ensures row { IfOk result (λ row. M.is_row self.old decl row.value) }
    {
        let made = Rc::new(alloc, self.maker.make_row(alloc, decl)?)?;
        let row = made.clone()?;
        self.rows.insert(decl, made)?;
        Ok(row)
    }
}
