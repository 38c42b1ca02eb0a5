//! Values of constants and initializers, and their copies.
ghost use Rattle.std.specs.Prelude.{◌≡◌, IfOk};

use crate::OutOfMemory;
use crate::row::Row;
use crate::text::Text;
use std::alloc::Global;

/// The value of a constant or of an initializer. A character is the number of its code, an enumerator that of its
/// value, and a brace list the row of its members.
pub enum Const {
    Truth(bool),
    Number(i64),
    Text(Text),
    Members(Row<Const>),
}

impl Drop for Const {
    fn drop(self) {
        match self {
            Const::Truth(_) => {}
            Const::Number(_) => {}
            Const::Text(_) => {}
            Const::Members(_) => {}
        }
    }
}

impl Const {
    /// The same constant.
    pub fn try_clone(&self, alloc: Global) -> Result<Const, OutOfMemory>
        ensures { IfOk result (λ constant. constant ≡ self.now) }
    {
        copy(alloc, self)
    }
}

#[cycle(copy)]
fn copy(alloc: Global, constant: &Const) -> Result<Const, OutOfMemory>
    ensures { IfOk result (λ copied. copied ≡ constant.now) }
{
    match constant {
        Const::Truth(b) => Ok(Const::Truth(*b)),
        Const::Number(n) => Ok(Const::Number(*n)),
        Const::Text(text) => Ok(Const::Text(text.try_clone(alloc)?)),
        Const::Members(members) => Ok(Const::Members(copy_each(alloc, members.as_slice())?)),
    }
}

#[cycle(copy)]
fn copy_each(alloc: Global, constants: &[Const]) -> Result<Row<Const>, OutOfMemory>
    ensures { IfOk result (λ copies. copies ≡ constants.now) }
{
    let mut copies = Vec::with_capacity(alloc, constants.len())?;
    for constant in constants {
        copies.push(copy(alloc, constant)?)?;
    }
    Ok(Row::from_vec(copies))
}
