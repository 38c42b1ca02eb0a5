//! How the parts of a dotted name are kept: what `one` makes in place, else in a row.
ghost use Rattle.std.specs.Prelude.{◌≡◌, [], ◌∷◌};

use crate::name::Ident;
use crate::row::Row;
use std::marker::Model;
use std::{fmt, slice};

/// The parts of a name, which contracts see as their list. What `one` makes takes no memory for the list.
pub struct Parts {
    kept: KeptParts,
}

/// Where the parts of a name are kept.
#[derive(Drop)]
pub enum KeptParts {
    One(Ident),
    Many(Row<Ident>),
}

impl Model for Parts {
    ghost use Rattle.std.specs.Prelude.{List};
    ghost use Rattle.aidl_base.specs.declared.name.Ident.{Ident};
    ghost use Rattle.aidl_base.specs.KeptParts.{kept_parts};

    ghost Value = { List Ident };

    ghost view = { λ it. kept_parts it.kept };
}

// By hand, so that one who drops a name meets one call and not both ways to keep it.
impl Drop for Parts {
    fn drop(self) {
        let Parts { kept: _ } = self;
    }
}

impl Parts {
    /// The one part of a name.
    pub fn one(part: Ident) -> Parts
        ensures { result ≡ part ∷ [] }
    {
        Parts {
            kept: KeptParts::One(part),
        }
    }

    /// The parts of a row.
    pub fn from_row(parts: Row<Ident>) -> Parts
        ensures { result ≡ parts }
    {
        Parts {
            kept: KeptParts::Many(parts),
        }
    }

    /// The parts as a slice.
    pub fn as_slice(&self) -> &[Ident]
        ensures { result.now ≡ self.now }
    {
        match &self.kept {
            KeptParts::One(part) => slice::from_ref(part),
            KeptParts::Many(parts) => parts.as_slice(),
        }
    }
}

impl fmt::Debug for Parts {
    fn fmt<W: fmt::Write>(&self, f: &mut fmt::Formatter<W>) -> fmt::Result {
        fmt::Debug::fmt(&self.as_slice(), f)
    }
}
