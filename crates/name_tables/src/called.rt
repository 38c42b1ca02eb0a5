//! What has a name.
ghost use Rattle.std.specs.Prelude.{◌≡◌};
ghost use Rattle.aidl_base.specs.declared.name.Ident.{Ident};

use aidl_base::Ident;
use aidl_schema::{Constant, Enumerator, Field, Method};

/// What has a name: an enumerator, a field, a method or a constant.
pub trait Called {
    ghost called: { Self → Ident };

    /// Its name.
    fn name(&self) -> &Ident
        ensures { result.now ≡ called self.now };
}

impl Called for Enumerator {
    ghost called = { λ enumerator. enumerator.name };

    fn name(&self) -> &Ident {
        &self.name
    }
}

impl Called for Field {
    ghost called = { λ field. field.name };

    fn name(&self) -> &Ident {
        &self.name
    }
}

impl Called for Method {
    ghost called = { λ method. method.name };

    fn name(&self) -> &Ident {
        &self.name
    }
}

impl Called for Constant {
    ghost called = { λ constant. constant.name };

    fn name(&self) -> &Ident {
        &self.name
    }
}
