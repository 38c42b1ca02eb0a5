//! What the judge compares: pairs of declarations.
ghost use Rattle.std.specs.Prelude.{◌≡◌};
ghost use Rattle.aidl_schema.specs.Broken.{whole};

use aidl_base::Text;
use aidl_schema::{Decl, Schema};

/// A declaration of old and that of its name in new, with the schemas that they stand in. `name` is their canonical name.
#[derive(Clone, Copy)]
pub struct Pair<'a> {
    pub old: &'a Schema,
    pub before: &'a Decl,
    pub new: &'a Schema,
    pub after: &'a Decl,
    pub name: &'a Text,
    pub ghost named: { name.now ≡ whole before.now },
}
