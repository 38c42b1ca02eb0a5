//! That no method has one of the two codes.
ghost use Rattle.std.specs.Prelude.{◌≡◌, ◌+◌, ◌<◌, None};
ghost use Rattle.aidl_schema.specs.Find.{methods_at, position_of_code};
ghost use Rattle.aidl_schema.specs.Holds.{OfEach};
ghost use Rattle.wire_model.specs.MetaStub.{hash_code, version_code};

use aidl_schema::{Schema, law_valid};

/// E19 keeps the ids of methods below those of the two codes, so that the code of each method is below both, and neither is a method's.
pub fn law_codes_apart(schema: &Schema, interface: u32)
    ensures below { OfEach (methods_at schema.now.decls interface) (λ m. m.id + 1 < hash_code) }
    ensures version { position_of_code (methods_at schema.now.decls interface) version_code ≡ None }
    ensures hash { position_of_code (methods_at schema.now.decls interface) hash_code ≡ None }
{
    law_valid(schema);
}
