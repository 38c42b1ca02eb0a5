//! A law of how deep a value is that was read.
ghost use Rattle.std.specs.Prelude.{◌+◌, ◌≤◌};
ghost use Rattle.aidl_values.specs.Data.{depth_of};
ghost use Rattle.aidl_values.specs.View.{view};
ghost use Rattle.wire_model.specs.Reads.{Reads};

use aidl_base::Profile;
use aidl_schema::{AidlType, Schema};
use aidl_values::{Value, law_shallow_defaults, law_sound};

/// What is read with so many levels left has at most 31 more, which are those of a default of a field that the bytes leave
/// out. So what is read with 64 levels has at most 95.
pub fn law_depth(
    profile: Profile,
    schema: &Schema,
    ty: &AidlType,
    levels: usize,
    b: &[u8],
    value: &Value,
)
    requires { Reads profile schema.now.decls levels ty.now b.now (view value.now) }
    ensures { depth_of (view value.now) ≤ levels + 31 }
{
    law_sound(schema);
    law_shallow_defaults(schema);
}
