//! Laws of what `explain` prints beside `decode` without `--lenient`, of the same types and bytes.
ghost use Rattle.std.specs.Prelude.{◌≡◌};
ghost use Rattle.aidl_base.specs.declared.profile.Profile.TheVariants.{Strict};
ghost use Rattle.parcel_explain.specs.Items.{explained};
ghost use Rattle.parcel_commands.specs.Decode.{decode_answer, items_answer};
ghost use Rattle.parcel_commands.specs.Endings.{ending_of, value_lines};
ghost use Rattle.parcel_commands.specs.Explain.{explain_answer, items_verdict};
ghost use Rattle.tool_frame.specs.Answer.{after_text};

use aidl_schema::{AidlType, Schema};
use parcel_explain::law_parts;

/// Behind the lines of the values that are read, `decode` without `--lenient` prints what the last item says: `status NUMBER` exactly where it is a stop, with
/// its status; `left COUNT` exactly where it is what is left, with its bytes; and else nothing. The items' verdict is that of `decode`.
pub fn law_explain_stops(schema: &Schema, types: &[AidlType], parcel: &[u8])
    ensures ends { items_answer Strict schema.now.decls types.now parcel.now
        ≡ after_text (value_lines schema.now.decls types.now parcel.now)
        (ending_of (explained schema.now.decls types.now parcel.now)) }
    ensures verdict { (items_answer Strict schema.now.decls types.now parcel.now).verdict
        ≡ items_verdict (explained schema.now.decls types.now parcel.now) }
{
    law_parts(schema, types, parcel);
}

/// `explain` has the exit of `decode` without `--lenient`, whatever TYPES are.
pub fn law_explain_exits(schema: &Schema, types: &str, parcel: &[u8])
    ensures { (explain_answer schema.now.decls types.now parcel.now).verdict
        ≡ (decode_answer Strict schema.now.decls types.now parcel.now).verdict }
{}
