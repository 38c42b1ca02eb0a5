//! What a valid schema gives of the types of its methods, and two of them of the calls between them and of the lines that say these.
ghost use Rattle.std.specs.Prelude.{◌≡◌, None, true};
ghost use Rattle.std.specs.List.{list_all};
ghost use Rattle.aidl_schema.specs.Methods.{is_passed_type, is_result_type};
ghost use Rattle.aidl_values.specs.Data.{none};
ghost use Rattle.wire_model.specs.Calls as calls;
ghost use Rattle.wire_model.specs.Calls.{arguments, is_oneway, result_type};
ghost use Rattle.wire_model.specs.MethodOf.{method_of};
ghost use Rattle.wire_model.specs.Requests.{IsAnswer};
ghost use Rattle.call_scripts.specs.EveryCall.{EachHasLine, LinesAreQuiet};
ghost use Rattle.call_scripts.specs.Script.{ScriptsFit};

use aidl_schema::{Schema, law_valid};
use aidl_values::law_sound;

/// What a line means as a call between a client and a server fits, whatever the line: the arguments and the answer are of the methods' types,
/// the request and the reply have at most 1,048,576 bytes, and the server's numbers are those of the same names.
pub fn law_script_fits(client: &Schema, server: &Schema)
    ensures { ScriptsFit client.now.decls server.now.decls }
{
    law_valid(client);
    law_valid(server);
    law_sound(client);
    law_sound(server);
}

/// The other way round: each call between a client and a server that fits is the one of some object of a line, unless SERVER's method is
/// oneway and something is answered of it, which no line says.
pub fn law_every_call_has_a_line(client: &Schema, server: &Schema)
    ensures each { EachHasLine client.now.decls server.now.decls }
    ensures quiet { LinesAreQuiet client.now.decls server.now.decls }
{
    law_valid(client);
    law_valid(server);
}

// What a valid schema gives of the types of a method, and of a oneway one.
pub fn law_types(schema: &Schema, interface: u32, method: u32)
    ensures returned { is_result_type schema.now.decls
        (result_type (method_of schema.now.decls interface method)) ≡ true }
    ensures passed { list_all (λ a. is_passed_type schema.now.decls a.ty)
        (arguments (method_of schema.now.decls interface method)) ≡ true }
    ensures oneway { is_oneway (method_of schema.now.decls interface method) ≡ true
        → IsAnswer (method_of schema.now.decls interface method) (calls.returned None none) }
{
    law_valid(schema);
}
