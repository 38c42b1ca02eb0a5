//! A method of a schema, and the ids of its arguments and its result.
ghost use Rattle.std.specs.Prelude.{◌≡◌, ◌<◌, length, not, Some};
ghost use Rattle.aidl_schema.specs.Find.{methods_at};
ghost use Rattle.aidl_schema.specs.Methods.{is_in_way};
ghost use Rattle.stub_dispatch.specs.Planned.{ArePlansOf};
ghost use Rattle.stub_dispatch.specs.steps.Arguments.{ArePlanned, IsResultOf, IsResultPlanned};
ghost use Rattle.wire_model.specs.Calls.{arguments, is_out, method_at, result_type};
ghost use Rattle.wire_model.specs.MethodOf.{method_of};

use aidl_schema::{Direction, Method, Schema, law_valid, methods_at};
use marshal_plans::{PlanId, Plans};

/// The method with a number of an interface.
pub fn method_of(schema: &Schema, interface: u32, method: u32) -> &Method
    requires { method < length (methods_at schema.now.decls interface) }
    ensures { method_at (method_of schema.now.decls interface method) ≡ Some result.now }
{
    &methods_at(schema, interface)[method as usize]
}

/// What the plans have for the arguments and the result of a method of their schema.
pub fn law_planned(schema: &Schema, plans: &Plans, interface: u32, method: u32)
    requires plans { ArePlansOf plans.now schema.now.decls }
    requires there { method < length (methods_at schema.now.decls interface) }
    ensures arguments { ArePlanned plans.now schema.now.decls interface method 0
        (arguments (method_of schema.now.decls interface method)) }
    ensures result { IsResultPlanned plans.now schema.now.decls interface method
        (result_type (method_of schema.now.decls interface method)) }
{
    law_valid(schema);
}

/// The id of a method's result, None of a void method.
pub fn result_id(schema: &Schema, plans: &Plans, interface: u32, method: u32) -> Option<PlanId>
    requires plans { ArePlansOf plans.now schema.now.decls }
    requires there { method < length (methods_at schema.now.decls interface) }
    ensures { IsResultOf plans.now schema.now.decls (result_type
        (method_of schema.now.decls interface method)) result }
{
    law_planned(schema, plans, interface, method);
    plans.result(interface, method)
}

/// Whether no value of an argument of a way is sent.
pub fn is_out(way: Direction) -> bool
    ensures { result ≡ is_out way }
{
    matches!(way, Direction::Out)
}

/// Whether an argument of a way comes back with the reply.
pub fn comes_back(way: Direction) -> bool
    ensures { result ≡ not (is_in_way way) }
{
    !matches!(way, Direction::In)
}
