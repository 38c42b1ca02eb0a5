//! The interface that is asked: a step that may end the command early.
ghost use Rattle.std.specs.Prelude.{◌≡◌};
ghost use Rattle.ask_command.specs.Interfaces as step;
ghost use Rattle.tool_frame.specs.Results.{EndsAs, Finds};
ghost use Rattle.wire_model.specs.MethodOf.{method_of};

use aidl_schema::{Schema, interface_named, methods_at};
use growing::GrowingText;
use meta_calls::reserved_method;
use std::alloc::Global;
use stub_dispatch::descriptor_of;
use tool_frame::{Early, Verdict, end_as, refusal};

/// The number of the interface of a canonical name: `no interface NAME` where there is none, and `collision NAME` where it has a method with
/// a reserved name, NAME being the full name of the first.
pub fn interface_found(alloc: Global, schema: &Schema, name: &str) -> Result<u32, Early>
    ensures { Finds (λ i. i) result (step.interface_found schema.now.decls name.now) }
{
    let Some(interface) = interface_named(schema, name) else {
        return Err(refusal(alloc, "no interface ", name));
    };
    match reserved_method(schema, interface) {
        Some(method) => Err(collision(alloc, schema, interface, method)),
        None => Ok(interface),
    }
}

// The end where a method of an interface has a reserved name.
fn collision(alloc: Global, schema: &Schema, interface: u32, method: u32) -> Early
    ensures { EndsAs result (step.collision (method_of schema.now.decls interface method)) }
{
    match descriptor_of(alloc, schema, interface) {
        Ok(descriptor) => {
            let mut text = GrowingText::new(alloc);
            text.push_str("collision ");
            text.push_str(descriptor.as_str());
            text.push_str(".");
            text.push_str(method_name(schema, interface, method));
            text.push_str("\n");
            end_as(text, Verdict::Negative)
        }
        Err(_) => Early::OutOfMemory,
    }
}

// The name of a method, and no text where it isn't there.
fn method_name(schema: &Schema, interface: u32, method: u32) -> &str
    ensures { result.now ≡ step.method_name (method_of schema.now.decls interface method) }
{
    match methods_at(schema, interface).get(method as usize) {
        Some(method) => method.name.0.as_str(),
        None => "",
    }
}
