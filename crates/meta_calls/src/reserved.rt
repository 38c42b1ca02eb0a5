//! Methods with a name that one of the two codes answers for.
ghost use Rattle.std.specs.Prelude.{◌≡◌};
ghost use Rattle.meta_calls.specs.Reserved as meant;

use aidl_schema::{Method, Schema, law_valid, methods_at};

/// The position of the first method of an interface that is named `getInterfaceVersion` or `getInterfaceHash`, the names of the methods
/// that AOSP's compiler generates beside those of a file. None exactly where no method has one of them.
pub fn reserved_method(schema: &Schema, interface: u32) -> Option<u32>
    ensures { result ≡ meant.reserved_method schema.now.decls interface }
{
    law_valid(schema);
    match position_reserved(methods_at(schema, interface)) {
        Some(position) => Some(position as u32),
        None => None,
    }
}

fn position_reserved(methods: &[Method]) -> Option<usize>
    ensures { result ≡ meant.position_reserved methods.now }
{
    methods.iter().position(is_reserved)
}

fn is_reserved(method: &Method) -> bool
    ensures { result ≡ meant.is_reserved method.now }
{
    let name = method.name.0.as_str();
    name == "getInterfaceVersion" || name == "getInterfaceHash"
}
