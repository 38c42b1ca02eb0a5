//! The printers of what a client and a server have, which are kept over all lines.
ghost use Rattle.std.specs.Prelude.{◌≡◌, ◌<◌, Some, length};
ghost use Rattle.growing.specs.Grows.{Grows};
ghost use Rattle.aidl_schema.specs.Find.{methods_at};
ghost use Rattle.aidl_values.specs.HasType.{HasType};
ghost use Rattle.aidl_values.specs.View.{view};
ghost use Rattle.json_writing.specs.ValueText.{value_text};
ghost use Rattle.wire_model.specs.Calls.{method_at};
ghost use Rattle.wire_model.specs.MethodOf.{method_of};

use aidl_schema::{AidlType, Method, Schema};
use aidl_values::Value;
use growing::GrowingText;
use json_writing::JsonPrinter;
use std::alloc::Global;
use std::marker::Model;
use stub_dispatch::method_of;

/// Prints values by the types of a schema's methods. What it finds out of a declaration is kept for the lines after it. Contracts see it
/// as the declarations.
#[derive(Drop)]
pub struct SidePrinter<'a> {
    schema: &'a Schema,
    values: JsonPrinter<'a>,
}

impl<'a> Model for SidePrinter<'a> {
    ghost use Rattle.std.specs.Prelude.{List, ◌≡◌};
    ghost use Rattle.std.specs.Coded.{coded_list};
    ghost use Rattle.aidl_schema.specs.contracts.schema.Decl as decl;
    ghost use Rattle.aidl_schema.specs.declared.schema.Decl.{Decl};

    ghost Value = { List Decl };

    ghost coded = { coded_list decl.the_row.coded };

    ghost view = { λ printer. printer.schema.now.decls };

    ghost invariant = { λ printer. printer.values ≡ printer.schema.now.decls };
}

impl<'a> SidePrinter<'a> {
    /// Of values of this schema.
    pub fn new(alloc: Global, schema: &'a Schema) -> SidePrinter<'a>
        ensures { result ≡ schema.now.decls }
    {
        SidePrinter {
            schema,
            values: JsonPrinter::new(alloc, schema),
        }
    }

    // The method with a number of an interface.
    pub(crate) fn method(&self, interface: u32, method: u32) -> &'a Method
        requires { method < length (methods_at self.now interface) }
        ensures { method_at (method_of self.now interface method) ≡ Some result.now }
    {
        method_of(self.schema, interface, method)
    }

    // Adds a value of a type.
    pub(crate) fn push_value(
        &mut self,
        alloc: Global,
        ty: &AidlType,
        value: &Value,
        out: &mut GrowingText,
    )
        requires { HasType self.old ty.now (view value.now) }
        ensures same { self.new ≡ self.old }
        ensures text { Grows out.old out.new (value_text self.old ty.now (view value.now)) }
    {
        self.values.push_value(alloc, ty, value, out);
    }
}

/// The printers of a client and of a server.
#[derive(Drop)]
pub struct Printers<'a> {
    pub client: SidePrinter<'a>,
    pub server: SidePrinter<'a>,
}
