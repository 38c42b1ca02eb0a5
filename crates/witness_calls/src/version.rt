//! A version of a tree: a side of calls, with tables that find declarations, methods and fields.
ghost use Rattle.std.specs.Prelude.{◌≡◌, ◌+◌, ◌<◌, ◌≤◌, IfOk, IfSome, Some, length, slice_get};
ghost use Rattle.std.specs.Option.{option_copied};
ghost use Rattle.aidl_schema.specs.Find.{fields_at, methods_at, position_of_code};
ghost use Rattle.stub_dispatch.specs.Planned.{ArePlansOf};
ghost use Rattle.wire_model.specs.Calls.{descriptor};
ghost use Rattle.wire_model.specs.MethodOf.{method_of};
ghost use Rattle.wire_model.specs.Outcome as meant;
ghost use Rattle.witness_calls.specs.Named.{field_named, method_named};

use crate::named_decl::NamedDecl;
use crate::version_method::VersionMethod;
use aidl_base::{OutOfMemory, Text};
use aidl_schema::{Decl, Method, Schema, find, law_valid, methods_at};
use marshal_plans::Plans;
use std::alloc::Global;
use std::marker::Model;
use stub_dispatch::{Callee, Side};
use value_views::NamedFields;

/// A version of a tree: a side of calls, with tables that find the methods and the fields of its declarations by their names, and
/// methods by their ids. They are made once for all calls. Contracts see it as the schema's declarations.
#[derive(Drop)]
pub struct Version<'a> {
    side: Side<'a>,
    named: Vec<NamedDecl<'a>>,
    fields: NamedFields<'a>,
}

impl<'a> Model for Version<'a> {
    ghost use Rattle.std.specs.Prelude.{List, ◌≡◌};
    ghost use Rattle.std.specs.Coded.{coded_list};
    ghost use Rattle.aidl_schema.specs.contracts.schema.Decl as decl;
    ghost use Rattle.aidl_schema.specs.declared.schema.Decl.{Decl};

    ghost Value = { List Decl };

    ghost coded = { coded_list decl.the_row.coded };

    ghost view = { λ version. version.side };

    ghost invariant = { λ version. record {
      named : version.named.items ≡ version.side;
      fields : version.fields ≡ version.side;
    } };
}

impl<'a> Version<'a> {
    /// A version of a schema, with plans that stand for it. `OutOfMemory` is the one refusal.
    pub fn new(
        alloc: Global,
        schema: &'a Schema,
        plans: &'a Plans,
    ) -> Result<Version<'a>, OutOfMemory>
        requires plans { ArePlansOf plans.now schema.now.decls }
        ensures { IfOk result (λ version. version ≡ schema.now.decls) }
    {
        let named = named_decls(alloc, schema.decls.as_slice())?;
        let fields = NamedFields::new(alloc, schema)?;
        let side = Side::new(schema, plans);
        Ok(Version {
            side,
            named,
            fields,
        })
    }

    /// Its schema.
    pub fn schema(&self) -> &'a Schema
        ensures { result.now.decls ≡ self.now }
    {
        self.side.schema()
    }

    // The tables of the fields of its declarations.
    pub(crate) fn fields(&self) -> &NamedFields<'a>
        ensures { result.now ≡ self.now }
    {
        &self.fields
    }

    /// The method at a position of an interface.
    pub(crate) fn callee(&self, interface: u32, method: u32) -> VersionMethod<'_, 'a>
        requires { method < length (methods_at self.now interface) }
        ensures { result ≡ method_of self.now interface method }
    {
        let callee = Callee::new(&self.side, interface, method);
        VersionMethod::new(callee, self)
    }

    /// The methods of an interface, at most 4,096; none where the number is of no interface.
    pub fn methods(&self, interface: u32) -> &'a [Method]
        ensures are { result.now ≡ methods_at self.now interface }
        ensures few { length result.now ≤ 4096 }
    {
        law_valid(self.schema());
        methods_at(self.schema(), interface)
    }

    // The declaration of a number, with its tables.
    fn decl(&self, number: u32) -> Option<&NamedDecl<'a>>
        ensures { option_copied result ≡ slice_get self.now number }
    {
        self.named.as_slice().get(number as usize)
    }

    /// The number of the declaration that has the name of one of another version.
    pub fn declared_like(&self, other: &Version<'_>, number: u32) -> Option<u32>
        ensures { result ≡ meant.declared_as self.now (descriptor other.now number) }
    {
        match other.decl(number) {
            Some(decl) => declared(self.schema(), decl.name()),
            None => declared(self.schema(), &Text::empty()),
        }
    }

    /// The position of the method of a name, which is in UTF-8.
    pub fn method_named(&self, interface: u32, name: &str) -> Option<u32>
        ensures is { result ≡ method_named (methods_at self.now interface) name.now }
        ensures within { IfSome result (λ n. n < length (methods_at self.now interface)) }
    {
        law_valid(self.schema());
        match self.decl(interface)?.method_named(name) {
            Some(position) => Some(position as u32),
            None => None,
        }
    }

    /// The position of the method that has the name of another one.
    pub fn method_like(&self, interface: u32, method: &Method) -> Option<u32>
        ensures is { result ≡ meant.method_like (Some method.now) (methods_at self.now interface) }
        ensures within { IfSome result (λ n. n < length (methods_at self.now interface)) }
    {
        self.method_named(interface, method.name.0.as_str())
    }

    /// The position of the method of an id.
    pub fn method_of_id(&self, interface: u32, id: u32) -> Option<u32>
        ensures is { result ≡ position_of_code (methods_at self.now interface) (id + 1) }
        ensures within { IfSome result (λ n. n < length (methods_at self.now interface)) }
    {
        law_valid(self.schema());
        match self.decl(interface)?.method_of_id(id) {
            Some(position) => Some(position as u32),
            None => None,
        }
    }

    /// The position of the field of a name, which is in UTF-8, in a parcelable or union.
    pub fn field_named(&self, number: u32, name: &str) -> Option<usize>
        ensures { result ≡ field_named (fields_at self.now number) name.now }
    {
        self.fields.field_named(number, name)
    }
}

/// The number of the declaration of a name.
pub fn declared(schema: &Schema, name: &Text) -> Option<u32>
    ensures { result ≡ meant.declared_as schema.now.decls name.now }
{
    find(schema, name.as_str())
}

// Each declaration with its tables.
fn named_decls<'a>(alloc: Global, decls: &'a [Decl]) -> Result<Vec<NamedDecl<'a>>, OutOfMemory>
    ensures { IfOk result (λ named. named.items ≡ decls.now) }
{
    let mut named = Vec::with_capacity(alloc, decls.len())?;
    for decl in decls {
        named.push(NamedDecl::new(alloc, decl)?)?;
    }
    Ok(named)
}
