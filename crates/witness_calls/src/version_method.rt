//! A method of a version.
ghost use Rattle.std.specs.Prelude.{◌≡◌, ◌<◌, Some, length, true};
ghost use Rattle.std.specs.List.{list_all};
ghost use Rattle.aidl_schema.specs.Find.{methods_at};
ghost use Rattle.aidl_schema.specs.Methods.{is_passed_type, is_result_type};
ghost use Rattle.wire_model.specs.Calls.{descriptor, method_at};
ghost use Rattle.compat_witness.specs.Candidates.{counterpart};
ghost use Rattle.wire_model.specs.Outcome.{declared_as};

use crate::version::Version;
use aidl_schema::{Method, Schema, law_valid};
use std::marker::Model;
use stub_dispatch::Callee;
use value_views::NamedFields;

/// A method of a version. Contracts see it as the method.
#[derive(Drop)]
pub struct VersionMethod<'v, 'a> {
    callee: Callee<'a>,
    version: &'v Version<'a>,
}

impl<'v, 'a> Model for VersionMethod<'v, 'a> {
    ghost use Rattle.std.specs.Prelude.{◌≡◌};
    ghost use Rattle.aidl_schema.specs.contracts.schema.Decl as decl;
    ghost use Rattle.wire_model.specs.MethodOf.{MethodOf, method_code};

    ghost Value = { MethodOf };

    ghost coded = { method_code decl.the_row.coded };

    ghost view = { λ method. method.callee };

    ghost invariant = { λ method. method.version.now ≡ method.callee.declarations };
}

impl<'v, 'a> VersionMethod<'v, 'a> {
    // A method with its version.
    pub fn new(callee: Callee<'a>, version: &'v Version<'a>) -> VersionMethod<'v, 'a>
        requires { version.now ≡ callee.declarations }
        ensures { result ≡ callee.entry }
    {
        VersionMethod { callee, version }
    }

    // The method as a callee.
    pub fn callee(&self) -> &Callee<'a>
        ensures { result.now ≡ self.now }
    {
        &self.callee
    }

    // The tables of the fields of its declarations.
    pub fn fields(&self) -> &'v NamedFields<'a>
        ensures { result.now ≡ self.now.declarations }
    {
        self.version.fields()
    }

    // Its schema.
    pub fn schema(&self) -> &'a Schema
        ensures { result.now.decls ≡ self.now.declarations }
    {
        self.callee.schema()
    }

    // The number of the server's declaration of the name that its interface has.
    pub fn interface_in(&self, server: &Version<'_>) -> Option<u32>
        ensures { result ≡ declared_as server.now (descriptor self.now.declarations
            self.now.interface) }
    {
        server.declared_like(self.version, self.callee.interface())
    }

    // The server's method that has the names of this one.
    pub fn counterpart<'s, 'b>(&self, server: &'s Version<'b>) -> Option<VersionMethod<'s, 'b>>
        ensures { result ≡ counterpart self.now server.now }
    {
        let interface = self.interface_in(server)?;
        let method = server.method_like(interface, self.declared())?;
        Some(server.callee(interface, method))
    }

    // Its position in its interface.
    pub fn method(&self) -> u32
        ensures is { result ≡ self.now.method }
        ensures there { self.now.method < length (methods_at self.now.declarations
            self.now.interface) }
    {
        self.callee.method()
    }

    // How it is declared, with the types that a valid schema has.
    pub fn declared(&self) -> &'a Method
        ensures is { method_at self.now ≡ Some result.now }
        ensures passed { list_all (λ a. is_passed_type self.now.declarations a.ty) result.now.args
            ≡ true }
        ensures returned { is_result_type self.now.declarations result.now.result ≡ true }
    {
        law_valid(self.schema());
        self.callee.declared()
    }
}
