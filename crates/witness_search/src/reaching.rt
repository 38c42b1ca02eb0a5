//! The table of the methods that reach each declaration.
ghost use Rattle.std.specs.Prelude.{◌≡◌, ◌==◌, ◌&&◌, ◌≤◌, ℕ, [], length, if◌then◌else◌, IfOk, None, OnOk, Some};
ghost use Rattle.std.specs.Option.{option_copied};
ghost use Rattle.aidl_schema.specs.Broken.{is_there_and};
ghost use Rattle.compat_witness.specs.Reaching as meant;
ghost use Rattle.wire_model.specs.Calls.{descriptor};
ghost use Rattle.wire_model.specs.Outcome.{declared_as};
ghost use Rattle.witness_search.specs.ReachTables.{IsReachTable, row_at};
ghost use Rattle.witness_search.specs.steps.Reached.{AreAdded, IsAdded, reached_from, reached_in};

use crate::candidates::Reach;
use crate::spot::{only, spot_in};
use aidl_base::{OutOfMemory, Row};
use aidl_schema::{Arg, Base, Method, is_in_way, is_one_value, law_valid, same_type};
use std::alloc::Global;
use witness_calls::Version;

/// For each declaration of the client its methods that reach it: each has the same id in both versions and this one argument, which is
/// `in`, one value of the declaration and never null. They are in the order of interfaces and methods.
pub fn reach_table(
    alloc: Global,
    client: &Version<'_>,
    server: &Version<'_>,
) -> Result<Vec<Row<Reach>>, OutOfMemory>
    ensures { IfOk result (λ rows. IsReachTable client.now server.now rows.items) }
{
    let mut rows = empty_rows(alloc, client.schema().decls.as_slice().len())?;
    add_all(client, server, rows.as_mut_slice())?;
    Ok(rows)
}

// So many empty rows.
fn empty_rows(alloc: Global, count: usize) -> Result<Vec<Row<Reach>>, OutOfMemory>
    ensures len { IfOk result (λ rows. length rows.items ≡ count) }
    ensures empty { IfOk result (λ rows. (k : ℕ) → row_at rows.items k ≡ []) }
{
    let mut rows = Vec::with_capacity(alloc, count)?;
    for _ in 0..count {
        rows.push(Row::new(alloc))?;
    }
    Ok(rows)
}

// Adds the methods of all interfaces to the rows of what they reach.
fn add_all(
    client: &Version<'_>,
    server: &Version<'_>,
    rows: &mut [Row<Reach>],
) -> Result<(), OutOfMemory>
    ensures { OnOk result (AreAdded
        (λ k. meant.methods_reaching client.now k server.now) rows.old rows.new) }
{
    let schema = client.schema();
    law_valid(schema);
    let decls = schema.decls.as_slice();
    for i in 0..decls.len() {
        add_reaching(client, server, i as u32, rows)?;
    }
    Ok(())
}

// Adds the methods of one interface.
fn add_reaching(
    client: &Version<'_>,
    server: &Version<'_>,
    interface: u32,
    rows: &mut [Row<Reach>],
) -> Result<(), OutOfMemory>
    ensures { OnOk result (AreAdded
        (λ k. reached_in client.now k server.now interface) rows.old rows.new) }
{
    let ends = Ends {
        client,
        server,
        interface,
        named: server.declared_like(client, interface),
    };
    add_methods(&ends, client.methods(interface), rows)
}

// Adds these methods.
fn add_methods(
    ends: &Ends<'_>,
    methods: &[Method],
    rows: &mut [Row<Reach>],
) -> Result<(), OutOfMemory>
    requires few { length methods.now ≤ 4096 }
    ensures { OnOk result (AreAdded
        (λ k. reached_from 0
        (λ v. meant.reaches ends.now.client.now k ends.now.server.now ends.now.interface v)
        ends.now.interface methods.now)
        rows.old rows.new) }
{
    for i in 0..methods.len() {
        let number = declaration_reached(ends, &methods[i]);
        let reach = Reach {
            interface: ends.interface,
            method: i as u32,
        };
        add(rows, number, reach)?;
    }
    Ok(())
}

/// An interface of the client, the server, and the number of the server's declaration of that name.
#[derive(Clone, Copy)]
pub struct Ends<'a> {
    pub client: &'a Version<'a>,
    pub server: &'a Version<'a>,
    pub interface: u32,
    pub named: Option<u32>,
    pub ghost is_named: { named ≡ declared_as server.now (descriptor client.now interface) },
}

// Adds a method to the row of a number.
fn add(rows: &mut [Row<Reach>], number: Option<u32>, reach: Reach) -> Result<(), OutOfMemory>
    ensures { OnOk result (IsAdded reach number rows.old rows.new) }
{
    if let Some(number) = number {
        let at = number as usize;
        if at < rows.len() {
            rows[at].push(reach)?;
        }
    }
    Ok(())
}

// The declaration that a method reaches: the one that its only argument is of, which it has in both versions.
fn declaration_reached(ends: &Ends<'_>, method: &Method) -> Option<u32>
    ensures { result ≡ meant.declaration_reached
        ends.now.client.now ends.now.server.now ends.now.interface method.now }
{
    let arg = only(method.args.as_slice())?;
    match arg.ty.base {
        Base::Named(number) if has_argument(ends, method, arg) => Some(number),
        Base::Named(_) => None,
        Base::Boolean | Base::Byte | Base::Char | Base::Int | Base::Long | Base::Text => None,
    }
}

// Whether the server has a method by its names with the same id and this one argument.
fn has_argument(ends: &Ends<'_>, method: &Method, arg: &Arg) -> bool
    ensures { result ≡ meant.has_argument ends.now.client.now
        ends.now.server.now ends.now.interface method.now arg.now }
{
    let Some(number) = ends.named else {
        return false;
    };
    match spot_in(ends.server, number, method) {
        Some(spot) => {
            method.id == spot.method.id && is_alike(ends, arg, only(spot.method.args.as_slice()))
        }
        None => false,
    }
}

// Whether both arguments are `in` and one value of one type, never null.
fn is_alike(ends: &Ends<'_>, sent: &Arg, wanted: Option<&Arg>) -> bool
    ensures { result ≡ is_there_and
        (meant.are_alike ends.now.client.now ends.now.server.now sent.now)
        (option_copied wanted.entry) }
{
    match wanted {
        Some(wanted) => {
            let (client, server) = (ends.client.schema(), ends.server.schema());
            (is_in_way(sent.way) && is_in_way(wanted.way))
                && (is_one_value(sent.ty) && same_type(client, sent.ty, server, wanted.ty))
        }
        None => false,
    }
}
