//! The candidates that a row of the table gives at a place, in their order.
ghost use Rattle.std.specs.Prelude.{◌≡◌, ◌∷◌, [], IfOk, None};
ghost use Rattle.witness_search.specs.declared.candidates.Part.TheVariants as parts;

use crate::spot::Spot;
use aidl_base::{OutOfMemory, Row};
use aidl_values::Value;
use std::alloc::Global;
use witness_calls::{Call, Values};

/// One part, or two in their order (own).
#[derive(Drop)]
pub struct Candidates {
    pub first: Part,
    pub second: Option<Part>,
}

/// A call, or requests of the methods that reach a declaration (own).
#[derive(Drop)]
pub enum Part {
    Call(Call),
    Requests(Group),
}

/// Requests of the methods that reach a declaration with each of some values, method by method. The client is the old version, or
/// the new one where `back`; the number is that of the declaration in its schema (own).
#[derive(Drop)]
pub struct Group {
    pub back: bool,
    pub number: u32,
    pub values: Row<Value>,
}

/// A method of the client, by the number of its interface and its position there (own).
#[derive(Clone, Copy)]
pub struct Reach {
    pub interface: u32,
    pub method: u32,
}

/// A request of a client's method, or a reply to it.
pub fn call_by(back: bool, client: &Spot<'_>, values: Values) -> Part
    ensures { result ≡ parts.Call (record {
      back = back;
      interface = client.now.interface;
      method = client.now.position;
      values = values;
    }) }
{
    Part::Call(Call {
        back,
        interface: client.interface,
        method: client.position,
        values,
    })
}

/// One part alone.
pub fn alone(part: Part) -> Candidates
    ensures { result ≡ record { first = part; second = None } }
{
    Candidates {
        first: part,
        second: None,
    }
}

/// The row of one value.
pub fn one_value(alloc: Global, value: Value) -> Result<Row<Value>, OutOfMemory>
    ensures { IfOk result (λ values. values ≡ value ∷ []) }
{
    let mut values = Row::new(alloc);
    values.push(value)?;
    Ok(values)
}

/// Requests with one value, to the declaration of a number.
pub fn one_request(
    alloc: Global,
    back: bool,
    number: u32,
    value: Value,
) -> Result<Part, OutOfMemory>
    ensures { IfOk result (λ part. part ≡ parts.Requests (record { back = back; number = number; values = value ∷ [] })) }
{
    let values = one_value(alloc, value)?;
    Ok(Part::Requests(Group {
        back,
        number,
        values,
    }))
}

/// The same with two values.
pub fn two_requests(
    alloc: Global,
    back: bool,
    number: u32,
    first: Value,
    second: Value,
) -> Result<Part, OutOfMemory>
    ensures { IfOk result (λ part. part ≡ parts.Requests (record { back = back; number = number; values = first ∷ second ∷ [] })) }
{
    let mut values = Row::new(alloc);
    values.push(first)?;
    values.push(second)?;
    Ok(Part::Requests(Group {
        back,
        number,
        values,
    }))
}
