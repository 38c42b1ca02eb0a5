//! The parts of a place, its method in both versions, and the arguments of that.
ghost use Rattle.std.specs.Prelude.{◌≡◌, List, ℕ, Some, option_map};
ghost use Rattle.std.specs.Option.{option_copied};
ghost use Rattle.std.specs.Str.{encode_utf8_all};
ghost use Rattle.aidl_schema.specs.Find.{methods_at};
ghost use Rattle.compat_witness.specs.Places.{at_last_dot, at_slash, spot_at, spot_like, spot_of};
ghost use Rattle.compat_witness.specs.Reaching.{only};
ghost use Rattle.compat_witness.specs.Rows.{are_empty, both_only, is_empty};
ghost use Rattle.wire_model.specs.Outcome.{method_like};
ghost use Rattle.witness_search.specs.steps.Seen.{spot_seen};
ghost use Rattle.witness_search.specs.steps.Named.{spot_named};

use crate::pair::Pair;
use aidl_schema::{Arg, Method, find};
use witness_calls::Version;

/// What stands before the last dot of a place, and what stands behind it.
pub fn at_last_dot(place: &str) -> Option<(&str, &str)>
    ensures { option_map (λ p. (p.0.now, p.1.now)) result ≡ at_last_dot place.now }
{
    place.rsplit_once('.')
}

/// What stands before the first slash of a place, and what stands behind it.
pub fn at_slash(place: &str) -> Option<(&str, &str)>
    ensures { option_map (λ p. (p.0.now, p.1.now)) result ≡ at_slash place.now }
{
    place.split_once('/')
}

/// A method, the number of its interface, and its position there.
#[derive(Clone, Copy)]
pub struct Spot<'a> {
    pub interface: u32,
    pub position: u32,
    pub method: &'a Method,
}

/// The method that a place names.
pub fn spot_of<'a>(version: &Version<'a>, place: &str) -> Option<Spot<'a>>
    ensures { (p : List ℕ) → place.now ≡ encode_utf8_all p
        → option_map spot_seen result ≡ spot_of version.now p }
{
    spot_named(version, place)
}

// The same by the bytes of the place.
fn spot_named<'a>(version: &Version<'a>, place: &str) -> Option<Spot<'a>>
    ensures { option_map spot_seen result ≡ spot_named version.now place.now }
{
    let (interface, method) = at_last_dot(place)?;
    let number = find(version.schema(), interface)?;
    spot_at(version, number, version.method_named(number, method))
}

/// The method of new that has the names of one of old.
pub fn spot_like<'n>(pair: &Pair<'_, 'n>, before: &Spot<'_>) -> Option<Spot<'n>>
    ensures { option_map spot_seen result
        ≡ spot_like pair.now.old before.now.interface before.now.method.now pair.now.new }
{
    let number = pair.new.declared_like(&pair.old, before.interface)?;
    spot_in(&pair.new, number, before.method)
}

/// The method of an interface that has the name of another one.
pub fn spot_in<'a>(server: &Version<'a>, number: u32, method: &Method) -> Option<Spot<'a>>
    ensures { option_map spot_seen result
        ≡ spot_at server.now number (method_like (Some method.now) (methods_at server.now number)) }
{
    spot_at(server, number, server.method_like(number, method))
}

// The method at a position of an interface.
fn spot_at<'a>(version: &Version<'a>, interface: u32, position: Option<u32>) -> Option<Spot<'a>>
    ensures { option_map spot_seen result ≡ spot_at version.now interface position }
{
    let position = position?;
    let method = version.methods(interface).get(position as usize)?;
    Some(Spot {
        interface,
        position,
        method,
    })
}

/// The one argument of each, where their ids are the same.
pub fn both_only<'a>(before: &Spot<'a>, after: &Spot<'a>) -> Option<(&'a Arg, &'a Arg)>
    ensures { option_map (λ q. (q.0.now, q.1.now)) result
        ≡ both_only (spot_seen before.now) (spot_seen after.now) }
{
    if before.method.id != after.method.id {
        return None;
    }
    let a = only(before.method.args.as_slice())?;
    let b = only(after.method.args.as_slice())?;
    Some((a, b))
}

/// The argument of a method that has no other.
pub fn only(args: &[Arg]) -> Option<&Arg>
    ensures { option_copied result ≡ only args.now }
{
    match args {
        [arg] => Some(arg),
        _ => None,
    }
}

/// Whether the method has no arguments in both versions.
pub fn are_empty(before: &Spot<'_>, after: &Spot<'_>) -> bool
    ensures { result ≡ are_empty (spot_seen before.now) (spot_seen after.now) }
{
    is_empty(before.method.args.as_slice()) && is_empty(after.method.args.as_slice())
}

/// Whether there are no arguments.
pub fn is_empty(args: &[Arg]) -> bool
    ensures { result ≡ is_empty args.now }
{
    matches!(args, [])
}
