//! What a name means through imports, asked from the side of the declarations whose names end in it.
ghost use Rattle.std.specs.Prelude.{◌≡◌, ◌∷◌, map};
ghost use Rattle.declared_names.specs.Entries.{entry_of};
ghost use Rattle.name_resolution.specs.Resolution.{first_declared, imported};
ghost use Rattle.name_resolution.specs.steps.Behind.{through_at, without, if_through, led, led_by, led_at, earlier, first_through};

use crate::by_end::ByEnd;
use crate::imported::through;
use crate::meaning::Resolved;
use crate::whole_names::WholeNames;
use aidl_base::Ident;
use declared_names::{Declarations, End, mark_back, with_part};

/// What a name means through imports: by the first with which it is declared, of those that end in its first part. Asked
/// are the declarations whose names end in it.
pub fn behind(
    declared: &ByEnd<'_, '_>,
    imports: &WholeNames<'_, '_>,
    first: &Ident,
    rest: &[Ident],
) -> Option<Resolved>
    ensures { result ≡ first_declared (map entry_of declared.now)
        (imported (map (λ d. d.now) imports.now) (first.now ∷ rest.now)) }
{
    match first_through(declared, imports, first, rest) {
        Some(place) => through_at(declared.declarations(), imports, place, first, rest),
        None => None,
    }
}

// The first place of an import through which a name means something.
fn first_through(
    declared: &ByEnd<'_, '_>,
    imports: &WholeNames<'_, '_>,
    first: &Ident,
    rest: &[Ident],
) -> Option<usize>
    ensures { result ≡ first_through (map entry_of declared.now) first.now rest.now imports.now }
{
    let declarations = declared.declarations();
    let ends = declared.ends();
    let listed = ends.listed();
    let marks = ends.table();
    let mut best = None;
    let mut at = marks.first(with_part(mark_back(rest), first));
    'places: while let Some(place) = at {
        let other = led_at(declarations, imports, listed, place, first, rest);
        best = earlier(best, other);
        at = marks.next(place);
    }
    best
}

// Where the end at a place leads.
fn led_at(
    declarations: &Declarations<'_>,
    imports: &WholeNames<'_, '_>,
    ends: &[End],
    place: usize,
    first: &Ident,
    rest: &[Ident],
) -> Option<usize>
    ensures { result ≡ led_at
        (map entry_of declarations.now) first.now rest.now imports.now ends.now place }
{
    match ends.get(place) {
        Some(end) => led_by(declarations, imports, end.owner, first, rest),
        None => None,
    }
}

// Where the name of the declaration with a number leads.
fn led_by(
    declarations: &Declarations<'_>,
    imports: &WholeNames<'_, '_>,
    number: usize,
    first: &Ident,
    rest: &[Ident],
) -> Option<usize>
    ensures { result ≡ led_by
        (map entry_of declarations.now) first.now rest.now imports.now number }
{
    match declarations.as_slice().get(number) {
        Some(f) => {
            let name = f.name.0.as_slice();
            led(declarations, imports, name, first, rest)
        }
        None => None,
    }
}

// Where a declared name leads, which may end in the whole name: to the import that has what stands before the other parts.
fn led(
    declarations: &Declarations<'_>,
    imports: &WholeNames<'_, '_>,
    declared: &[Ident],
    first: &Ident,
    rest: &[Ident],
) -> Option<usize>
    ensures { result ≡ led
        (map entry_of declarations.now) first.now rest.now imports.now declared.now }
{
    let place = imports.place_of(without(declared, rest.len()));
    if_through(declarations, imports, place, first, rest)
}

// A place, where the name means something through the import there.
fn if_through(
    declarations: &Declarations<'_>,
    imports: &WholeNames<'_, '_>,
    place: Option<usize>,
    first: &Ident,
    rest: &[Ident],
) -> Option<usize>
    ensures { result ≡ if_through
        (map entry_of declarations.now) first.now rest.now imports.now place }
{
    match place {
        Some(at) => {
            if through_at(declarations, imports, at, first, rest).is_some() {
                Some(at)
            } else {
                None
            }
        }
        None => None,
    }
}

// What the name means through the import at a place.
fn through_at(
    declarations: &Declarations<'_>,
    imports: &WholeNames<'_, '_>,
    place: usize,
    first: &Ident,
    rest: &[Ident],
) -> Option<Resolved>
    ensures { result ≡ through_at
        (map entry_of declarations.now) first.now rest.now imports.now place }
{
    match imports.as_slice().get(place) {
        Some(import) => through(declarations, *import, first, rest),
        None => None,
    }
}

// The earlier of two places.
fn earlier(a: Option<usize>, b: Option<usize>) -> Option<usize>
    ensures { result ≡ earlier a b }
{
    match a {
        Some(x) => match b {
            Some(y) => { if y < x { Some(y) } else { Some(x) } }
            None => Some(x),
        },
        None => b,
    }
}

// The parts of a name but for so many at its back.
fn without(name: &[Ident], back: usize) -> &[Ident]
    ensures { result.now ≡ without name.now back }
{
    let (front, _) = name.split_at(name.len().saturating_sub(back));
    front
}
