//! Look-ups by name: a declaration in the new schema, and members of old beside those of new.
ghost use Rattle.std.specs.Prelude.{◌≡◌, map, IfOk};
ghost use Rattle.std.specs.List.{find};
ghost use Rattle.std.specs.Option.{option_copied};
ghost use Rattle.aidl_schema.specs.Broken.{whole};
ghost use Rattle.aidl_schema.specs.Same.{same_text};
ghost use Rattle.compat_judge.specs.steps.Steps.{all_named, item_at};

use aidl_base::{OutOfMemory, Text};
use aidl_schema::{Decl, Schema, find, law_valid};
use name_tables::{Called, NameTable};
use std::alloc::Global;

/// The declaration of this canonical name.
pub fn find_decl<'a>(new: &'a Schema, name: &Text) -> Option<&'a Decl>
    ensures { option_copied result ≡ find (λ e. same_text name.now (whole e)) new.now.decls }
{
    law_valid(new);
    match find(new, name.as_str()) {
        Some(number) => at_place(new.decls.as_slice(), Some(number as usize)),
        None => None,
    }
}

// The item at a place.
fn at_place<T>(items: &[T], place: Option<usize>) -> Option<&T>
    ensures { option_copied result ≡ item_at items.now place }
{
    match place {
        Some(i) => items.get(i),
        None => None,
    }
}

/// For each of some members the first of its name among others, if there is one.
pub fn beside<'a, M: Called>(
    alloc: Global,
    olds: &[M],
    news: &'a [M],
) -> Result<Vec<Option<&'a M>>, OutOfMemory>
    ensures { IfOk result (λ afters. map option_copied afters.items
        ≡ all_named (λ x. (M.called x).0) olds.now news.now) }
{
    let mut afters = Vec::with_capacity(alloc, olds.len())?;
    let table = NameTable::new(alloc, news)?;
    for member in olds {
        let place = table.place(member.name().0.as_str());
        afters.push(at_place(news, place))?;
    }
    Ok(afters)
}
