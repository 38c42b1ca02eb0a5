//! A breach, added where there is one.
ghost use Rattle.std.specs.Prelude.{◌≡◌, ◌++◌, [], ◌∷◌, OnOk, if◌then◌else◌};
ghost use Rattle.aidl_names.specs.Rules.{breach};

use aidl_base::{Breach, OutOfMemory};

/// Adds a breach where a test says that there is one.
pub fn add_if(
    broken: bool,
    rule: u8,
    file: u32,
    offset: u32,
    rows: &mut Vec<Breach>,
) -> Result<(), OutOfMemory>
    ensures { OnOk result (rows.new.items
        ≡ rows.old.items ++ (if broken then breach rule file offset ∷ [] else [])) }
{
    if broken {
        rows.push(Breach { rule, file, offset })?;
    }
    Ok(())
}
