//! The breaches of E1 by the paths of files.
ghost use Rattle.std.specs.Prelude.{◌≡◌, ◌≤◌, ◌++◌, [], ◌∷◌, map, length, IfOk, OnOk, if◌then◌else◌, string_bytes};
ghost use Rattle.aidl_syntax.specs.Sources.{source_of};
ghost use Rattle.aidl_names.specs.Rules.{WrongFile, breaches_at, is_wrong_file, path_of};

use aidl_base::{Breach, Ident, OutOfMemory};
use aidl_syntax::ParsedFile;
use declared_names::package;
use std::alloc::Global;

/// Adds the breaches of E1.
pub fn add_wrong_files(
    alloc: Global,
    files: &[ParsedFile],
    rows: &mut Vec<Breach>,
) -> Result<(), OutOfMemory>
    requires { length files.now ≤ 4096 }
    ensures { OnOk result (rows.new.items
        ≡ rows.old.items ++ breaches_at 1 (WrongFile (map source_of files.now))) }
{
    for (i, file) in files.iter().enumerate() {
        if is_wrong_file(alloc, file)? {
            rows.push(Breach {
                rule: 1,
                file: i as u32,
                offset: 0,
            })?;
        }
    }
    Ok(())
}

fn is_wrong_file(alloc: Global, file: &ParsedFile) -> Result<bool, OutOfMemory>
    ensures { IfOk result (λ wrong. wrong ≡ is_wrong_file (source_of file.now)) }
{
    let tree = &file.tree;
    let path = path_of(alloc, package(tree), &tree.decl.name.name)?;
    Ok(file.path.as_str() != path.as_str())
}

fn path_of(alloc: Global, front: &[Ident], name: &Ident) -> Result<String, OutOfMemory>
    ensures { IfOk result (λ path. string_bytes path ≡ path_of front.now name.now) }
{
    let mut path = String::new(alloc);
    for part in front {
        path.push_str(part.0.as_str())?;
        path.push_str("/")?;
    }
    path.push_str(name.0.as_str())?;
    path.push_str(".aidl")?;
    Ok(path)
}
