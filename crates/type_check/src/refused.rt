//! The refusals of parsing and of names, as refusals of the check.
ghost use Rattle.std.specs.Prelude.{List};
ghost use Rattle.aidl_base.specs.declared.source_file.SourceFile.{SourceFile};
ghost use Rattle.aidl_names.specs.Refusals as names;
ghost use Rattle.aidl_syntax.specs.Sources.{Source};
ghost use Rattle.tree_files.specs.Refusals as files;
ghost use Rattle.type_check.specs.Refusals.{IsRefusal, IsRefusalOfTrees};

use crate::fault::CheckFault;
use aidl_names::NameFault;
use tree_files::FilesFault;

/// What is answered where the files aren't parsed.
pub fn of_files(fault: FilesFault) -> CheckFault
    ensures { (sources : List SourceFile) → files.IsRefusal sources fault
        → IsRefusal sources result }
{
    match fault {
        FilesFault::Limit(limit) => CheckFault::Limit(limit),
        FilesFault::Lex(rows) => CheckFault::Lex(rows),
        FilesFault::Syntax(rows) => CheckFault::Syntax(rows),
        FilesFault::OutOfMemory => CheckFault::OutOfMemory,
    }
}

/// What is answered where the names are refused.
pub fn of_names(fault: NameFault) -> CheckFault
    ensures { (trees : List Source) → names.IsRefusal trees fault → IsRefusalOfTrees trees result }
{
    match fault {
        NameFault::Limit(limit) => CheckFault::Limit(limit),
        NameFault::Breaches(rows) => CheckFault::Breaches(rows),
        NameFault::OutOfMemory => CheckFault::OutOfMemory,
    }
}
