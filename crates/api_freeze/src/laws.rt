//! Laws of freezing: schemas with the same dump are the same, and a schema is frozen or refused.
ghost use Rattle.std.specs.Prelude.{◌≡◌, ◌≢◌, ◌⊎◌, List};
ghost use Rattle.aidl_base.specs.declared.source_file.SourceFile.{SourceFile as File};
ghost use Rattle.api_dump.specs.Dump.{dump_text};
ghost use Rattle.api_freeze.specs.declared.fault.FreezeFault.{FreezeFault};
ghost use Rattle.api_freeze.specs.declared.fault.FreezeFault.TheVariants as fault;
ghost use Rattle.api_freeze.specs.Freeze.{IsDump, Ready, RefusedAs};
ghost use Rattle.api_versions.specs.declared.version.Version.{Version};
ghost use Rattle.tree_files.specs.Parsed.{AreParsed};

use aidl_base::SourceFile;
use aidl_schema::Schema;
use aidl_syntax::ParsedFile;
use dump_reading::law_dump_back;
use type_check::law_one_schema;

/// A law of the definitions: two schemas with the same dump are the same, where the files of the dump are parsed, so that they pass no
/// limit on files or tokens. So what is refused as `Unchanged`, and has such a dump, declares what the latest version does.
pub fn law_same_dump(first: &Schema, second: &Schema, files: &[SourceFile], parsed: &[ParsedFile])
    requires dumped { IsDump first.now.decls files.now }
    requires parsed { AreParsed files.now parsed.now }
    requires same { dump_text first.now.decls ≡ dump_text second.now.decls }
    ensures { first.now.decls ≡ second.now.decls }
{
    law_dump_back(first);
    law_dump_back(second);
    law_one_schema(files);
}

/// A law of the definitions: after any versions a schema is ready to be frozen as the next one, or it is refused for a reason that is no want
/// of memory.
pub fn law_ready_or_refused(schema: &Schema)
    ensures { (versions : List Version) → ((files : List File) × Ready versions schema.now.decls files)
        ⊎ ((refusal : FreezeFault) × (refusal ≢ fault.OutOfMemory)
        × RefusedAs versions schema.now.decls refusal) }
{}
