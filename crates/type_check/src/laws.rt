//! Laws of the check: files have one answer and no two, which is a schema or a refusal.
ghost use Rattle.std.specs.Prelude.{◌≡◌, ◌≢◌, ◌⊎◌, List};
ghost use Rattle.aidl_base.specs.declared.source_file.SourceFile.{SourceFile as File};
ghost use Rattle.aidl_schema.specs.declared.schema.Decl.{Decl};
ghost use Rattle.type_check.specs.declared.fault.CheckFault.{CheckFault};
ghost use Rattle.type_check.specs.declared.fault.CheckFault.TheVariants as fault;
ghost use Rattle.type_check.specs.Checked.{IsSchemaOf};
ghost use Rattle.type_check.specs.Refusals.{IsRefusal};

use aidl_base::SourceFile;
use tree_files::law_one_answer;

/// A law of the definitions: files have at most one schema.
pub fn law_one_schema(files: &[SourceFile])
    ensures { (first second : List Decl) → IsSchemaOf files.now first
        → IsSchemaOf files.now second → first ≡ second }
{
    law_one_answer(files);
}

/// A law of the definitions: files have at most one refusal. Want of memory is no refusal here.
pub fn law_one_refusal(files: &[SourceFile])
    ensures { (first second : CheckFault) → first ≢ fault.OutOfMemory → second ≢ fault.OutOfMemory
        → IsRefusal files.now first → IsRefusal files.now second → first ≡ second }
{
    law_one_answer(files);
}

/// A law of the definitions: files never have a schema and a refusal. Want of memory is no refusal here.
pub fn law_never_both(files: &[SourceFile])
    ensures { (schema : List Decl) (refusal : CheckFault) → refusal ≢ fault.OutOfMemory
        → IsSchemaOf files.now schema → IsRefusal files.now refusal → ⊥ }
{
    law_one_answer(files);
}

/// A law of the definitions: files have a schema, or a refusal that is no want of memory.
pub fn law_checked_or_refused()
    ensures { (files : List File) → ((schema : List Decl) × IsSchemaOf files schema)
        ⊎ ((refusal : CheckFault) × (refusal ≢ fault.OutOfMemory) × IsRefusal files refusal) }
{}
