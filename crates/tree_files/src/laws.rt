//! Laws of parsed files: files have one answer and no two, and parsed ones are within the limit on their number.
ghost use Rattle.std.specs.Prelude.{◌≡◌, ◌≢◌, ◌⊎◌, List, map};
ghost use Rattle.aidl_syntax.specs.declared.tree.ParsedFile.{ParsedFile};
ghost use Rattle.aidl_syntax.specs.Sources.{AreOfBytes, source_of};
ghost use Rattle.aidl_base.specs.declared.source_file.SourceFile.{SourceFile as File};
ghost use Rattle.tree_files.specs.declared.fault.FilesFault.{FilesFault};
ghost use Rattle.tree_files.specs.declared.fault.FilesFault.TheVariants as fault;
ghost use Rattle.tree_files.specs.Parsed.{AreParsed};
ghost use Rattle.tree_files.specs.Refusals.{IsRefusal};

use aidl_base::SourceFile;

/// A law of the definitions: files have at most one list of trees or one refusal, and never both. Want of memory is no refusal here.
pub fn law_one_answer(files: &[SourceFile])
    ensures one_list { (first second : List ParsedFile) → AreParsed files.now first
        → AreParsed files.now second → map source_of first ≡ map source_of second }
    ensures one_refusal { (first second : FilesFault)
        → first ≢ fault.OutOfMemory → second ≢ fault.OutOfMemory
        → IsRefusal files.now first → IsRefusal files.now second → first ≡ second }
    ensures never_both { (parsed : List ParsedFile) (refusal : FilesFault) → refusal
        ≢ fault.OutOfMemory → AreParsed files.now parsed → IsRefusal files.now refusal → ⊥ }
{}

/// A law of the definitions: files are parsed, or have a refusal that is no want of memory.
pub fn law_parsed_or_refused()
    ensures { (files : List File) → ((parsed : List ParsedFile) × AreParsed files parsed)
        ⊎ ((refusal : FilesFault) × (refusal ≢ fault.OutOfMemory) × IsRefusal files refusal) }
{}

/// A law of the definitions: files as they are parsed are at most 4,096, each of some bytes.
pub fn law_of_bytes(files: &[SourceFile])
    ensures { (parsed : List ParsedFile) → AreParsed files.now parsed → AreOfBytes parsed }
{}
