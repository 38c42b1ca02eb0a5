//! Laws of the canonical dump: its tokens, trees, names, constants and rules, and that it reads back as its schema.
ghost use Rattle.std.specs.Prelude.{◌≡◌, ◌≢◌, ◌<◌, ℕ, true, [], List, Some, length, map, slice_get};
ghost use Rattle.std.specs.List.{All};
ghost use Rattle.std.specs.List.Sorted.{IsStrictlyIncreasing};
ghost use Rattle.aidl_base.specs.declared.source_file.SourceFile.{SourceFile};
ghost use Rattle.aidl_syntax.specs.declared.tree.ParsedFile.{ParsedFile};
ghost use Rattle.aidl_syntax.specs.Walks.{places_of};
ghost use Rattle.tree_files.specs.declared.fault.LexBreach.{LexBreach};
ghost use Rattle.tree_files.specs.Parsed.{AreParsed};
ghost use Rattle.type_check.specs.declared.fault.CheckFault.{CheckFault};
ghost use Rattle.type_check.specs.declared.fault.CheckFault.TheVariants as fault;
ghost use Rattle.type_check.specs.Checked.{IsSchemaOf};
ghost use Rattle.type_check.specs.Refusals.{IsRefusal};
ghost use Rattle.dump_reading.specs.Files.{AreDumped};
ghost use Rattle.const_eval.specs.Breaches.{breaches};
ghost use Rattle.const_items.specs.Items.{items};
ghost use Rattle.tree_schema.specs.Checked.{AreOutcomes, IsChecked};
ghost use Rattle.tree_schema.specs.SchemaOf.{schema_of};
ghost use Rattle.type_rules.specs.Breaches as rules;
ghost use Rattle.type_rules.specs.Unbroken.{AreUnbroken};
ghost use Rattle.const_eval.specs.Outcomes.{HasOutcome, is_given};
ghost use Rattle.const_eval.specs.declared.outcome.Outcome.{Outcome};
ghost use Rattle.aidl_names.specs.Rules.{UnknownImport, WrongFile, other_imports};
ghost use Rattle.declared_names.specs.Numbered.{in_each};
ghost use Rattle.aidl_names.specs.Refusals.{IsAccepted};
ghost use Rattle.aidl_syntax.specs.Sources.{Source};
ghost use Rattle.declared_names.specs.Declarations.{Entry, declarations};
ghost use Rattle.dump_reading.specs.Declared.{AreDeclared, IsDeclaration};
ghost use Rattle.dump_reading.specs.Valued.{HasValues};
ghost use Rattle.dump_reading.specs.Dumped.{AreSources};
ghost use Rattle.std.specs.Cmp.Lexicographic.{slice_cmp};
ghost use Rattle.std.specs.List.Sorted.{IsStrictlySortedBy};
ghost use Rattle.std.specs.Ordering.{nat_cmp};
ghost use Rattle.api_dump.specs.Dump.{dump_text};
ghost use Rattle.dump_reading.specs.Reading.{HasEachFile, HaveTokens, HaveTrees};

use aidl_schema::{Schema, law_valid};

/// The paths of a canonical dump ascend by their bytes, so no two files have one path, and each declaration of the schema that
/// stands in no other has its file.
pub fn law_dump_files(schema: &Schema)
    ensures sorted { IsStrictlySortedBy (slice_cmp nat_cmp)
        (map (λ f. f.0) (dump_text schema.now.decls)) }
    ensures whole { HasEachFile schema.now.decls }
{
    law_valid(schema);
}

/// Each file of the canonical dump of a schema has tokens.
pub fn law_dump_tokens(schema: &Schema)
    ensures { HaveTokens schema.now.decls }
{
    law_valid(schema);
}

/// The tokens of each file of the canonical dump of a schema stand for a tree: but for its offsets it is that of the file's
/// declaration (`file_tree`).
pub fn law_dump_tree(schema: &Schema)
    ensures { HaveTrees schema.now.decls }
{}

/// What stands for a canonical dump breaks neither E1 nor E3, and E2 by no import.
pub fn law_dump_imports(schema: &Schema)
    ensures { (files : List Source)
        → AreSources schema.now.decls (dump_text schema.now.decls) files
        → (WrongFile files ≡ []) × (UnknownImport files ≡ [])
        × (in_each other_imports 0 files ≡ []) }
{
    law_valid(schema);
}

/// What stands for a canonical dump has exactly the declarations of the schema, passes no limit on declarations and breaks no
/// rule of the names stage.
pub fn law_dump_names(schema: &Schema)
    ensures declared { (files : List Source)
        → AreSources schema.now.decls (dump_text schema.now.decls) files
        → AreDeclared schema.now.decls files }
    ensures accepted { (files : List Source)
        → AreSources schema.now.decls (dump_text schema.now.decls) files
        → IsAccepted files }
{
    law_valid(schema);
}

/// Where the places in each tree ascend, as they do in a tree of tokens, each item of what stands for a canonical dump has a
/// value, so no rule of the constants stage is broken.
pub fn law_dump_constants(schema: &Schema)
    ensures given { (files : List Source)
        → AreSources schema.now.decls (dump_text schema.now.decls) files
        → All (λ s. IsStrictlyIncreasing (places_of s.tree)) files
        → (n : ℕ) (o : Outcome) → n < length (items files) → HasOutcome files n o
        → is_given o ≡ true }
    ensures unbroken { (files : List Source)
        → AreSources schema.now.decls (dump_text schema.now.decls) files
        → All (λ s. IsStrictlyIncreasing (places_of s.tree)) files
        → (outcomes : ℕ → Outcome) → AreOutcomes files outcomes
        → breaches outcomes (items files) ≡ [] }
{
    law_valid(schema);
}

/// Where the places in each tree ascend, the values of constants, initializers and enumerators in each declaration of what stands for a
/// canonical dump are those of its declaration in the schema.
pub fn law_dump_values(schema: &Schema)
    ensures { (files : List Source)
        → AreSources schema.now.decls (dump_text schema.now.decls) files
        → All (λ s. IsStrictlyIncreasing (places_of s.tree)) files
        → (outcomes : ℕ → Outcome) → AreOutcomes files outcomes
        → (j : ℕ) (e : Entry) → slice_get (declarations files) j ≡ Some e
        → (n : ℕ) × (is : IsDeclaration schema.now.decls files n e)
        × HasValues files outcomes j e is.declared }
{
    law_valid(schema);
}

/// No declaration of what stands for a canonical dump breaks one of E13 to E21 and E24.
pub fn law_dump_rules(schema: &Schema)
    ensures unbroken { (files : List Source)
        → AreSources schema.now.decls (dump_text schema.now.decls) files
        → AreUnbroken files }
    ensures unlisted { (files : List Source)
        → AreSources schema.now.decls (dump_text schema.now.decls) files
        → rules.breaches files ≡ [] }
{
    law_valid(schema);
}

/// Where the places in each tree ascend, the schema of what stands for a canonical dump is the one that was dumped, and all that is asked of a
/// tree whose schema is valid holds: no rule from E6 on is broken.
pub fn law_dump_schema(schema: &Schema)
    ensures same { (files : List Source)
        → AreSources schema.now.decls (dump_text schema.now.decls) files
        → All (λ s. IsStrictlyIncreasing (places_of s.tree)) files
        → (outcomes : ℕ → Outcome) → AreOutcomes files outcomes
        → schema_of files outcomes ≡ schema.now.decls }
    ensures checked { (files : List Source)
        → AreSources schema.now.decls (dump_text schema.now.decls) files
        → All (λ s. IsStrictlyIncreasing (places_of s.tree)) files
        → (outcomes : ℕ → Outcome) → AreOutcomes files outcomes
        → IsChecked files outcomes }
{
    law_valid(schema);
}

/// Files with the paths and bytes of a canonical dump are never refused for want of tokens or of a tree.
pub fn law_dump_parses(schema: &Schema)
    ensures tokens { (files : List SourceFile) → AreDumped schema.now.decls files
        → (rows : List LexBreach) → IsRefusal files (fault.Lex rows) → ⊥ }
    ensures trees { (files : List SourceFile) → AreDumped schema.now.decls files
        → (rows : List ℕ) → IsRefusal files (fault.Syntax rows) → ⊥ }
{}

/// The canonical dump reads back: where files with its paths and bytes are parsed, so that no limit on files or tokens is passed, their
/// schema is the one that was dumped, and they are refused for nothing: for no limit and no breach.
pub fn law_dump_back(schema: &Schema)
    ensures schema { (files : List SourceFile) (trees : List ParsedFile)
        → AreDumped schema.now.decls files → AreParsed files trees
        → IsSchemaOf files schema.now.decls }
    ensures unrefused { (files : List SourceFile) (trees : List ParsedFile)
        → AreDumped schema.now.decls files → AreParsed files trees
        → (refusal : CheckFault) → refusal ≢ fault.OutOfMemory → IsRefusal files refusal → ⊥ }
{}
