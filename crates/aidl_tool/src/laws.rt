//! Laws of what the words of the program mean: over the same files it is one thing at the most, so that runs agree, and one at the least.
ghost use Rattle.std.specs.Prelude.{ℕ, List, map, string_bytes};
ghost use Rattle.version_commands.specs.Acting.{DumpActs, FreezeActs, RehashActs};
ghost use Rattle.aidl_tool.specs.Meant.{meant};
ghost use Rattle.aidl_tool.specs.OneMeaning.{IsOneAct, MeansOne};
ghost use Rattle.aidl_tool.specs.OneRun.{RunsAgree};
ghost use Rattle.aidl_tool.specs.SomeMeaning.{MeansSome};

/// A law of the definitions: over the same files words have one list of writes, one parcel that is due next after the same
/// parcels, and one answer, at the most. So what `aidl` leaves where nothing failed is the one text, the one list of writes and
/// the one list of parcels that are defined.
pub fn law_one_meaning(words: &[String])
    ensures { MeansOne (meant (map string_bytes words.now)) }
{}

/// A law of the definitions: what a command writes and what it answers then go together.
pub fn law_one_act()
    ensures dump { (tree out : List ℕ) → IsOneAct (DumpActs tree out) }
    ensures freeze { (tree api : List ℕ) → IsOneAct (FreezeActs tree api) }
    ensures rehash { (api : List ℕ) → IsOneAct (RehashActs api) }
{}

/// A law of the definitions: two runs of the same words over the same files that both end by a verdict have the same exit, print the same text,
/// leave the same files and carry the same parcels, where both links are faithful or deliver the same.
pub fn law_one_run(words: &[String])
    ensures { RunsAgree (meant (map string_bytes words.now)) }
{
    law_one_meaning(words);
}

/// A law of the definitions: over any files words that are a command have a list of writes, and after any parcels a parcel that is due next or
/// none, and an answer. So no definition of what they mean is empty.
pub fn law_some_meaning()
    ensures { (words : List (List ℕ)) → MeansSome (meant words) }
{}
