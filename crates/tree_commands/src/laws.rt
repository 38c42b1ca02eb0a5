//! A law of the answers of `check`.
ghost use Rattle.std.specs.Prelude.{◌≡◌};
ghost use Rattle.tool_frame.specs.Answer.{Answer};
ghost use Rattle.tree_commands.specs.Checked.{IsCheckAnswer};

use aidl_base::SourceFile;

/// A law of the definitions: of the files of a tree with a root `check` has at most one answer.
pub fn law_one_check_answer(root: &str, files: &[SourceFile])
    ensures { (first second : Answer)
        → IsCheckAnswer root.now files.now first → IsCheckAnswer root.now files.now second
        → first ≡ second }
{}
