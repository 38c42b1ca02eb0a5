//! The commands `check` and `judge`, and a tree for each command that reads one: loaded and checked, with what is printed of its refusal.
#![tactic(auto)]

mod checking;
mod faults;
mod in_tree;
mod judging;
mod laws;
mod lines;
mod loading;
mod opening;
mod places;
mod rule_names;

pub use checking::{check, check_both, check_tree};
pub use faults::fault_answer;
pub use in_tree::{Tree, load_in_tree, schema_in};
pub use judging::{answer_yes, judge, judge_lines, push_break};
pub use laws::law_one_check_answer;
pub use loading::load_both;
pub use opening::{open, open_both};
