//! The canonical dump reads back.
#![tactic(auto)]

mod laws;

pub use laws::{
    law_dump_back, law_dump_constants, law_dump_files, law_dump_imports, law_dump_names,
    law_dump_parses, law_dump_rules, law_dump_schema, law_dump_tokens, law_dump_tree,
    law_dump_values,
};
