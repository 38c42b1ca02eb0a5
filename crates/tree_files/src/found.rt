//! What is found of the files of a tree, one after another.
ghost use Rattle.std.specs.Prelude.{◌≡◌, ◌≤◌, [], length, List, IfOk, IfErr, OnOk, None};
ghost use Rattle.aidl_base.specs.declared.source_file.SourceFile.{SourceFile};
ghost use Rattle.aidl_syntax.specs.Tokens.{Tokens};
ghost use Rattle.aidl_lexer.specs.Gives.{HasFault};
ghost use Rattle.tree_files.specs.Sizes.{oversized};
ghost use Rattle.tree_files.specs.Parsed.{AreParsed};
ghost use Rattle.tree_files.specs.Refusals.{IsRefusal};
ghost use Rattle.tree_files.specs.steps.Standing.{Stands, Extends, wants_trees};

use crate::fault::{FilesFault, LexBreach};
use aidl_base::{Limit, LimitName, OutOfMemory, Row, SourceFile};
use aidl_lexer::{LexFault, lex};
use aidl_parser::parse;
use aidl_syntax::{ParsedFile, Token};
use expr_parser::ParseFault;
use std::alloc::Global;

/// What is found of the first files of a tree. Once a file has no tokens only `faults` counts; once a limit on tokens
/// is passed, `treeless` and `parsed` no longer do.
#[derive(Drop)]
pub struct Found {
    pub faults: Row<LexBreach>,
    pub limit: Option<LimitName>,
    pub treeless: Row<u32>,
    pub parsed: Row<ParsedFile>,
}

impl Found {
    /// What is found of no file.
    pub fn nothing(alloc: Global) -> Found
        ensures { Stands [] result }
    {
        Found {
            faults: Row::new(alloc),
            limit: None,
            treeless: Row::new(alloc),
            parsed: Row::new(alloc),
        }
    }

    /// Looks at the next file, of the given number and of at most 262,144 bytes.
    pub fn add(&mut self, alloc: Global, number: u32, file: &SourceFile) -> Result<(), OutOfMemory>
        requires { length file.now.bytes ≤ 262144 }
        ensures { OnOk result (Extends number file.now self.old self.new) }
    {
        match lex(alloc, file.bytes.as_slice()) {
            Ok(tokens) => self.add_tokens(alloc, number, file, tokens.as_slice()),
            Err(fault) => self.add_fault(number, fault),
        }
    }

    // The next file has no tokens, because of this fault.
    fn add_fault(&mut self, number: u32, fault: LexFault) -> Result<(), OutOfMemory>
        ensures { OnOk result ((file : SourceFile)
            → HasFault file.bytes fault → Extends number file self.old self.new) }
    {
        match fault {
            LexFault::OutOfMemory => Err(OutOfMemory),
            _ => self.faults.push(LexBreach {
                file: number,
                fault,
            }),
        }
    }

    // Whether trees still count: no file without tokens was found, and no limit.
    fn wants_trees(&self) -> bool
        ensures { result ≡ wants_trees self.now.faults self.now.limit }
    {
        self.faults.len() == 0 && self.limit.is_none()
    }

    // The next file has these tokens.
    fn add_tokens(
        &mut self,
        alloc: Global,
        number: u32,
        file: &SourceFile,
        tokens: &[Token],
    ) -> Result<(), OutOfMemory>
        requires { Tokens file.now.bytes tokens.now }
        ensures { OnOk result (Extends number file.now self.old self.new) }
    {
        if !self.wants_trees() {
            return Ok(());
        }
        match parse(alloc, tokens) {
            Ok(tree) => {
                let path = file.path.try_clone(alloc)?;
                self.parsed.push(ParsedFile { path, tree })
            }
            Err(ParseFault::Limit(limit)) => {
                self.limit = Some(limit.which);
                Ok(())
            }
            Err(ParseFault::Syntax) => self.treeless.push(number),
            Err(ParseFault::OutOfMemory) => Err(OutOfMemory),
        }
    }

    /// The files parsed, or the first refusal.
    pub fn answer(self) -> Result<Row<ParsedFile>, FilesFault>
        ensures ok { IfOk result (λ parsed. (files : List SourceFile)
            → oversized files ≡ None → Stands files self → AreParsed files parsed) }
        ensures err { IfErr result (λ e. (files : List SourceFile)
            → oversized files ≡ None → Stands files self → IsRefusal files e) }
    {
        if self.faults.len() > 0 {
            return Err(FilesFault::Lex(self.faults));
        }
        if let Some(which) = self.limit {
            return Err(FilesFault::Limit(Limit { which }));
        }
        if self.treeless.len() > 0 {
            return Err(FilesFault::Syntax(self.treeless));
        }
        Ok(self.parsed)
    }
}
