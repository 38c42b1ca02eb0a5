//! The commands of the program, each with its words.

use aidl_base::Profile;

/// A command and its words, one variant for each row of the table of commands. Paths are neither empty nor do they start
/// with `--`; TYPES is one to 255 well-formed entries.
#[derive(Clone, Copy)]
pub enum Command<'a> {
    /// `decode [--lenient] [--tree TREE] TYPES FILE`
    Decode {
        profile: Profile,
        file: TypedFile<'a>,
    },
    /// `encode [--tree TREE] TYPES FILE`
    Encode {
        file: TypedFile<'a>,
    },
    /// `check TREE`
    Check {
        tree: &'a str,
    },
    /// `dump TREE OUT`
    Dump {
        tree: &'a str,
        out: &'a str,
    },
    /// `freeze TREE API`
    Freeze {
        tree: &'a str,
        api: &'a str,
    },
    /// `verify API`
    Verify {
        api: &'a str,
    },
    /// `rehash API`
    Rehash {
        api: &'a str,
    },
    /// `judge OLD NEW`
    Judge {
        old: &'a str,
        new: &'a str,
    },
    /// `witness OLD NEW`
    Witness {
        old: &'a str,
        new: &'a str,
    },
    /// `run [--trace] [--lenient] CLIENT SERVER CALLS`
    Run {
        words: RunWords<'a>,
    },
    /// `make N OUT`, N from 1 to 1,000
    Make {
        count: u32,
        out: &'a str,
    },
    /// `ask API N INTERFACE CODE FILE`, N from 1 to 9,999
    Ask {
        words: AskWords<'a>,
    },
    /// `explain [--tree TREE] TYPES FILE`
    Explain {
        file: TypedFile<'a>,
    },
    /// `replay SERVER INTERFACE TRACE`
    Replay {
        words: ReplayWords<'a>,
    },
}

/// A file with the types of its values, and the tree that declares these, where the words name one.
#[derive(Clone, Copy)]
pub struct TypedFile<'a> {
    pub tree: Option<&'a str>,
    pub types: &'a str,
    pub path: &'a str,
}

/// The words of `run`: the profile by which both sides read, whether what is carried is traced, and the paths of both trees and of
/// the calls file.
#[derive(Clone, Copy)]
pub struct RunWords<'a> {
    pub profile: Profile,
    pub trace: bool,
    pub client: &'a str,
    pub server: &'a str,
    pub calls: &'a str,
}

/// The words of `ask`: the API, the version with the interface and the transaction code, and the file of the request.
#[derive(Clone, Copy)]
pub struct AskWords<'a> {
    pub api: &'a str,
    pub version: u32,
    pub interface: &'a str,
    pub code: u32,
    pub path: &'a str,
}

/// The words of `replay`: the tree of the server, the interface whose requests are answered, and the trace.
#[derive(Clone, Copy)]
pub struct ReplayWords<'a> {
    pub server: &'a str,
    pub interface: &'a str,
    pub trace: &'a str,
}
