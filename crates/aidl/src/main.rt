//! The program `aidl`: words in, printed lines and an exit status out.
#![tactic(auto)]

use aidl_tool::aidl;
use host_outside::{FolderStore, PassLink, StdoutSink};
use std::io::ErrorKind;
use std::process::ExitCode;
use std::{env, io};
use tool_frame::Exit;

fn main(rt: HostRuntime) -> ExitCode {
    match words(&rt) {
        Ok(words) => ExitCode::from(run(&rt, words.as_slice())),
        Err(fault) if fault.kind() == ErrorKind::OutOfMemory => ExitCode::from(
            Exit::OutOfMemory.status(),
        ),
        Err(_) => ExitCode::from(Exit::NoWords.status()),
    }
}

// The words after the program's own name.
fn words(rt: &HostRuntime) -> io::Result<Vec<String>> {
    let mut words = Vec::new(rt.alloc());
    for word in env::args(rt)?.skip(1) {
        if words.push(word).is_err() {
            return Err(io::Error::from(ErrorKind::OutOfMemory));
        }
    }
    Ok(words)
}

// Runs the program over the host's folders and standard output.
fn run(rt: &HostRuntime, words: &[String]) -> u8 {
    let mut store = FolderStore::new(rt, words);
    let mut sink = StdoutSink::new(rt);
    let mut link = PassLink::new();
    aidl(rt.alloc(), words, &mut store, &mut sink, &mut link)
}
