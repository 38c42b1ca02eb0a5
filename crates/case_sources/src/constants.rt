//! The outcomes of constant expressions and their breaches, as text.

use crate::names::{comma, push_breaches};
use aidl_base::{Const, OutOfMemory};
use aidl_names::{NameFault, Names};
use aidl_syntax::ParsedFile;
use const_eval::{Outcome, Settled, breaches, eval_all};
use growing::GrowingText;
use std::alloc::Global;

/// The outcomes of the items of a tree in order, and behind them its breaches, if it has some.
pub fn shown_constants(
    alloc: Global,
    files: &[ParsedFile],
    names: &Result<Names<'_>, NameFault>,
) -> Result<String, OutOfMemory> {
    match names {
        Ok(names) => shown_settled(alloc, files, &eval_all(alloc, names)?),
        Err(NameFault::OutOfMemory) => Err(OutOfMemory),
        Err(_) => Ok(String::from_str(alloc, "no names")?),
    }
}

fn shown_settled(
    alloc: Global,
    files: &[ParsedFile],
    settled: &Settled<'_>,
) -> Result<String, OutOfMemory> {
    let mut text = GrowingText::new(alloc);
    push_outcomes(settled, &mut text);
    let broken = breaches(alloc, settled)?;
    if broken.len() > 0 {
        text.push_str("; ");
        push_breaches(files, broken.as_slice(), &mut text);
    }
    text.into_string()
}

fn push_outcomes(settled: &Settled<'_>, text: &mut GrowingText) {
    for item in settled.items() {
        comma(text);
        match settled.init_at(item.file, item.place) {
            Some(init) => push_outcome(settled.outcome(init), text),
            None => text.push_str("no item"),
        }
    }
}

fn push_outcome(outcome: &Outcome, text: &mut GrowingText) {
    match outcome {
        Outcome::Given(value) => push_value(value, text),
        Outcome::Fault(fault) => write!(text, "{fault:?}"),
        Outcome::Unjudged => text.push_str("unjudged"),
    }
}

/// Adds a value as it is written.
pub fn push_value(value: &Const, text: &mut GrowingText) {
    match value {
        Const::Number(n) => write!(text, "{n}"),
        Const::Truth(b) => write!(text, "{b}"),
        Const::Text(words) => write!(text, "\"{}\"", words.as_str()),
        Const::Members(_) => text.push_str("a list"),
    }
}
