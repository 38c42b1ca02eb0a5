//! Names that were asked for, with their meanings.
ghost use Rattle.std.specs.Prelude.{◌≡◌, ◌++◌, ◌∷◌, [], OnOk};
ghost use Rattle.name_resolution.specs.Asked.{IsSaid, is_told, said, said_at, said_at_number};

use crate::meaning::Resolved;
use aidl_base::{Ident, OutOfMemory};
use aidl_syntax::DottedTree;
use declared_names::{same, with_parts};
use indexmap::IndexMap;
use std::alloc::Global;
use std::marker::Model;

/// What is known of what a name means through imports.
#[derive(Clone, Copy)]
pub enum Known {
    /// nothing
    Unasked,
    /// its meaning
    Means(Option<Resolved>),
}

impl Known {
    /// Whether a meaning is known.
    pub fn is_told(self) -> bool
        ensures { result ≡ is_told self }
    {
        match self {
            Known::Means(_) => true,
            Known::Unasked => false,
        }
    }
}

/// What a name means through the imports of the file with that number.
#[derive(Clone, Copy)]
pub struct Answer<'a> {
    pub file: u32,
    pub name: &'a DottedTree,
    pub meaning: Option<Resolved>,
}

/// Answers, and places where to look for them by marks. Contracts see them as these answers.
#[derive(Drop)]
pub struct Asked<'a> {
    answers: Vec<Answer<'a>>,
    places: IndexMap<u64, usize>,
}

impl<'a> Model for Asked<'a> {
    ghost use Rattle.std.specs.Prelude.{List};
    ghost use Rattle.name_resolution.specs.declared.asked.Answer.{Answer};

    ghost Value = { List Answer };

    ghost view = { λ asked. asked.answers.items };
}

impl<'a> Asked<'a> {
    /// No answers yet.
    pub fn new(alloc: Global) -> Asked<'a>
        ensures { result ≡ [] }
    {
        Asked {
            answers: Vec::new(alloc),
            places: IndexMap::new(alloc),
        }
    }

    /// What is known of a name in the file with a number.
    pub fn known(&self, file: u32, name: &[Ident]) -> Known
        ensures { IsSaid self.now file name.now result }
    {
        if self.answers.is_empty() {
            return Known::Unasked;
        }
        let mark = with_parts(u64::from(file), name);
        let place = self.places.get(&mark).copied();
        said_at(self.answers.as_slice(), place, file, name)
    }

    /// Adds what a name means in the file with a number.
    pub fn add(
        &mut self,
        file: u32,
        name: &'a DottedTree,
        meaning: Option<Resolved>,
    ) -> Result<(), OutOfMemory>
        ensures { OnOk result (self.new
            ≡ self.old ++ record { file = file; name = name.entry; meaning = meaning } ∷ []) }
    {
        let mark = with_parts(u64::from(file), name.name.0.as_slice());
        self.places.insert(mark, self.answers.len())?;
        self.answers.push(Answer {
            file,
            name,
            meaning,
        })?;
        Ok(())
    }
}

fn said_at(answers: &[Answer<'_>], place: Option<usize>, file: u32, name: &[Ident]) -> Known
    ensures { result ≡ said_at answers.now place file name.now }
{
    match place {
        Some(number) => said_at_number(answers, number, file, name),
        None => Known::Unasked,
    }
}

fn said_at_number(answers: &[Answer<'_>], number: usize, file: u32, name: &[Ident]) -> Known
    ensures { result ≡ said_at_number answers.now number file name.now }
{
    match answers.get(number) {
        Some(answer) => said(answer, file, name),
        None => Known::Unasked,
    }
}

// What an answer says of a name in a file.
fn said(answer: &Answer<'_>, file: u32, name: &[Ident]) -> Known
    ensures { result ≡ said answer.now file name.now }
{
    if answer.file == file && same(answer.name.name.0.as_slice(), name) {
        Known::Means(answer.meaning)
    } else {
        Known::Unasked
    }
}
