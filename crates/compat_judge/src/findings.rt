//! The findings of the judge, collected on its walk and sorted at its end.
ghost use Rattle.std.specs.Prelude.{◌≡◌, ◌++◌, [], ◌∷◌, map, IfOk, string_bytes, true, false};
ghost use Rattle.std.specs.Str.{chars};
ghost use Rattle.std.specs.Fmt.{decimal};
ghost use Rattle.aidl_schema.specs.Broken.{Place, of_rule, place_if, sorted_once};
ghost use Rattle.compat_judge.specs.Seen.{seen};
ghost use Rattle.compat_judge.specs.steps.Adds.{Adds, finding, found_so_far};

use crate::judging::Broken;
use aidl_base::{Ident, OutOfMemory, Row, Text};
use growing::GrowingList;
use std::alloc::{AllocError, Global};

/// What is broken so far, in the order of the walk: a list that remembers a want of memory, so no rule has an error of its own.
#[derive(Drop)]
pub struct Findings {
    pub alloc: Global,
    pub list: GrowingList<Finding>,
}

/// A place, and the number of the rule that is broken there: findings are sorted in this order.
#[derive(PartialEq, Eq, PartialOrd, Ord, Drop)]
pub struct Finding {
    place: String,
    rule: u8,
}

impl Findings {
    pub fn new(alloc: Global) -> Findings
        ensures whole { result.list.is_whole ≡ true }
        ensures empty { found_so_far result ≡ [] }
    {
        Findings {
            alloc,
            list: GrowingList::new(alloc),
        }
    }

    /// Memory was wanted for what a rule needs.
    pub fn lose(&mut self)
        ensures { self.new.list.is_whole ≡ false }
    {
        self.list.lose();
    }

    // Adds a place that was made, if there was memory for it.
    fn add(&mut self, rule: u8, made: Result<String, AllocError>)
        ensures { (place : Place) → IfOk made (λ text. chars (string_bytes text) ≡ place)
            → Adds self.old self.new ((rule, place) ∷ []) }
    {
        match made {
            Ok(place) => self.list.push(Finding { place, rule }),
            Err(_) => self.list.lose(),
        }
    }

    /// Adds the place of a declaration, if it breaks a rule.
    pub fn name_if(&mut self, rule: u8, name: &Text, broken: bool)
        ensures { Adds self.old self.new (of_rule rule (place_if name.now broken)) }
    {
        if broken {
            let place = String::from_str(self.alloc, name.as_str());
            self.add(rule, place);
        }
    }

    /// Adds the place of a member, if it breaks a rule.
    pub fn member_if(&mut self, rule: u8, name: &Text, member: &Ident, broken: bool)
        ensures { Adds self.old self.new
            (of_rule rule (place_if (name.now ++ (46 ∷ member.now.0)) broken)) }
    {
        if broken {
            let name = name.as_str();
            let member = member.0.as_str();
            let place = format!(in self.alloc; "{name}.{member}");
            self.add(rule, place);
        }
    }

    /// Adds the place of a method's argument, if it breaks a rule.
    pub fn argument_if(
        &mut self,
        rule: u8,
        name: &Text,
        method: &Ident,
        position: usize,
        broken: bool,
    )
        ensures { Adds self.old self.new (of_rule rule
            (place_if (name.now ++ (46 ∷ method.now.0) ++ (47 ∷ decimal position)) broken)) }
    {
        if broken {
            let name = name.as_str();
            let method = method.0.as_str();
            let place = format!(in self.alloc; "{name}.{method}/{position}");
            self.add(rule, place);
        }
    }

    /// The findings by the bytes of their places, then by rule, each once, where memory was there for each.
    pub fn sorted_once(self) -> Result<Row<Broken>, OutOfMemory>
        ensures { IfOk result (λ rows. (self.list.is_whole ≡ true)
            × (map seen rows ≡ sorted_once (found_so_far self))) }
    {
        let Findings { alloc, list } = self;
        let mut rows = list.into_vec()?;
        rows.sort_unstable();
        rows.dedup();
        rows_of(alloc, rows)
    }
}

fn rows_of(alloc: Global, findings: Vec<Finding>) -> Result<Row<Broken>, OutOfMemory>
    ensures { IfOk result (λ rows. map seen rows ≡ map finding findings.items) }
{
    let mut rows = Vec::with_capacity(alloc, findings.len())?;
    for finding in findings {
        rows.push(Broken {
            rule: finding.rule,
            place: Text::from_string(finding.place),
        })?;
    }
    Ok(Row::from_vec(rows))
}
