//! Which calls of an object in memory fail, and the count of its calls and faults.
ghost use Rattle.std.specs.Prelude.{◌≡◌, ◌↔◌, ◌-◌, ◌^◌, ◌≤◌, ◌<◌, Bool, false, List, [], length, min, Contains, IsTrue};
ghost use Rattle.memory_outside.specs.Failing.{MayBe, after_calls, counted, fails_at, fails_next, uncounted, with_fault};
ghost use Rattle.memory_outside.specs.declared.failures.Failing.{Failing};
ghost use Rattle.memory_outside.specs.declared.failures.Failing.TheVariants.{Numbers, From};

use aidl_base::Row;

/// Which calls of an object in memory fail, by their 0-based numbers.
#[derive(Drop)]
pub enum Failing {
    /// Those with these numbers.
    Numbers(Row<u64>),
    /// The one with this number, and every later one.
    From(u64),
}

/// Which calls of an object in memory fail, with the calls and faults so far.
#[derive(Drop)]
pub struct Failures {
    failing: Failing,
    pub calls: u64,
    pub faults: u64,
}

impl Failures {
    /// These calls fail. No call is counted yet.
    pub fn new(failing: Failing) -> Failures
        ensures { result ≡ uncounted failing }
    {
        Failures {
            failing,
            calls: 0,
            faults: 0,
        }
    }

    /// Counts a call, and answers whether it is one that fails.
    pub fn fails_now(&mut self) -> bool
        ensures fails { result ≡ fails_next self.old }
        ensures counts { self.new ≡ counted false self.old }
    {
        let call = self.calls;
        self.calls = self.calls.saturating_add(1);
        fails_at(&self.failing, call)
    }

    /// Counts a fault.
    pub fn add_fault(&mut self)
        ensures counts { self.new ≡ with_fault self.old }
        ensures never_falls { self.old.faults ≤ self.new.faults }
    {
        self.faults = self.faults.saturating_add(1);
    }
}

fn fails_at(failing: &Failing, call: u64) -> bool
    ensures { result ≡ fails_at failing.now call }
{
    match failing {
        Failing::Numbers(numbers) => numbers.as_slice().contains(&call),
        Failing::From(first) => *first <= call,
    }
}

/// Whatever the calls before it came to, a call is one that fails exactly where its 0-based number was given. Each call past `u64::MAX`
/// has that number.
pub fn law_fails_by_number(failing: &[u64])
    ensures { (before : List Bool)
        → (IsTrue (fails_next (after_calls before (uncounted (Numbers failing.now))))
        ↔ Contains failing.now (min (length before) (2 ^ 64 - 1))) }
{}

/// Where a first number was given, that call fails and every later one, and no other.
pub fn law_fails_from(first: u64)
    ensures { (before : List Bool)
        → (IsTrue (fails_next (after_calls before (uncounted (From first))))
        ↔ (first ≤ length before)) }
{}

/// Where no number was given, no fault is ever counted.
pub fn law_no_number_no_fault()
    ensures { (before : List Bool) → MayBe before (uncounted (Numbers []))
        → (after_calls before (uncounted (Numbers []))).faults ≡ 0 }
{}

/// The number of a call is that of the calls before it, and stands still at `u64::MAX`.
pub fn law_calls_are_numbered()
    ensures { (failing : Failing) (before : List Bool)
        → (after_calls before (uncounted failing)).calls ≡ min (length before) (2 ^ 64 - 1) }
{}
