//! The comparisons that the tests make. They stand here once, since an assertion in each test costs much more proof.

use std::fmt::Debug;
use std::process::Abort;

/// Ends the test where what is found isn't what is wanted.
pub fn same<T: PartialEq + Debug + Drop>(rt: &impl Abort, found: T, wanted: T) {
    assert_eq!(*rt; found, wanted);
}

/// The same of what is found as text.
pub fn shows<R: Abort + AllocGlobal, T: Debug + Drop>(rt: &R, found: T, wanted: &str) {
    let text = format!(in rt.alloc(); "{found:?}").expect(rt, "memory");
    same(rt, text.as_str(), wanted);
}
