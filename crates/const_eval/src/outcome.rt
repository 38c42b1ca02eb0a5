//! The outcome of an item: a value, a fault, or not judged.

use aidl_base::Const;
use const_values::ConstFault;

/// What comes of an item.
#[derive(Drop)]
pub enum Outcome {
    /// its value
    Given(Const),
    /// why it has none
    Fault(ConstFault),
    /// something that it depends on has no value, or the form of its initializer is refused by another rule
    Unjudged,
}
