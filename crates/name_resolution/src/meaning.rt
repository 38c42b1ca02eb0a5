//! What a name may mean.
/// A built-in type (AOSP, "AIDL language", as far as the profile goes). `Text` is `String`.
#[derive(Clone, Copy, Debug, PartialEq, Eq)]
pub enum BuiltinName {
    Boolean,
    Byte,
    Char,
    Int,
    Long,
    Text,
}

/// What a name means.
#[derive(Clone, Copy, PartialEq, Eq)]
pub enum Resolved {
    /// a built-in type
    Builtin(BuiltinName),
    /// the word `List`
    ListWord,
    /// a name that AIDL has and this profile leaves out
    LeftOut,
    /// a declaration, by its number
    Declared(u32),
}
