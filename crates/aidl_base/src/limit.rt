//! The limits: their quantities, the printed names and the numbers.
ghost use Rattle.std.specs.Prelude.{◌≡◌};
ghost use Rattle.aidl_base.specs.Limits.{limit_name, limit_number};

/// The quantities that have a limit (own).
#[derive(Clone, Copy, Debug, PartialEq, Eq)]
pub enum LimitName {
    /// `.aidl` files of a tree or of a version folder
    Files,
    /// bytes of one `.aidl` or `.hash` file
    FileBytes,
    /// declarations of a tree, nested ones included
    Declarations,
    /// members of a declaration
    Members,
    /// arguments of a method
    Arguments,
    /// `{` minus `}` before or at a token of a file
    Nesting,
    /// neighbouring tokens without `;`, `,`, `{` or `}`
    RunLength,
    /// bytes of a parcel that is written, or that `decode`, `explain`, `ask` or `replay` reads
    ParcelBytes,
    /// bytes of a calls file, a trace, a value file or a hexadecimal file
    TextBytes,
    /// lines of a calls file or a trace
    Lines,
    /// the highest version number
    Versions,
}

impl LimitName {
    /// The name as it is printed.
    pub fn name(self) -> &'static str
        ensures { result.now ≡ limit_name self }
    {
        match self {
            LimitName::Files => "files",
            LimitName::FileBytes => "file-bytes",
            LimitName::Declarations => "declarations",
            LimitName::Members => "members",
            LimitName::Arguments => "arguments",
            LimitName::Nesting => "nesting",
            LimitName::RunLength => "run-length",
            LimitName::ParcelBytes => "parcel-bytes",
            LimitName::TextBytes => "text-bytes",
            LimitName::Lines => "lines",
            LimitName::Versions => "versions",
        }
    }

    /// The number that the quantity may have at most.
    pub fn number(self) -> u32
        ensures { result ≡ limit_number self }
    {
        match self {
            LimitName::Files => 4096,
            LimitName::FileBytes => 262_144,
            LimitName::Declarations => 16_384,
            LimitName::Members => 4096,
            LimitName::Arguments => 255,
            LimitName::Nesting => 16,
            LimitName::RunLength => 256,
            LimitName::ParcelBytes => 1_048_576,
            LimitName::TextBytes => 16_777_216,
            LimitName::Lines => 65_536,
            LimitName::Versions => 9999,
        }
    }
}

/// A limit that was passed: the quantity is greater than its number.
#[derive(Clone, Copy, Debug, PartialEq, Eq)]
pub struct Limit {
    pub which: LimitName,
}
