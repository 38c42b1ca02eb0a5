//! The faults of evaluating an expression, with their numbers.
ghost use Rattle.std.specs.Prelude.{◌≡◌};
ghost use Rattle.const_values.specs.Faults.{fault_number};
ghost use Rattle.const_values.specs.Seen.{Gives, answer};

use crate::operand::Operand;
use aidl_base::OutOfMemory;

/// Why an expression has no value.
#[derive(Clone, Copy, Debug, PartialEq, Eq)]
pub enum ConstFault {
    /// 1: a number outside its width, or two texts that `+` would join to more than 4,096 characters
    Overflow,
    /// 2: a divisor 0
    DivideByZero,
    /// 3: a shift by fewer than 0 bits, or by all bits of the width or more
    BadShift,
    /// 4: an operand, or a value for the wanted type, of another kind
    Mismatch,
    /// 5: what depends on itself
    Cycle,
    /// 6: a name without a meaning
    UnknownName,
    /// 7: a number outside the range of the wanted type
    DoesNotFit,
}

impl ConstFault {
    /// Its number, 1 to 7.
    pub fn number(self) -> u8
        ensures { result ≡ fault_number self }
    {
        match self {
            ConstFault::Overflow => 1,
            ConstFault::DivideByZero => 2,
            ConstFault::BadShift => 3,
            ConstFault::Mismatch => 4,
            ConstFault::Cycle => 5,
            ConstFault::UnknownName => 6,
            ConstFault::DoesNotFit => 7,
        }
    }
}

/// Why a call that takes memory has no value.
#[derive(Clone, Copy, Debug, PartialEq, Eq)]
pub enum EvalFault {
    /// the expression has none
    Fault(ConstFault),
    /// memory was wanted and was not there
    OutOfMemory,
}

impl From<OutOfMemory> for EvalFault {
    ghost use Rattle.std.specs.Prelude.{◌≡◌};
    ghost use Rattle.const_values.specs.declared.fault.EvalFault.TheVariants.{OutOfMemory};

    ghost from_gives = { λ _ e. e ≡ OutOfMemory };

    fn from(_fault: OutOfMemory) -> EvalFault {
        EvalFault::OutOfMemory
    }
}

impl From<ConstFault> for EvalFault {
    ghost use Rattle.std.specs.Prelude.{◌≡◌};
    ghost use Rattle.const_values.specs.declared.fault.EvalFault.TheVariants.{Fault};

    ghost from_gives = { λ fault e. e ≡ Fault fault };

    fn from(fault: ConstFault) -> EvalFault {
        EvalFault::Fault(fault)
    }
}

// The same answer, of a call that takes memory.
pub fn without_memory<'a>(given: Result<Operand<'a>, ConstFault>) -> Result<Operand<'a>, EvalFault>
    ensures { Gives result (answer given.entry) }
{
    match given {
        Ok(operand) => Ok(operand),
        Err(fault) => Err(EvalFault::Fault(fault)),
    }
}
