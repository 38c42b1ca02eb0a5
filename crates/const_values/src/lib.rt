//! What a constant expression is: operands with their widths, operators, faults, literals and wanted types, exactly by the
//! definition, by what names mean. Which item a name means stands above it.
#![tactic(auto)]

mod arithmetic;
mod binary_values;
mod bitwise;
mod compare;
mod evaluation;
mod fault;
mod join;
mod laws;
mod literals;
mod operand;
mod operator;
mod shift;
mod unary_values;
mod wanted;
mod width;

pub use binary_values::binary;
pub use evaluation::{Meanings, evaluate};
pub use fault::{ConstFault, EvalFault};
pub use laws::{
    law_complement, law_decimal_is_its_number, law_left_shift_multiplies, law_remainder,
    law_right_shift_rounds_down,
};
pub use literals::literal;
pub use operand::{Operand, Words};
pub use operator::{
    Arithmetic, BinaryOperator, Bitwise, Connective, Equality, Order, Shift, UnaryOperator,
};
pub use unary_values::unary;
pub use wanted::{Wanted, fit};
pub use width::Width;
