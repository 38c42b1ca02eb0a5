//! The operators of expressions, and the symbols that they are written as.
ghost use Rattle.std.specs.Prelude.{◌≡◌};
ghost use Rattle.const_values.specs.Symbols as symbols;

use aidl_syntax::Symbol;

/// An operator before its operand.
#[derive(Clone, Copy)]
pub enum UnaryOperator {
    /// `+`
    Plus,
    /// `-`
    Minus,
    /// `~`
    Complement,
    /// `!`
    Not,
}

/// `+ - * / %`
#[derive(Clone, Copy)]
pub enum Arithmetic {
    Add,
    Subtract,
    Multiply,
    Divide,
    Remainder,
}

/// `& | ^`
#[derive(Clone, Copy)]
pub enum Bitwise {
    And,
    Or,
    ExclusiveOr,
}

/// `<< >>`
#[derive(Clone, Copy)]
pub enum Shift {
    Left,
    Right,
}

/// `< > <= >=`
#[derive(Clone, Copy)]
pub enum Order {
    Less,
    Greater,
    LessEqual,
    GreaterEqual,
}

/// `== !=`
#[derive(Clone, Copy)]
pub enum Equality {
    Equal,
    NotEqual,
}

/// `&& ||`
#[derive(Clone, Copy)]
pub enum Connective {
    And,
    Or,
}

/// An operator between its operands.
#[derive(Clone, Copy)]
pub enum BinaryOperator {
    Arithmetic(Arithmetic),
    Bitwise(Bitwise),
    Shift(Shift),
    Order(Order),
    Equality(Equality),
    Connective(Connective),
}

/// The operator that a symbol is before an operand, and None where it is none (AOSP, "AIDL language").
pub fn unary_operator(symbol: Symbol) -> Option<UnaryOperator>
    ensures { result ≡ symbols.unary_operator symbol }
{
    match symbol {
        Symbol::Plus => Some(UnaryOperator::Plus),
        Symbol::Minus => Some(UnaryOperator::Minus),
        Symbol::Tilde => Some(UnaryOperator::Complement),
        Symbol::Bang => Some(UnaryOperator::Not),
        _ => None,
    }
}

/// The operator that a symbol is between operands, and None where it is none (AOSP, "AIDL language").
pub fn binary_operator(symbol: Symbol) -> Option<BinaryOperator>
    ensures { result ≡ symbols.binary_operator symbol }
{
    match symbol {
        Symbol::Plus => Some(BinaryOperator::Arithmetic(Arithmetic::Add)),
        Symbol::Minus => Some(BinaryOperator::Arithmetic(Arithmetic::Subtract)),
        Symbol::Star => Some(BinaryOperator::Arithmetic(Arithmetic::Multiply)),
        Symbol::Slash => Some(BinaryOperator::Arithmetic(Arithmetic::Divide)),
        Symbol::Percent => Some(BinaryOperator::Arithmetic(Arithmetic::Remainder)),
        Symbol::And => Some(BinaryOperator::Bitwise(Bitwise::And)),
        Symbol::Or => Some(BinaryOperator::Bitwise(Bitwise::Or)),
        Symbol::Caret => Some(BinaryOperator::Bitwise(Bitwise::ExclusiveOr)),
        Symbol::ShiftLeft => Some(BinaryOperator::Shift(Shift::Left)),
        Symbol::ShiftRight => Some(BinaryOperator::Shift(Shift::Right)),
        Symbol::Less => Some(BinaryOperator::Order(Order::Less)),
        Symbol::Greater => Some(BinaryOperator::Order(Order::Greater)),
        Symbol::LessEqual => Some(BinaryOperator::Order(Order::LessEqual)),
        Symbol::GreaterEqual => Some(BinaryOperator::Order(Order::GreaterEqual)),
        Symbol::EqualEqual => Some(BinaryOperator::Equality(Equality::Equal)),
        Symbol::NotEqual => Some(BinaryOperator::Equality(Equality::NotEqual)),
        Symbol::AndAnd => Some(BinaryOperator::Connective(Connective::And)),
        Symbol::OrOr => Some(BinaryOperator::Connective(Connective::Or)),
        _ => None,
    }
}
