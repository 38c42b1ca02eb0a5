//! The comparison operators, and the connectives `&&` and `||`.
ghost use Rattle.std.specs.Prelude.{◌≡◌};
ghost use Rattle.const_values.specs.Comparisons as meant;

use crate::operator::{Connective, Equality, Order};

// `< > <= >=` of two numbers.
pub fn order_of(operator: Order, a: i64, b: i64) -> bool
    ensures { result ≡ meant.order_of operator a b }
{
    match operator {
        Order::Less => a < b,
        Order::Greater => a > b,
        Order::LessEqual => a <= b,
        Order::GreaterEqual => a >= b,
    }
}

// `== !=`, of whether two values are the same.
pub fn equality_of(operator: Equality, same: bool) -> bool
    ensures { result ≡ meant.equality_of operator same }
{
    match operator {
        Equality::Equal => same,
        Equality::NotEqual => !same,
    }
}

// `&& ||` of two truth values.
pub fn connective_of(operator: Connective, a: bool, b: bool) -> bool
    ensures { result ≡ meant.connective_of operator a b }
{
    match operator {
        Connective::And => a && b,
        Connective::Or => a || b,
    }
}
