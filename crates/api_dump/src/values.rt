//! Values in a canonical dump: initializers, constants and the values of enumerators.
#![tactic(auto, using(crate::proofs::Texts::behind), unfolding(crate::specs::Pieces::spelling))]

ghost use Rattle.std.specs.Prelude.{◌≡◌, ◌++◌, ◌∷◌, [], slice_get};
ghost use Rattle.std.specs.List.{find};
ghost use Rattle.std.specs.Ordering.{int_eq};
ghost use Rattle.growing.specs.Grows.{Grows};
ghost use Rattle.aidl_syntax.specs.declared.token.Symbol.TheVariants as mark;
ghost use Rattle.aidl_schema.specs.Names.{enumerators_of};
ghost use Rattle.api_dump.specs.Pieces.{joined, sign, text_of};
ghost use Rattle.api_dump.specs.Values as meant;

use crate::names::push_dotted;
use aidl_base::Const;
use aidl_schema::{AidlType, Backing, Base, Decl, Enumerator, Kind, Shape};
use growing::GrowingText;

/// Adds ` = VALUE`, where there is an initializer.
pub fn push_initial(decls: &[Decl], ty: &AidlType, initial: &Option<Const>, text: &mut GrowingText)
    ensures { Grows text.old text.new (text_of (meant.initial decls.now ty.now initial.now)) }
{
    if let Some(constant) = initial {
        text.push_str(" = ");
        match (ty.shape, constant) {
            (Shape::One, _) => push_value(decls, ty.base, constant, text),
            (_, Const::Members(members)) => push_list(decls, ty.base, members.as_slice(), text),
            _ => {}
        }
    }
}

// Adds a list in braces.
fn push_list(decls: &[Decl], base: Base, constants: &[Const], text: &mut GrowingText)
    ensures { Grows text.old text.new (text_of (sign mark.OpenBrace ∷ (joined
        (λ c. meant.value decls.now base c) constants.now ++ (sign mark.CloseBrace ∷ [])))) }
{
    text.push_str("{");
    push_values(decls, base, constants, text);
    text.push_str("}");
}

// Adds values joined by commas.
fn push_values(decls: &[Decl], base: Base, constants: &[Const], text: &mut GrowingText)
    ensures { Grows text.old text.new (text_of
        (joined (λ c. meant.value decls.now base c) constants.now)) }
{
    let [first, others @ ..] = constants else {
        return;
    };
    push_value(decls, base, first, text);
    for constant in others {
        text.push_str(", ");
        push_value(decls, base, constant, text);
    }
}

/// Adds one value, by its type.
pub fn push_value(decls: &[Decl], base: Base, constant: &Const, text: &mut GrowingText)
    ensures { Grows text.old text.new (text_of (meant.value decls.now base constant.now)) }
{
    match constant {
        Const::Truth(true) => text.push_str("true"),
        Const::Truth(false) => text.push_str("false"),
        Const::Number(number) => push_number(decls, base, *number, text),
        Const::Text(words) => write!(text, "\"{}\"", words.as_str()),
        Const::Members(_) => {}
    }
}

// Adds a number, by its type.
fn push_number(decls: &[Decl], base: Base, number: i64, text: &mut GrowingText)
    ensures { Grows text.old text.new (text_of (meant.number decls.now base number)) }
{
    match base {
        Base::Char => write!(text, "'{}'", character_of(number)),
        Base::Long => push_long(number, text),
        Base::Named(declared) => push_named(decls, declared, number, text),
        Base::Boolean | Base::Byte | Base::Int | Base::Text => write!(text, "{number}"),
    }
}

// The character of an ASCII code.
fn character_of(number: i64) -> char
    ensures { result ≡ meant.character_of number }
{
    if 0 <= number && number < 128 {
        number as u8 as char
    } else {
        '?'
    }
}

// Adds a value of an enum: the canonical name, and that of the first enumerator of the value.
fn push_named(decls: &[Decl], declared: u32, number: i64, text: &mut GrowingText)
    ensures { Grows text.old text.new (text_of
        (meant.named_value (slice_get decls.now declared) number)) }
{
    match decls.get(declared as usize) {
        None => {}
        Some(decl) => {
            push_dotted(decl.name.0.as_slice(), text);
            push_enumerator(enumerators_of(&decl.kind), number, text);
        }
    }
}

fn enumerators_of(kind: &Kind) -> &[Enumerator]
    ensures { result.now ≡ enumerators_of kind.now }
{
    match kind {
        Kind::Enum(_, enumerators) => enumerators.as_slice(),
        Kind::Interface(_) | Kind::Parcelable(_) | Kind::Union(_) => &[],
    }
}

// Adds a dot and the first enumerator of a value.
fn push_enumerator(enumerators: &[Enumerator], number: i64, text: &mut GrowingText)
    ensures { Grows text.old text.new (text_of
        (meant.after_dot (find (λ e. int_eq e.value number) enumerators.now))) }
{
    for enumerator in enumerators {
        if enumerator.value == number {
            text.push_str(".");
            text.push_str(enumerator.name.0.as_str());
            return;
        }
    }
}

/// Adds an enumerator's value, by the backing of its enum.
pub fn push_backed(backing: Backing, number: i64, text: &mut GrowingText)
    ensures { Grows text.old text.new (text_of (meant.of_backing backing number)) }
{
    match backing {
        Backing::Byte | Backing::Int => write!(text, "{number}"),
        Backing::Long => push_long(number, text),
    }
}

// Adds a long number. The least has no decimal.
fn push_long(number: i64, text: &mut GrowingText)
    ensures { Grows text.old text.new (text_of (meant.long_of number)) }
{
    if number == i64::MIN {
        text.push_str("0x8000000000000000");
    } else {
        write!(text, "{number}L");
    }
}
