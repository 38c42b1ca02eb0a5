//! The state of printing values, and the JSON of a value and of a number.
ghost use Rattle.std.specs.Prelude.{◌≡◌};
ghost use Rattle.growing.specs.Grows.{Grows};
ghost use Rattle.serde_json.specs.Written.{compact_text};
ghost use Rattle.aidl_values.specs.HasType.{HasType};
ghost use Rattle.aidl_values.specs.View.{view};
ghost use Rattle.json_writing.specs.Json.{json_number};
ghost use Rattle.json_writing.specs.Named.{enumerators_of};
ghost use Rattle.json_writing.specs.ValueText.{value_text};

use crate::decl_rows::DeclRows;
use crate::member_rows::MemberRowMaker;
use crate::object_text::{push_alternative, push_record};
use crate::quoted::push_quoted;
use crate::sequence_text::push_sequence;
use crate::value_names::ValueNames;
use crate::value_text::push_truth;
use aidl_schema::{AidlType, Base, Schema};
use aidl_values::Value;
use growing::GrowingText;
use itoa::Buffer;
use std::alloc::Global;
use std::marker::Model;

/// Prints values of a schema's types as compact JSON. What it finds out of a declaration is kept for the values after it: the
/// names of an enum's values, and the order of a parcelable's members. Contracts see it as the declarations.
pub struct JsonPrinter<'a> {
    pub(crate) schema: &'a Schema,
    names: ValueNames<'a>,
    pub(crate) rows: DeclRows<MemberRowMaker<'a>>,
    digits: Buffer,
}

// By hand, so that one who drops it meets one call and not each table.
impl Drop for JsonPrinter<'_> {
    fn drop(self) {
        let JsonPrinter {
            schema: _,
            names: _,
            rows: _,
            digits: _,
        } = self;
    }
}

impl<'a> Model for JsonPrinter<'a> {
    ghost use Rattle.std.specs.Prelude.{List, ◌≡◌};
    ghost use Rattle.std.specs.Coded.{codes};
    ghost use Rattle.aidl_base.specs.contracts.constant.Const as constant;
    ghost use Rattle.aidl_schema.specs.declared.schema.Decl.{Decl};

    ghost Value = { List Decl };

    ghost coded = { Prim.hlevel (codes, constant.the_row.coded) };

    ghost view = { λ printer. printer.schema.now.decls };

    ghost invariant = { λ printer. record {
      names : printer.names ≡ printer.schema.now.decls;
      rows : printer.rows.schema.now.decls ≡ printer.schema.now.decls;
    } };
}

impl<'a> JsonPrinter<'a> {
    /// Of values of this schema.
    pub fn new(alloc: Global, schema: &'a Schema) -> JsonPrinter<'a>
        ensures { result ≡ schema.now.decls }
    {
        JsonPrinter {
            schema,
            names: ValueNames::new(alloc, schema),
            rows: DeclRows::new(alloc, MemberRowMaker { schema }),
            digits: Buffer::new(),
        }
    }

    /// Adds a value of a type to a text. It goes into the text piece by piece, with no JSON value between, but for a string in
    /// which a character is escaped. After want of memory the printer is as good as before.
    #[cycle(printing)]
    pub fn push_value(
        &mut self,
        alloc: Global,
        ty: &AidlType,
        value: &Value,
        text: &mut GrowingText,
    )
        requires { HasType self.old ty.now (view value.now) }
        ensures same { self.new ≡ self.old }
        ensures text { Grows text.old text.new (value_text self.old ty.now (view value.now)) }
    {
        match value {
            Value::Null => text.push_str("null"),
            Value::Truth(b) => push_truth(*b, text),
            Value::Number(n) => self.push_number(alloc, ty.base, *n, text),
            Value::Text(string) => push_quoted(alloc, string.as_str(), text),
            Value::Seq(elements) => push_sequence(alloc, self, ty, elements, text),
            Value::Rec(values) => push_record(alloc, self, ty, values, text),
            Value::Alt(tag, inner) => push_alternative(alloc, self, ty, *tag, inner, text),
        }
    }

    // Adds a number, by the name of the first enumerator of the base that has it.
    pub(crate) fn push_number(&mut self, alloc: Global, base: Base, n: i64, text: &mut GrowingText)
        ensures same { self.new ≡ self.old }
        ensures text { Grows text.old text.new
            (compact_text (json_number (enumerators_of self.old base) n)) }
    {
        match self.names.name(alloc, base, n) {
            Ok(Some(name)) => push_quoted(alloc, name.0.as_str(), text),
            Ok(None) => text.push_str(self.digits.format(n)),
            Err(_) => text.lose(),
        }
    }
}
