//! The rules on single uses of types: shapes (E16), directions (E17), oneway methods (E18) and types of constants (E20).
ghost use Rattle.std.specs.Prelude.{◌≡◌, ◌++◌, map, OnOk};
ghost use Rattle.std.specs.List.{list_any};
ghost use Rattle.aidl_syntax.specs.Trees.{arg_of, method_of};
ghost use Rattle.declared_names.specs.Entries.{entry_of};
ghost use Rattle.type_rules.specs.Filters.{breaches_at, broken_where};
ghost use Rattle.type_rules.specs.UseRules as meant;
ghost use Rattle.type_rules.specs.TypeRules as types;
ghost use Rattle.type_rules.specs.MethodRules as methods;
ghost use Rattle.type_uses.specs.TypeUseViews.{seen_use};

use aidl_base::{Breach, OutOfMemory};
use aidl_names::add_if;
use aidl_syntax::{ArgTree, MethodTree, WayTree};
use declared_names::Found;
use name_resolution::Resolved;
use type_shapes::{Shape, is_composite};
use type_uses::{TypeUseRef, is_refused, is_refused_result, name_place, type_place};

/// A rule that looks at each use of a type by itself.
#[derive(Clone, Copy)]
pub enum UseRule {
    /// E16
    Shape,
    /// E17
    Direction,
    /// E18
    Oneway,
    /// E20
    Constant,
}

impl UseRule {
    fn number(self) -> u8
        ensures { result ≡ meant.rule_of self }
    {
        match self {
            UseRule::Shape => 16,
            UseRule::Direction => 17,
            UseRule::Oneway => 18,
            UseRule::Constant => 20,
        }
    }

    fn place(self, used: TypeUseRef<'_>) -> u32
        ensures { result ≡ meant.place_of self (seen_use used.entry) }
    {
        match self {
            UseRule::Shape => type_place(used),
            UseRule::Direction => name_place(used),
            UseRule::Oneway => name_place(used),
            UseRule::Constant => name_place(used),
        }
    }
}

/// Adds the breaches of a rule in a declaration of a file, by the types that it uses. It may be an interface that is oneway; `found` are
/// the declarations of the tree.
pub fn add_where(
    found: &[Found<'_>],
    oneway: bool,
    rule: UseRule,
    file: u32,
    uses: &[TypeUseRef<'_>],
    rows: &mut Vec<Breach>,
) -> Result<(), OutOfMemory>
    ensures { OnOk result (rows.new.items ≡ rows.old.items ++ breaches_at (meant.rule_of rule) file
        (broken_where (meant.breaks_of rule (map entry_of found.now) oneway) (meant.place_of rule)
        (map seen_use uses.now))) }
{
    for used in uses {
        let broken = breaks(found, oneway, rule, *used);
        add_if(broken, rule.number(), file, rule.place(*used), rows)?;
    }
    Ok(())
}

fn breaks(found: &[Found<'_>], oneway: bool, rule: UseRule, used: TypeUseRef<'_>) -> bool
    ensures { result ≡ meant.breaks_of rule (map entry_of found.now) oneway (seen_use used.entry) }
{
    match rule {
        UseRule::Shape => is_bad_shape(used),
        UseRule::Direction => is_bad_direction(found, used),
        UseRule::Oneway => is_bad_oneway(oneway, used),
        UseRule::Constant => is_bad_constant(used),
    }
}

fn is_bad_shape(used: TypeUseRef<'_>) -> bool
    ensures { result ≡ types.is_bad_shape (seen_use used.entry) }
{
    match used {
        TypeUseRef::Field(_, shape) => is_refused(shape),
        TypeUseRef::Constant(_, shape) => is_refused(shape),
        TypeUseRef::Method(_, returned) => is_refused_result(returned),
        TypeUseRef::Argument(_, shape) => is_refused(shape),
    }
}

fn is_bad_direction(found: &[Found<'_>], used: TypeUseRef<'_>) -> bool
    ensures { result ≡ types.is_bad_direction (map entry_of found.now) (seen_use used.entry) }
{
    match used {
        TypeUseRef::Argument(arg, shape) => is_misdirected(found, shape, arg.way),
        _ => false,
    }
}

fn is_misdirected(found: &[Found<'_>], shape: Shape, way: Option<WayTree>) -> bool
    ensures { result ≡ types.is_misdirected (map entry_of found.now) shape way }
{
    match shape {
        Shape::One(base) => {
            if is_composite(found, base) {
                way.is_none()
            } else {
                is_outward(way)
            }
        }
        Shape::Array(_) => way.is_none(),
        Shape::List(_) => way.is_none(),
        Shape::Refused => false,
    }
}

fn is_outward(way: Option<WayTree>) -> bool
    ensures { result ≡ types.is_outward way }
{
    match way {
        Some(WayTree::Out) => true,
        Some(WayTree::InOut) => true,
        _ => false,
    }
}

fn is_bad_oneway(oneway: bool, used: TypeUseRef<'_>) -> bool
    ensures { result ≡ methods.is_bad_oneway oneway (seen_use used.entry) }
{
    match used {
        TypeUseRef::Method(method, _) => (oneway || method.oneway) && gives_back(method),
        _ => false,
    }
}

fn gives_back(method: &MethodTree) -> bool
    ensures { result ≡ methods.gives_back (method_of method.now) }
{
    method.result.is_some() || has_outward(method.args.as_slice())
}

fn has_outward(args: &[ArgTree]) -> bool
    ensures { result ≡ list_any (λ a. types.is_outward a.way) (map arg_of args.now) }
{
    for arg in args {
        if is_outward(arg.way) {
            return true;
        }
    }
    false
}

fn is_bad_constant(used: TypeUseRef<'_>) -> bool
    ensures { result ≡ types.is_bad_constant (seen_use used.entry) }
{
    match used {
        TypeUseRef::Constant(_, shape) => !is_constant_type(shape),
        _ => false,
    }
}

fn is_constant_type(shape: Shape) -> bool
    ensures { result ≡ types.is_constant_type shape }
{
    match shape {
        Shape::One(Resolved::Builtin(_)) => true,
        _ => false,
    }
}
