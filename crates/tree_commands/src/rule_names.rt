//! The names of the check rules E1 to E24.
ghost use Rattle.std.specs.Prelude.{◌≡◌};
ghost use Rattle.tree_commands.specs.RuleNames as meant;

/// The printed name of a check rule, by its number from 1 for E1 to 24 for E24.
pub fn rule_name(rule: u8) -> &'static str
    ensures { result.now ≡ meant.rule_name rule }
{
    if rule <= 5 {
        match rule {
            1 => "WrongFile",
            2 => "Duplicate",
            3 => "UnknownImport",
            4 => "UnknownType",
            _ => "LeftOutType",
        }
    } else if rule <= 12 {
        match rule {
            6 => "Overflow",
            7 => "DivideByZero",
            8 => "BadShift",
            9 => "Mismatch",
            10 => "Cycle",
            11 => "UnknownName",
            _ => "DoesNotFit",
        }
    } else {
        match rule {
            13 => "BadAnnotation",
            14 => "BadNullable",
            15 => "BadBacking",
            16 => "BadShape",
            17 => "BadDirection",
            18 => "BadOneway",
            19 => "BadId",
            20 => "BadConstant",
            21 => "BadField",
            22 => "HoldsItself",
            23 => "DefaultTooLarge",
            _ => "NotFixed",
        }
    }
}
