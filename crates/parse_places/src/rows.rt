//! The table of the productions: which row each part has for a terminal.
ghost use Rattle.std.specs.Prelude.{◌≡◌};
ghost use Rattle.parse_places.specs.steps.Seen.{seen};
ghost use Rattle.parse_places.specs.steps.Rows.{row};

use crate::annotations::{annotation_row, parameter_rest_row, parameter_row, parameters_row};
use crate::declarations::{body_row, enumerator_row, member_rest_row, member_row};
use crate::expected::{Expected, Part};
use crate::expressions::{
    expression_row, id_row, initial_row, initializer_row, operand_row, operation_row, value_row,
};
use crate::methods::{
    argument_rest_row, argument_row, interface_member_rest_row, interface_member_row,
    oneway_rest_row,
};
use crate::names::{array_row, dot_name_row, element_row, import_row, package_row, type_row};
use crate::terminal::Terminal;

// What is expected behind the terminal, where the part begins with it.
#[tactic(auto, unfolding(crate::specs::steps::Rows::row))]
pub fn row(part: Part, terminal: Terminal) -> Option<&'static [Expected]>
    ensures { seen result ≡ row part terminal }
{
    match part {
        Part::Package => package_row(terminal),
        Part::Import => import_row(terminal),
        Part::DotName => dot_name_row(terminal),
        Part::Type => type_row(terminal),
        Part::Element => element_row(terminal),
        Part::Array => array_row(terminal),
        Part::Operand => operand_row(terminal),
        Part::Operation => operation_row(terminal),
        Part::Expression => expression_row(terminal),
        Part::Initializer => initializer_row(terminal),
        Part::Initial => initial_row(terminal),
        Part::Value => value_row(terminal),
        Part::Id => id_row(terminal),
        Part::Annotation => annotation_row(terminal),
        Part::Parameters => parameters_row(terminal),
        Part::Parameter => parameter_row(terminal),
        Part::ParameterRest => parameter_rest_row(terminal),
        Part::Enumerator => enumerator_row(terminal),
        Part::Body => body_row(terminal),
        Part::MemberRest => member_rest_row(terminal),
        Part::Member => member_row(terminal),
        Part::ArgumentRest => argument_rest_row(terminal),
        Part::Argument => argument_row(terminal),
        Part::OnewayRest => oneway_rest_row(terminal),
        Part::InterfaceMemberRest => interface_member_rest_row(terminal),
        Part::InterfaceMember => interface_member_row(terminal),
    }
}
