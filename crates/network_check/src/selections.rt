//! Selections, and the statements within them.

ghost use Rattle.std.specs.Prelude.{◌≡◌, IfSome, IsTrue, Bool};
ghost use Rattle.st_expression.specs.declared.expression.Operand.{Operand};
ghost use Rattle.st_expression.specs.Value.{value};
ghost use Rattle.st_statements.specs.declared.statement.StatementList.TheVariants.{End};
ghost use Rattle.network_check.specs.Doing.{IsChoice, IsReturn, IsSelection, Latches};

use st_expression::Expression;
use st_statements::StatementList;

/// Whether no statement is left.
pub(crate) fn is_end(list: &StatementList) -> bool
    ensures { IsTrue result → list.now ≡ End }
{
    matches!(list, StatementList::End)
}

/// An IF, and the statements behind it.
#[derive(Clone, Copy)]
pub(crate) struct Choice<'a> {
    pub condition: &'a Expression,
    pub accepted: &'a StatementList,
    /// Those of its ELSE; none where it has none.
    pub otherwise: &'a StatementList,
    pub next: &'a StatementList,
}

/// The IF that a list begins with.
pub(crate) fn choice_of(list: &StatementList) -> Option<Choice<'_>>
    ensures { IfSome result (λ x. IsChoice x.condition.now x.accepted.now x.otherwise.now x.next.now list.now) }
{
    match list {
        StatementList::Select {
            condition,
            accepted,
            otherwise,
            next,
        } => Some(Choice {
            condition,
            accepted,
            otherwise,
            next,
        }),
        _ => None,
    }
}

/// The IF without ELSE that a list begins with: its condition, its statements and those behind it.
pub(crate) fn selection_of(
    list: &StatementList,
) -> Option<(&Expression, &StatementList, &StatementList)>
    ensures { IfSome result (λ x. IsSelection x.0.now x.1.now x.2.now list.now) }
{
    match list {
        StatementList::Select {
            condition,
            accepted,
            otherwise,
            next,
        } if is_end(otherwise) => Some((condition, accepted, next)),
        _ => None,
    }
}

/// Whether an expression is this constant.
#[tactic(auto, unfolding(st_expression::specs::Value::value))]
fn is_constant(expression: &Expression, on: bool) -> bool
    ensures { IsTrue result → (env : Operand → Bool) → value env expression.now ≡ on }
{
    match expression {
        Expression::Constant(found) => *found == on,
        _ => false,
    }
}

/// Whether statements are `variable := on;` alone.
pub(crate) fn latches(list: &StatementList, variable: usize, on: bool) -> bool
    ensures { IsTrue result → Latches variable on list.now }
{
    match list {
        StatementList::Assign {
            variable: written,
            value,
            next,
        } if *written == variable && is_constant(value, on) => is_end(next),
        _ => false,
    }
}

/// Whether statements begin with a RETURN.
pub(crate) fn is_return(list: &StatementList) -> bool
    ensures { IsTrue result → IsReturn list.now }
{
    matches!(list, StatementList::Return { .. })
}
