//! Statements that leave each INT one of its values.

ghost use Rattle.std.specs.Prelude.{◌≡◌, ◌+◌, ◌<◌, ◌^◌, ◌==◌, ◌↔◌, ℕ, IfNone, IfSome, IsTrue, None, Some, length, slice_get, slice_index_or, true};
ghost use Rattle.st_statements.specs.declared.statement.StatementList.{StatementList};
ghost use Rattle.st_integers.specs.Settings.{BySettings, IsConstant, IsSetting, Sets, is_on, switched_on};
ghost use Rattle.st_integers.specs.Values.{HasOne, HaveOne, KeepOne, is_of_integer, stands_for};

use crate::value::{IntegerValue, is_of_integer, value_of};
use st_expression::Expression;
use st_statements::StatementList;

/// Whether a variable stands for a value of the INT and is on.
fn is_on(values: &[Option<IntegerValue>], on: &[bool], integer: usize, variable: usize) -> bool
    ensures { IsTrue result ↔ ((stands_for values.now integer variable ≡ true) × (slice_get on.now variable ≡ Some true)) }
{
    match on.get(variable) {
        Some(on) => *on && is_of_integer(integer, value_of(values, variable)),
        None => false,
    }
}

/// The first variable of an INT that is on.
fn first_on(values: &[Option<IntegerValue>], on: &[bool], integer: usize) -> Option<usize>
    ensures some { IfSome result (λ k. (stands_for values.now integer k ≡ true) × (slice_get on.now k ≡ Some true)) }
    ensures none { IfNone result ((k : ℕ) → stands_for values.now integer k ≡ true → slice_get on.now k ≡ Some true → ⊥) }
{
    for variable in 0..values.len() {
        if is_on(values, on, integer, variable) {
            return Some(variable);
        }
    }
    None
}

/// Whether a variable is on just where it is the chosen one, if it stands for a value of the INT.
fn is_as_chosen(
    values: &[Option<IntegerValue>],
    on: &[bool],
    integer: usize,
    chosen: usize,
    variable: usize,
) -> bool
    ensures { IsTrue result ↔ (stands_for values.now integer variable ≡ true → slice_get on.now variable ≡ Some (variable == chosen)) }
{
    if !is_of_integer(integer, value_of(values, variable)) {
        return true;
    }
    match on.get(variable) {
        Some(on) => *on == (variable == chosen),
        None => false,
    }
}

/// Whether of the variables that stand for values of the INT the chosen one alone is on.
fn is_chosen(values: &[Option<IntegerValue>], on: &[bool], integer: usize, chosen: usize) -> bool
    ensures { IsTrue result ↔ ((k : ℕ) → stands_for values.now integer k ≡ true → slice_get on.now k ≡ Some (k == chosen)) }
{
    for variable in 0..values.len() {
        if !is_as_chosen(values, on, integer, chosen, variable) {
            return false;
        }
    }
    true
}

/// Whether of the variables that stand for values of the INT exactly one is on.
fn has_one(values: &[Option<IntegerValue>], on: &[bool], integer: usize) -> bool
    ensures { IsTrue result ↔ HasOne values.now on.now integer }
{
    match first_on(values, on, integer) {
        Some(chosen) => is_chosen(values, on, integer, chosen),
        None => false,
    }
}

/// Whether the INT of a value has one, if it is a value.
fn has_its_one(values: &[Option<IntegerValue>], on: &[bool], of: Option<IntegerValue>) -> bool
    ensures { IsTrue result ↔ ((integer : ℕ) → is_of_integer integer of ≡ true → HasOne values.now on.now integer) }
{
    match of {
        Some(of) => has_one(values, on, of.integer),
        None => true,
    }
}

/// Whether each INT has one of its values: of the variables that stand for them exactly one is on.
pub fn have_one(values: &[Option<IntegerValue>], on: &[bool]) -> bool
    ensures { IsTrue result ↔ HaveOne values.now on.now }
{
    for variable in 0..values.len() {
        if !has_its_one(values, on, value_of(values, variable)) {
            return false;
        }
    }
    true
}

/// Whether it is the constant TRUE.
fn is_constant_on(expression: &Expression) -> bool
    ensures { result ≡ is_on expression.now }
{
    match expression {
        Expression::Constant(on) => *on,
        _ => false,
    }
}

/// The variable that the first assignment of TRUE switches on.
#[tactic(auto, unfolding(crate::specs::Settings::switched_on))]
fn switched_on(list: &StatementList) -> Option<usize>
    ensures { result ≡ switched_on list.now }
{
    match list {
        StatementList::Assign {
            variable,
            value,
            next,
        } => {
            if is_constant_on(value) {
                Some(*variable)
            } else {
                switched_on(next)
            }
        }
        _ => None,
    }
}

/// The statements behind an assignment of a constant that a list begins with.
fn constant_to(list: &StatementList, variable: usize, on: bool) -> Option<&StatementList>
    ensures some { IfSome result (λ next. IsConstant variable on next.now list.now) }
    ensures none { IfNone result ((next : StatementList) → IsConstant variable on next list.now → ⊥) }
{
    match list {
        StatementList::Assign {
            variable: other,
            value: Expression::Constant(value),
            next,
        } if *other == variable && *value == on => Some(next),
        _ => None,
    }
}

/// The statements behind a setting of the variables from a number on, of which the values are given.
fn behind_setting<'a>(
    values: &[Option<IntegerValue>],
    integer: usize,
    chosen: usize,
    number: usize,
    list: &'a StatementList,
) -> Option<&'a StatementList>
    requires { number + length values.now < 2 ^ 64 }
    ensures some { IfSome result (λ rest. IsSetting values.now integer chosen number rest.now list.now) }
    ensures none { IfNone result ((rest : StatementList) → IsSetting values.now integer chosen number rest list.now → ⊥) }
{
    let [of, more @ ..] = values else {
        return Some(list);
    };
    if !is_of_integer(integer, *of) {
        return behind_setting(more, integer, chosen, number + 1, list);
    }
    let next = constant_to(list, number, number == chosen)?;
    behind_setting(more, integer, chosen, number + 1, next)
}

/// The statements behind a setting of the INT that a list begins with.
fn behind<'a>(
    values: &[Option<IntegerValue>],
    integer: usize,
    list: &'a StatementList,
) -> Option<&'a StatementList>
    ensures some { IfSome result (λ rest. Sets values.now integer rest.now list.now) }
    ensures none { IfNone result ((rest : StatementList) → Sets values.now integer rest list.now → ⊥) }
{
    let chosen = switched_on(list)?;
    if !is_of_integer(integer, value_of(values, chosen)) {
        return None;
    }
    behind_setting(values, integer, chosen, 0, list)
}

/// Whether statements write the variables that stand for values by settings alone.
fn is_by_settings(values: &[Option<IntegerValue>], list: &StatementList) -> bool
    ensures { IsTrue result ↔ BySettings values.now list.now }
{
    match list {
        StatementList::End => true,
        StatementList::Assign { variable, next, .. } => match value_of(values, *variable) {
            Some(of) => match behind(values, of.integer, list) {
                Some(rest) => is_by_settings(values, rest),
                None => false,
            },
            None => is_by_settings(values, next),
        },
        StatementList::Trigger { output, next, .. } => {
            value_of(values, *output).is_none() && is_by_settings(values, next)
        }
        StatementList::Call { next, .. } => is_by_settings(values, next),
        StatementList::Select {
            accepted,
            otherwise,
            next,
            ..
        } => {
            is_by_settings(values, accepted)
                && is_by_settings(values, otherwise)
                && is_by_settings(values, next)
        }
        StatementList::Return { .. } => true,
    }
}

/// Whether statements write the variables that stand for values by settings alone, so that each INT keeps one of its values.
#[tactic(auto, using(crate::proofs::Kept::keep_by_settings))]
pub fn keep_one(values: &[Option<IntegerValue>], list: &StatementList) -> bool
    ensures keeps { IsTrue result → KeepOne values.now list.now }
    ensures accepts { BySettings values.now list.now → IsTrue result }
{
    is_by_settings(values, list)
}
