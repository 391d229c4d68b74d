//! The values of expressions.

ghost use Rattle.std.specs.Prelude.{◌≡◌, Some, None, IfOk, option_map, if◌then◌else◌};
ghost use Rattle.std.specs.List.{list_any};
ghost use Rattle.idl_meaning.specs.Constants as spec;
ghost use Rattle.idl_meaning.specs.Scopes.{visible};
ghost use Rattle.idl_names.specs.Views.{inside_of};

use crate::here::Here;
use crate::numbers::{or_bits, shifted_left, shifted_right, spelled};
use idl_grammar::ExprStep;
use std::alloc::Global;
use std::collections::VecDeque;
use xp_base::Memory;

/// What an operator makes of two values.
fn binary(step: &ExprStep, left: i64, right: i64) -> Option<i64>
    ensures { result ≡ spec.binary step.now left right }
{
    match step {
        ExprStep::Or => Some(or_bits(left, right)),
        ExprStep::Shl => shifted_left(left, right),
        ExprStep::Shr => shifted_right(left, right),
        ExprStep::Add => left.checked_add(right),
        ExprStep::Sub => left.checked_sub(right),
        ExprStep::Mul => left.checked_mul(right),
        _ => None,
    }
}

/// The two latest values, joined; they are taken away.
fn joined(step: &ExprStep, values: &mut VecDeque<i64>) -> Option<i64>
    ensures { option_map (spec.put_on values.new.items) result
        ≡ spec.joined (spec.binary step.now) values.old.items }
{
    let right = values.pop_front()?;
    let left = values.pop_front()?;
    binary(step, left, right)
}

/// The latest value, negated; it is taken away.
fn negated(values: &mut VecDeque<i64>) -> Option<i64>
    ensures { option_map (spec.put_on values.new.items) result ≡ spec.negated values.old.items }
{
    let value = values.pop_front()?;
    0i64.checked_sub(value)
}

/// The value that a step makes; those that it takes are taken away.
fn next(here: &Here<'_, '_>, step: &ExprStep, values: &mut VecDeque<i64>) -> Option<i64>
    ensures { option_map (spec.put_on values.new.items) result
        ≡ spec.advanced (visible (inside_of here.now)) step.now values.old.items }
{
    match step {
        ExprStep::Number(text) => spelled(text.as_slice()),
        ExprStep::Name(name) => here.find(name.as_slice()),
        ExprStep::Neg => negated(values),
        _ => joined(step, values),
    }
}

/// Takes a step; false where it has no value. The one error is want of memory.
fn advance(here: &Here<'_, '_>, step: &ExprStep, values: &mut VecDeque<i64>) -> Result<bool, Memory>
    ensures { IfOk result (λ there. spec.advanced (visible (inside_of here.now)) step.now
        values.old.items
        ≡ (if there then Some values.new.items else None)) }
{
    let Some(value) = next(here, step, values) else {
        return Ok(false);
    };
    values.push_front(value)?;
    Ok(true)
}

/// The one value that is left.
fn only(mut values: VecDeque<i64>) -> Option<i64>
    ensures { result ≡ spec.only values.items }
{
    let value = values.pop_front()?;
    if values.is_empty() { Some(value) } else { None }
}

/// The value of an expression; None where a number is out of range or a name is not known.
/// The one error is want of memory.
pub fn value(alloc: Global, here: &Here<'_, '_>, steps: &[ExprStep]) -> Result<Option<i64>, Memory>
    ensures { IfOk result (λ value. value
        ≡ spec.value_of (visible (inside_of here.now)) steps.now) }
{
    let mut values = VecDeque::new(alloc);
    for step in steps {
        if !advance(here, step, &mut values)? {
            return Ok(None);
        }
    }
    Ok(only(values))
}

/// Whether the step names no constant that is known.
fn is_unknown_name(here: &Here<'_, '_>, step: &ExprStep) -> bool
    ensures { result ≡ spec.is_unknown_name (visible (inside_of here.now)) step.now }
{
    match step {
        ExprStep::Name(name) => here.find(name.as_slice()).is_none(),
        _ => false,
    }
}

/// Whether a step names no constant that is known.
pub fn any_unknown_name(here: &Here<'_, '_>, steps: &[ExprStep]) -> bool
    ensures { result ≡ list_any (spec.is_unknown_name (visible (inside_of here.now))) steps.now }
{
    steps.iter().any(|step| is_unknown_name(here, step))
}
