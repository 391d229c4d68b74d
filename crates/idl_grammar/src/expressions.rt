//! The reader of expressions. Their steps go into one list, in postfix order.

ghost use Rattle.idl_grammar.specs.Grammar as spec;
ghost use Rattle.idl_grammar.specs.Read.{next_in, read, starts};
ghost use Rattle.idl_grammar.specs.declared.level.Level.TheVariants as levels;
ghost use Rattle.idl_grammar.specs.Gives.{Collects, Gives};
ghost use Rattle.std.specs.Prelude.{◌≡◌};

use crate::cursor::{Cursor, Stop, means, text, word};
use crate::level::Level;
use crate::terminal::{Mark, Terminal};
use crate::tree::{Expr, ExprStep};
use std::alloc::Global;
use xp_base::List;

/// The most parentheses and unary minuses that may be open at one place.
const MOST_OPEN: usize = 64;

/// Whether an operator of the level comes next.
#[tactic(auto, unfolding(crate::specs::Grammar::operator))]
fn sees_operator(level: Level, cursor: &Cursor<'_>) -> bool
    ensures { result ≡ next_in (starts (spec.operator level)) cursor.now }
{
    match level {
        Level::Product => cursor.sees_mark(Mark::Star),
        Level::Sum => cursor.sees_mark(Mark::Plus) || cursor.sees_mark(Mark::Minus),
        Level::Shift => cursor.sees_mark(Mark::Shl) || cursor.sees_mark(Mark::Shr),
        Level::Union => cursor.sees_mark(Mark::Bar),
    }
}

#[tactic(auto, unfolding(crate::specs::Grammar::operator))]
fn sum_operator(cursor: &mut Cursor<'_>) -> Result<ExprStep, Stop>
    ensures { Gives (read (spec.operator levels.Sum) cursor.old) result cursor.new }
{
    if cursor.sees_mark(Mark::Plus) {
        means(cursor, Terminal::Mark(Mark::Plus), ExprStep::Add)
    } else {
        means(cursor, Terminal::Mark(Mark::Minus), ExprStep::Sub)
    }
}

#[tactic(auto, unfolding(crate::specs::Grammar::operator))]
fn shift_operator(cursor: &mut Cursor<'_>) -> Result<ExprStep, Stop>
    ensures { Gives (read (spec.operator levels.Shift) cursor.old) result cursor.new }
{
    if cursor.sees_mark(Mark::Shl) {
        means(cursor, Terminal::Mark(Mark::Shl), ExprStep::Shl)
    } else {
        means(cursor, Terminal::Mark(Mark::Shr), ExprStep::Shr)
    }
}

/// An operator of the level.
#[tactic(auto, unfolding(crate::specs::Grammar::operator))]
fn operator(level: Level, cursor: &mut Cursor<'_>) -> Result<ExprStep, Stop>
    ensures { Gives (read (spec.operator level) cursor.old) result cursor.new }
{
    match level {
        Level::Product => means(cursor, Terminal::Mark(Mark::Star), ExprStep::Mul),
        Level::Sum => sum_operator(cursor),
        Level::Shift => shift_operator(cursor),
        Level::Union => means(cursor, Terminal::Mark(Mark::Bar), ExprStep::Or),
    }
}

#[tactic(auto, unfolding(crate::specs::Grammar::number_step))]
fn number_step(
    alloc: Global,
    steps: &mut List<ExprStep>,
    cursor: &mut Cursor<'_>,
) -> Result<(), Stop>
    ensures { Collects spec.number_step steps.old cursor.old result steps.new cursor.new }
{
    let number = text(alloc, cursor, Terminal::Number)?;
    steps.push(ExprStep::Number(number))?;
    Ok(())
}

#[tactic(auto, unfolding(crate::specs::Grammar::name_step))]
fn name_step(alloc: Global, steps: &mut List<ExprStep>, cursor: &mut Cursor<'_>) -> Result<(), Stop>
    ensures { Collects spec.name_step steps.old cursor.old result steps.new cursor.new }
{
    let name = word(alloc, cursor)?;
    steps.push(ExprStep::Name(name))?;
    Ok(())
}

/// An operand at which nothing more may be opened.
#[tactic(auto, using(crate::proofs::Starts::operand_starts), unfolding(crate::specs::Grammar::simple))]
fn simple(alloc: Global, steps: &mut List<ExprStep>, cursor: &mut Cursor<'_>) -> Result<(), Stop>
    ensures { Collects spec.simple steps.old cursor.old result steps.new cursor.new }
{
    if cursor.sees(Terminal::Number) {
        number_step(alloc, steps, cursor)
    } else {
        name_step(alloc, steps, cursor)
    }
}

/// A minus and its operand, in which so many more parentheses and minuses may be open.
#[cycle(expression)]
fn negation(
    alloc: Global,
    depth: usize,
    steps: &mut List<ExprStep>,
    cursor: &mut Cursor<'_>,
) -> Result<(), Stop>
    ensures { Collects (spec.negation (spec.unary depth))
        steps.old cursor.old result steps.new cursor.new }
{
    cursor.take_mark(Mark::Minus)?;
    unary(alloc, depth, steps, cursor)?;
    steps.push(ExprStep::Neg)?;
    Ok(())
}

/// An expression in parentheses, in which so many more parentheses and minuses may be open.
#[cycle(expression)]
fn parentheses(
    alloc: Global,
    depth: usize,
    steps: &mut List<ExprStep>,
    cursor: &mut Cursor<'_>,
) -> Result<(), Stop>
    ensures { Collects (spec.parentheses (spec.unary depth))
        steps.old cursor.old result steps.new cursor.new }
{
    cursor.take_mark(Mark::LParen)?;
    chain(alloc, Level::Union, depth, steps, cursor)?;
    cursor.take_mark(Mark::RParen)?;
    Ok(())
}

/// An operand behind whose first parenthesis or minus so many more may be open.
#[cycle(expression)]
#[tactic(auto, using(crate::proofs::Starts::operand_starts), unfolding(crate::specs::Grammar::within))]
fn within(
    alloc: Global,
    depth: usize,
    steps: &mut List<ExprStep>,
    cursor: &mut Cursor<'_>,
) -> Result<(), Stop>
    ensures { Collects (spec.within (spec.unary depth))
        steps.old cursor.old result steps.new cursor.new }
{
    if cursor.sees(Terminal::Number) {
        number_step(alloc, steps, cursor)
    } else if cursor.sees(Terminal::Word) {
        name_step(alloc, steps, cursor)
    } else if cursor.sees_mark(Mark::Minus) {
        negation(alloc, depth, steps, cursor)
    } else {
        parentheses(alloc, depth, steps, cursor)
    }
}

/// An operand in which so many more parentheses and unary minuses may be open at one place.
#[cycle(expression)]
#[tactic(auto, using(crate::proofs::Depths::depths))]
fn unary(
    alloc: Global,
    depth: usize,
    steps: &mut List<ExprStep>,
    cursor: &mut Cursor<'_>,
) -> Result<(), Stop>
    ensures { Collects (spec.unary depth) steps.old cursor.old result steps.new cursor.new }
{
    if depth == 0 {
        simple(alloc, steps, cursor)
    } else {
        within(alloc, depth - 1, steps, cursor)
    }
}

/// An operand of the level's operators.
#[cycle(expression)]
#[tactic(auto, unfolding(crate::specs::Grammar::products, crate::specs::Grammar::sums, crate::specs::Grammar::shifts))]
fn operand(
    alloc: Global,
    level: Level,
    depth: usize,
    steps: &mut List<ExprStep>,
    cursor: &mut Cursor<'_>,
) -> Result<(), Stop>
    ensures { Collects (spec.operands level (spec.unary depth))
        steps.old cursor.old result steps.new cursor.new }
{
    match level {
        Level::Product => unary(alloc, depth, steps, cursor),
        Level::Sum => chain(alloc, Level::Product, depth, steps, cursor),
        Level::Shift => chain(alloc, Level::Sum, depth, steps, cursor),
        Level::Union => chain(alloc, Level::Shift, depth, steps, cursor),
    }
}

/// Operands with the level's operators between them.
#[cycle(expression)]
fn chain(
    alloc: Global,
    level: Level,
    depth: usize,
    steps: &mut List<ExprStep>,
    cursor: &mut Cursor<'_>,
) -> Result<(), Stop>
    ensures { Collects (spec.chain (spec.operator level) (spec.operands level (spec.unary depth)))
        steps.old cursor.old result steps.new cursor.new }
{
    operand(alloc, level, depth, steps, cursor)?;
    'turns: while sees_operator(level, cursor) {
        let sign = operator(level, cursor)?;
        operand(alloc, level, depth, steps, cursor)?;
        steps.push(sign)?;
    }
    Ok(())
}

/// An expression.
#[tactic(auto, unfolding(crate::specs::Grammar::expression, crate::specs::Grammar::unions))]
pub fn expression(alloc: Global, cursor: &mut Cursor<'_>) -> Result<Expr, Stop>
    ensures { Gives (read spec.expression cursor.old) result cursor.new }
{
    let mut steps = List::new(alloc);
    chain(alloc, Level::Union, MOST_OPEN, &mut steps, cursor)?;
    Ok(Expr { steps })
}
