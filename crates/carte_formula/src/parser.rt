ghost use Rattle.std.specs.Prelude.{◌≡◌, ◌<◌, ◌≤◌, true, nat_lt, [], length, slice_index, Ok, Option};
ghost use Rattle.carte_lexer.specs.Lexer.{start_of, single, begins, idle, lexed};
ghost use Rattle.carte_formula.specs.Machine.{State as Machine, next_state};
ghost use Rattle.carte_formula.specs.Tokens.{sign_token};
ghost use Rattle.carte_formula.specs.Reading.{depth};
ghost use Rattle.carte_formula.specs.Begun.{depth_of};
ghost use Rattle.carte_lexer.specs.declared.tokens.Token.TheVariants as tokens;
ghost use Rattle.carte_formula.specs.Frames.{frames_of};
ghost use Rattle.carte_formula.specs.Parser.{reached, holding, range_depth, OptionGoesTo, StepsTo, StandsTo};
ghost use Rattle.carte_lexer.specs.Takes.{ReadsTo};
ghost use Rattle.carte_formula.specs.Whole.{with_tokens};
ghost use Rattle.carte_formula.specs.Resumed.{Advances, Follows};

mod chains;
mod ending;
mod operand;
mod states;
mod steps;

use crate::frames::Stack;
use crate::parser::ending::whole;
use crate::parser::operand::{put_away, with_signs};
use crate::parser::states::{Parser, Range, State};
use crate::parser::steps::{go_on, is_wanting, step, step_sign, take_func};
use crate::{Expr, FormulaFault, Func};
use carte_lexer::{Class, Placed, Ranges, Sign, Start, Token, first_fault, meet_run, start_of};
use carte_value::{Kind, Name};
use std::alloc::Global;

/// How many groups, calls and unary signs may stand round a place.
const MOST_LEVELS: usize = 64;

/// How far a text is read.
#[derive(Drop)]
pub struct Progress {
    parser: Parser,
    ranges: Ranges,
}

impl Progress {
    ghost use Rattle.std.specs.Prelude.{List};
    ghost use Rattle.carte_formula.specs.Machine.{wants};
    ghost use Rattle.carte_formula.specs.Tokens.{Placed as PlacedToken};
    ghost use Rattle.carte_lexer.specs.Ranges.{wide_after};
    ghost use Rattle.carte_lexer.specs.Widths.{wide_from};

    pub fn new(alloc: Global) -> Progress {
        Progress {
            parser: Parser {
                state: State::Wants,
                operand: Expr::Number(0),
                range: Range::Nothing,
                stack: Stack::new(alloc),
            },
            ranges: Ranges::new(),
        }
    }

    /// Back to where a text begins, whatever was read before. The stack keeps its memory.
    #[inline(always)]
    fn restart(&mut self)
        ensures parser { reached self.new.parser ≡ wants [] }
        ensures ranges { (ps : List PlacedToken) → wide_after self.new.ranges ps ≡ wide_from 0 ps }
    {
        self.parser.state = State::Wants;
        self.parser.stack.clear();
        self.ranges = Ranges::new();
    }
}

/// Reads a text token by token, and beside it how wide its ranges are.
#[tactic(auto, using(crate::proofs::Resuming::whole_remains))]
pub fn formula_of(
    alloc: Global,
    progress: &mut Progress,
    kind: Kind,
    text: &str,
) -> Result<Expr, FormulaFault>
    ensures { ReadsTo result (with_tokens (lexed kind idle 0 text.now) (length text.now)) }
{
    progress.restart();
    let mut at = 0;
    while at < text.len() {
        at = advance(alloc, kind, text, at, progress)?;
    }
    whole(alloc, &mut progress.parser, &progress.ranges, text.len())
}

/// Takes what stands at a place, a blank or a token, and says where the next may stand. What it is is told by its first byte, and
/// each goes its own way from there, since a token of any kind would be copied from call to call.
#[inline(always)]
fn advance(
    alloc: Global,
    kind: Kind,
    text: &str,
    at: usize,
    progress: &mut Progress,
) -> Result<usize, FormulaFault>
    requires { at < length text.now }
    ensures { Advances kind text.now at progress.old result progress.new }
{
    match start_of(kind, text.as_bytes()[at]) {
        Start::Blank => Ok(at + 1),
        Start::Sign(sign) => advance_sign(alloc, kind, text, at, sign, progress),
        Start::Run(class) => advance_run(alloc, kind, text, at, class, progress),
        Start::Wrong => Err(FormulaFault::BadToken(at)),
    }
}

/// Each sign has a way of its own, so that it is told from the others once.
#[inline(always)]
fn advance_sign(
    alloc: Global,
    kind: Kind,
    text: &str,
    at: usize,
    sign: Sign,
    progress: &mut Progress,
) -> Result<usize, FormulaFault>
    requires place { at < length text.now }
    requires start { start_of kind (slice_index text.now at) ≡ single (sign_token sign) }
    ensures { Advances kind text.now at progress.old result progress.new }
{
    match sign {
        Sign::Op(op) => advance_one(alloc, kind, text, at, Sign::Op(op), progress),
        Sign::Open => advance_one(alloc, kind, text, at, Sign::Open, progress),
        Sign::Close => advance_one(alloc, kind, text, at, Sign::Close, progress),
        Sign::Comma => advance_one(alloc, kind, text, at, Sign::Comma, progress),
        Sign::Colon => advance_one(alloc, kind, text, at, Sign::Colon, progress),
    }
}

#[inline(always)]
fn advance_one(
    alloc: Global,
    kind: Kind,
    text: &str,
    at: usize,
    sign: Sign,
    progress: &mut Progress,
) -> Result<usize, FormulaFault>
    requires place { at < length text.now }
    requires start { start_of kind (slice_index text.now at) ≡ single (sign_token sign) }
    ensures { Advances kind text.now at progress.old result progress.new }
{
    progress.ranges.take_sign(at, sign);
    match take_sign(alloc, at, sign, &mut progress.parser) {
        Ok(()) => Ok(at + 1),
        Err(fault) => Err(first_fault(alloc, kind, text, at + 1, fault)),
    }
}

/// The names of a rule file and those of its functions are told from other runs here, since a book's formulas have little else.
#[inline(always)]
fn advance_run(
    alloc: Global,
    kind: Kind,
    text: &str,
    at: usize,
    class: Class,
    progress: &mut Progress,
) -> Result<usize, FormulaFault>
    requires place { at < length text.now }
    requires start { start_of kind (slice_index text.now at) ≡ begins class }
    ensures { Advances kind text.now at progress.old result progress.new }
{
    match class {
        Class::Word => advance_token(alloc, kind, text, at, Class::Word, progress),
        Class::Capitals => advance_token(alloc, kind, text, at, Class::Capitals, progress),
        _ => advance_token(alloc, kind, text, at, class, progress),
    }
}

/// A run's token. Behind a name stands what mostly follows it, so that the operand isn't put away first.
#[inline(always)]
fn advance_token(
    alloc: Global,
    kind: Kind,
    text: &str,
    at: usize,
    class: Class,
    progress: &mut Progress,
) -> Result<usize, FormulaFault>
    requires place { at < length text.now }
    requires start { start_of kind (slice_index text.now at) ≡ begins class }
    ensures { Advances kind text.now at progress.old result progress.new }
{
    let (token, end) = meet_run(alloc, kind, text, at, class)?;
    let placed = Placed { place: at, token };
    progress.ranges.take(alloc, &placed)?;
    let token = placed.token;
    match token {
        Token::Word(name) => match stand(alloc, at, name, &mut progress.parser) {
            Ok(operand) => follow(alloc, kind, text, end, operand, progress),
            Err(fault) => Err(first_fault(alloc, kind, text, end, fault)),
        },
        Token::Func(func) => match take_func_at(at, func, &mut progress.parser) {
            Ok(()) => Ok(end),
            Err(fault) => Err(first_fault(alloc, kind, text, end, fault)),
        },
        token => match take(alloc, Placed { place: at, token }, &mut progress.parser) {
            Ok(()) => Ok(end),
            Err(fault) => Err(first_fault(alloc, kind, text, end, fault)),
        },
    }
}

/// What follows an operand. A sign that mostly does takes it as it is, and else it is put away.
#[inline(always)]
fn follow(
    alloc: Global,
    kind: Kind,
    text: &str,
    at: usize,
    operand: Expr,
    progress: &mut Progress,
) -> Result<usize, FormulaFault>
    requires { at ≤ length text.now }
    ensures { Follows kind text.now at operand progress.old result progress.new }
{
    if at < text.len() {
        match start_of(kind, text.as_bytes()[at]) {
            Start::Sign(Sign::Comma) => {
                return follow_sign(alloc, kind, text, at, Sign::Comma, operand, progress);
            }
            Start::Sign(Sign::Close) => {
                return follow_sign(alloc, kind, text, at, Sign::Close, operand, progress);
            }
            _ => {}
        }
    }
    put_away(operand, &mut progress.parser);
    Ok(at)
}

#[inline(always)]
fn follow_sign(
    alloc: Global,
    kind: Kind,
    text: &str,
    at: usize,
    sign: Sign,
    operand: Expr,
    progress: &mut Progress,
) -> Result<usize, FormulaFault>
    requires place { at < length text.now }
    requires start { start_of kind (slice_index text.now at) ≡ single (sign_token sign) }
    ensures { Follows kind text.now at operand progress.old result progress.new }
{
    progress.ranges.take_sign(at, sign);
    match take_behind(alloc, at, sign, operand, &mut progress.parser) {
        Ok(()) => Ok(at + 1),
        Err(fault) => Err(first_fault(alloc, kind, text, at + 1, fault)),
    }
}

#[inline(always)]
fn take(alloc: Global, placed: Placed, parser: &mut Parser) -> Result<(), FormulaFault>
    ensures { StepsTo result parser.new (next_state (reached parser.old) placed.token) placed.place }
{
    let goes_on = step(alloc, placed.token, parser)?;
    taken(goes_on, placed.place, parser)
}

#[inline(always)]
fn take_sign(
    alloc: Global,
    place: usize,
    sign: Sign,
    parser: &mut Parser,
) -> Result<(), FormulaFault>
    ensures { StepsTo result parser.new (next_state (reached parser.old) (sign_token sign)) place }
{
    let goes_on = step_sign(alloc, sign, parser)?;
    taken(goes_on, place, parser)
}

/// A sign behind an operand that isn't put away.
#[inline(always)]
fn take_behind(
    alloc: Global,
    place: usize,
    sign: Sign,
    operand: Expr,
    parser: &mut Parser,
) -> Result<(), FormulaFault>
    ensures { StepsTo result parser.new (next_state (reached (holding parser.old operand)) (sign_token sign)) place }
{
    let goes_on = go_on(alloc, sign, operand, parser)?;
    taken(goes_on, place, parser)
}

/// A function's name.
#[inline(always)]
fn take_func_at(place: usize, func: Func, parser: &mut Parser) -> Result<(), FormulaFault>
    ensures { StepsTo result parser.new (next_state (reached parser.old) (tokens.Func func)) place }
{
    let goes_on = take_func(func, parser);
    taken(goes_on, place, parser)
}

/// The operand that stands behind a name of a rule file.
#[tactic(auto, using(crate::proofs::Wanting::word_stands))]
#[inline(always)]
fn stand(alloc: Global, place: usize, name: Name, parser: &mut Parser) -> Result<Expr, FormulaFault>
    ensures { StandsTo result parser.new (next_state (reached parser.old) (tokens.Word name)) place }
{
    if !is_wanting(parser) {
        return Err(FormulaFault::BadSyntax(place));
    }
    let operand = with_signs(alloc, Expr::Ref(name), &mut parser.stack)?;
    not_too_deep(place, operand, parser)
}

/// The same where the operand is whole.
#[inline(always)]
fn not_too_deep(place: usize, operand: Expr, parser: &Parser) -> Result<Expr, FormulaFault>
    ensures { (o : Option Machine) → OptionGoesTo true (holding parser.now operand) o → StandsTo result parser.now o place }
{
    if is_stack_too_deep(&parser.stack) {
        return Err(FormulaFault::TooDeep(place));
    }
    Ok(operand)
}

#[inline(always)]
fn is_stack_too_deep(stack: &Stack) -> bool
    ensures { result ≡ nat_lt 64 (depth_of (frames_of stack.now.frames.items)) }
{
    stack.depth() > MOST_LEVELS
}

/// What comes of a token at a place, with which a formula may go on or not.
#[inline(always)]
fn taken(goes_on: bool, place: usize, parser: &Parser) -> Result<(), FormulaFault>
    ensures { (o : Option Machine) → OptionGoesTo goes_on parser.now o → StepsTo result parser.now o place }
{
    if !goes_on {
        return Err(FormulaFault::BadSyntax(place));
    }
    if is_too_deep(parser) {
        return Err(FormulaFault::TooDeep(place));
    }
    Ok(())
}

/// Whether too many brackets, calls and signs stand round what comes next.
#[tactic(auto, using(crate::proofs::Depths::range_same))]
#[inline(always)]
fn is_too_deep(parser: &Parser) -> bool
    ensures { result ≡ nat_lt 64 (depth (reached parser.now)) }
{
    match parser.state {
        State::InRange => is_range_too_deep(&parser.range, parser.stack.depth()),
        _ => parser.stack.depth() > MOST_LEVELS,
    }
}

/// The same where a range is begun, whose call isn't on the stack.
fn is_range_too_deep(range: &Range, depth: usize) -> bool
    ensures { result ≡ nat_lt 64 (range_depth range.now depth) }
{
    match range {
        Range::Nothing => depth > MOST_LEVELS,
        _ => depth >= MOST_LEVELS,
    }
}
