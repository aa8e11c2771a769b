ghost use Rattle.std.specs.Prelude.{◌≡◌, ◌<◌, true, false, IfOk, IsUtf8, length, string_bytes};
ghost use Rattle.std.specs.List.{list_all};
ghost use Rattle.std.specs.Str.{str_to_ascii_uppercase};
ghost use Rattle.carte_name.specs.Names.{is_digit};
ghost use Rattle.carte_tree.specs.Functions.{func_of};
ghost use Rattle.carte_lexer.specs.Lexer.{token_of, numeral, small, letters, closing, func_token, unpaired, less_op, greater_op};
ghost use Rattle.carte_lexer.specs.Runs.{RunOk};

use crate::cell::Cell;
use crate::tokens::{Class, Token};
use carte_tree::{Func, Op};
use carte_value::{NAME_LIMIT, Name, NameFault, NoMemory, Text};
use std::alloc::Global;

/// The token that a whole run is.
#[inline(always)]
pub fn token_of(alloc: Global, class: Class, run: &str) -> Result<Option<Token>, NoMemory>
    requires some { 0 < length run.now }
    requires known { RunOk class run.now }
    ensures { IfOk result (λ o. o ≡ token_of class run.now) }
{
    match class {
        Class::Digits => Ok(number_token(run)),
        Class::Word => word_token(alloc, run),
        Class::Capitals => Ok(func_token(run)),
        Class::Letters => sheet_token(alloc, run),
        Class::Less => Ok(Some(Token::Op(less_op(run.as_bytes())))),
        Class::Greater => Ok(Some(Token::Op(greater_op(run.as_bytes())))),
        Class::Inside => Ok(None),
        Class::Quote => text_token(alloc, run),
    }
}

#[inline(always)]
fn number_token(run: &str) -> Option<Token>
    requires some { 0 < length run.now }
    requires digits { list_all is_digit run.now ≡ true }
    ensures { result ≡ token_of numeral run.now }
{
    match run.parse::<i64>() {
        Ok(number) => Some(Token::Number(number)),
        Err(_) => None,
    }
}

// The run's bytes were tested as it was met.
#[inline(always)]
fn word_token(alloc: Global, run: &str) -> Result<Option<Token>, NoMemory>
    requires some { 0 < length run.now }
    requires known { RunOk small run.now }
    ensures { IfOk result (λ o. o ≡ token_of small run.now) }
{
    if run.len() > NAME_LIMIT {
        return Ok(None);
    }
    Ok(Some(Token::Word(Name::tested(alloc, run)?)))
}

/// A cell or a function, in either case.
#[inline(always)]
fn sheet_token(alloc: Global, run: &str) -> Result<Option<Token>, NoMemory>
    ensures { IfOk result (λ o. o ≡ token_of letters run.now) }
{
    match Name::cell(alloc, run) {
        Ok(name) => Ok(Some(Token::Cell(Cell::new(name)))),
        Err(NameFault::BadName(_)) => function_token(alloc, run),
        Err(NameFault::NoMemory) => Err(NoMemory),
    }
}

fn function_token(alloc: Global, run: &str) -> Result<Option<Token>, NoMemory>
    ensures { IfOk result (λ o. o ≡ func_token (func_of (str_to_ascii_uppercase run.now))) }
{
    let upper = run.to_ascii_uppercase(alloc)?;
    Ok(func_token(upper.as_str()))
}

#[inline(always)]
fn func_token(run: &str) -> Option<Token>
    ensures { result ≡ func_token (func_of run.now) }
{
    match Func::named(run) {
        Some(func) => Some(Token::Func(func)),
        None => None,
    }
}

fn less_op(run: &[u8]) -> Op
    ensures { result ≡ less_op run.now }
{
    match run {
        [_] => Op::Lt,
        [_, b'=', ..] => Op::Le,
        _ => Op::Ne,
    }
}

fn greater_op(run: &[u8]) -> Op
    ensures { result ≡ greater_op run.now }
{
    if run.len() == 1 { Op::Gt } else { Op::Ge }
}

fn text_token(alloc: Global, run: &str) -> Result<Option<Token>, NoMemory>
    requires { RunOk closing run.now }
    ensures { IfOk result (λ o. o ≡ token_of closing run.now) }
{
    let text = unpaired(alloc, &run[1..run.len() - 1])?;
    match Text::made(text)? {
        Some(text) => Ok(Some(Token::Text(text))),
        None => Ok(None),
    }
}

/// The text between quotes, where a quote behind a quote is left out.
fn unpaired(alloc: Global, raw: &str) -> Result<String, NoMemory>
    ensures { IfOk result (λ t. string_bytes t ≡ unpaired false raw.now) }
{
    let bytes = unpaired_bytes(alloc, raw.as_bytes())?;
    match String::from_utf8(bytes) {
        Ok(text) => Ok(text),
        Err(_) => unreachable!(),
    }
}

fn unpaired_bytes(alloc: Global, raw: &[u8]) -> Result<Vec<u8>, NoMemory>
    ensures { IfOk result (λ v. v.items ≡ unpaired false raw.now) }
{
    let mut bytes = Vec::new(alloc);
    let mut paired = false;
    for byte in raw {
        if *byte == b'"' && paired {
            paired = false;
        } else {
            paired = *byte == b'"';
            bytes.push(*byte)?;
        }
    }
    Ok(bytes)
}
