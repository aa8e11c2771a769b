ghost use Rattle.std.specs.Prelude.{◌≡◌, ◌++◌, codes, IfOk, OnOk, string_bytes};
ghost use Rattle.carte_name.specs.Places.{IsPlace, cell_at};
ghost use Rattle.carte_value.specs.Areas.{IsArea};
ghost use Rattle.carte_value.specs.Lists.{Begins};
ghost use Rattle.carte_tree.specs.Functions.{func_name};
ghost use Rattle.carte_tree.specs.Tree.{neg, rank, first_corner, last_corner};
ghost use Rattle.carte_tree.specs.Printed.{tight, op_bytes, in_brackets, printed, steps_printed, args_printed, arg_printed};
ghost use Rattle.carte_tree.specs.Code.{tree_of, chain_tree, rest_steps, args_tree, arg_tree};
ghost use Rattle.carte_tree.specs.Formula.{IsExpr, AreSteps, AreArgs, IsArg};

mod pieces;

use crate::printer::pieces::{put, put_byte, put_number, put_text};
use crate::{Arg, Args, Chain, Expr, Func, Level, Op, Rest};
use carte_value::{Area, Name, NoMemory};
use std::alloc::Global;

/// The canonical text of a formula. Read in a book of its kind it is this formula again, where it has at most 4,096 bytes.
pub fn print(alloc: Global, expr: &Expr) -> Result<String, NoMemory>
    requires { IsExpr (tree_of expr.now) }
    ensures { IfOk result (λ t. string_bytes t ≡ printed (tree_of expr.now)) }
{
    let mut out = Vec::new(alloc);
    print_expr(alloc, &mut out, expr)?;
    match String::from_utf8(out) {
        Ok(text) => Ok(text),
        // It never comes to this: each piece that is printed is a text.
        Err(_) => Err(NoMemory),
    }
}

/// Puts the canonical text of a formula behind what a buffer holds, so that one buffer serves many formulas. Where there is
/// no memory a part of it may stand there.
#[cycle(print)]
pub fn print_expr(alloc: Global, out: &mut Vec<u8>, expr: &Expr) -> Result<(), NoMemory>
    requires { IsExpr (tree_of expr.now) }
    ensures front { Begins out.old.items out.new.items }
    ensures bytes { OnOk result (out.new.items ≡ out.old.items ++ printed (tree_of expr.now)) }
{
    match expr {
        Expr::Number(number) => put_number(out, *number),
        Expr::Text(text) => put_text(out, text.text()),
        Expr::Ref(name) => put(out, name.bytes()),
        Expr::Neg(operand) => print_neg(alloc, out, operand),
        Expr::Chain(chain) => print_chain(alloc, out, chain),
        Expr::Call(func, args) => print_call(alloc, out, *func, args),
    }
}

#[cycle(print)]
fn print_neg(alloc: Global, out: &mut Vec<u8>, operand: &Expr) -> Result<(), NoMemory>
    requires { IsExpr (tree_of operand.now) }
    ensures front { Begins out.old.items out.new.items }
    ensures bytes { OnOk result (out.new.items ≡ out.old.items ++ printed (neg (tree_of operand.now))) }
{
    put_byte(out, b'-')?;
    print_held(alloc, out, 0, operand)
}

#[cycle(print)]
fn print_chain(alloc: Global, out: &mut Vec<u8>, chain: &Chain) -> Result<(), NoMemory>
    requires { IsExpr (chain_tree chain.now) }
    ensures front { Begins out.old.items out.new.items }
    ensures bytes { OnOk result (out.new.items ≡ out.old.items ++ printed (chain_tree chain.now)) }
{
    print_held(alloc, out, chain.level.rank(), &chain.first)?;
    print_rest(alloc, out, chain.level, &chain.rest)
}

/// An operand where chains of operators that bind tighter than a rank need no bracket.
#[cycle(print)]
fn print_held(alloc: Global, out: &mut Vec<u8>, rank: u8, expr: &Expr) -> Result<(), NoMemory>
    requires { IsExpr (tree_of expr.now) }
    ensures front { Begins out.old.items out.new.items }
    ensures bytes { OnOk result (out.new.items ≡ out.old.items ++ in_brackets (tight rank (tree_of expr.now)) (printed (tree_of expr.now))) }
{
    if is_tight(rank, expr) {
        return print_expr(alloc, out, expr);
    }
    put_byte(out, b'(')?;
    print_expr(alloc, out, expr)?;
    put_byte(out, b')')
}

#[cycle(print)]
fn print_rest(alloc: Global, out: &mut Vec<u8>, level: Level, rest: &Rest) -> Result<(), NoMemory>
    requires { AreSteps level (rest_steps rest.now) }
    ensures front { Begins out.old.items out.new.items }
    ensures bytes { OnOk result (out.new.items ≡ out.old.items ++ steps_printed level (rest_steps rest.now)) }
{
    let (op, operand) = &rest.first;
    print_step(alloc, out, level, *op, operand)?;
    for (op, operand) in rest.more.iter() {
        print_step(alloc, out, level, *op, operand)?;
    }
    Ok(())
}

#[cycle(print)]
fn print_step(
    alloc: Global,
    out: &mut Vec<u8>,
    level: Level,
    op: Op,
    operand: &Expr,
) -> Result<(), NoMemory>
    requires { IsExpr (tree_of operand.now) }
    ensures front { Begins out.old.items out.new.items }
    ensures bytes { OnOk result (out.new.items ≡ out.old.items ++ (op_bytes op ++ in_brackets (tight (rank level) (tree_of operand.now)) (printed (tree_of operand.now)))) }
{
    put(out, op.text().as_bytes())?;
    print_held(alloc, out, level.rank(), operand)
}

#[cycle(print)]
fn print_call(alloc: Global, out: &mut Vec<u8>, func: Func, args: &Args) -> Result<(), NoMemory>
    requires { AreArgs func (args_tree args.now) }
    ensures front { Begins out.old.items out.new.items }
    ensures bytes { OnOk result (out.new.items ≡ out.old.items ++ (func_name func ++ (codes "(" ++ (args_printed (args_tree args.now) ++ codes ")")))) }
{
    put(out, func.name().as_bytes())?;
    put_byte(out, b'(')?;
    print_args(alloc, out, func, args)?;
    put_byte(out, b')')
}

#[cycle(print)]
fn print_args(alloc: Global, out: &mut Vec<u8>, func: Func, args: &Args) -> Result<(), NoMemory>
    requires { AreArgs func (args_tree args.now) }
    ensures front { Begins out.old.items out.new.items }
    ensures bytes { OnOk result (out.new.items ≡ out.old.items ++ args_printed (args_tree args.now)) }
{
    for (at, arg) in args.items.iter().enumerate() {
        if at > 0 {
            put_byte(out, b',')?;
        }
        print_arg(alloc, out, func, arg)?;
    }
    Ok(())
}

#[cycle(print)]
fn print_arg(alloc: Global, out: &mut Vec<u8>, func: Func, arg: &Arg) -> Result<(), NoMemory>
    requires { IsArg func (arg_tree arg.now) }
    ensures front { Begins out.old.items out.new.items }
    ensures bytes { OnOk result (out.new.items ≡ out.old.items ++ arg_printed (arg_tree arg.now)) }
{
    match arg {
        // A name, which most arguments are, is put without a call.
        Arg::One(Expr::Ref(name)) => put(out, name.bytes()),
        Arg::One(expr) => print_expr(alloc, out, expr),
        Arg::Cells(area) => print_area(alloc, out, area),
    }
}

fn print_area(alloc: Global, out: &mut Vec<u8>, area: &Area) -> Result<(), NoMemory>
    requires { IsArea area.now }
    ensures front { Begins out.old.items out.new.items }
    ensures bytes { OnOk result (out.new.items ≡ out.old.items ++ (first_corner area.now ++ (codes ":" ++ last_corner area.now))) }
{
    print_cell(alloc, out, area.left, area.top)?;
    put_byte(out, b':')?;
    print_cell(alloc, out, area.right, area.bottom)
}

fn print_cell(alloc: Global, out: &mut Vec<u8>, column: u32, row: u32) -> Result<(), NoMemory>
    requires { IsPlace column row }
    ensures front { Begins out.old.items out.new.items }
    ensures bytes { OnOk result (out.new.items ≡ out.old.items ++ cell_at column row) }
{
    let name = Name::cell_at(alloc, column, row)?;
    put(out, name.bytes())
}

/// Whether a formula needs no bracket where operators bind looser than a rank.
fn is_tight(rank: u8, expr: &Expr) -> bool
    ensures { result ≡ tight rank (tree_of expr.now) }
{
    match expr {
        Expr::Chain(chain) => chain.level.rank() < rank,
        _ => true,
    }
}
