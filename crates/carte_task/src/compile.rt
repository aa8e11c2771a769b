//! Formulas in postfix order.

ghost use Rattle.std.specs.Prelude.{◌≡◌, true, ◌++◌, ◌∷◌, [], OnOk, IfOk, length};
ghost use Rattle.std.specs.List.{list_all};
ghost use Rattle.carte_tree.specs.Code.{tree_of, chain_tree, rest_steps, args_tree, arg_tree};
ghost use Rattle.carte_tree.specs.Tree.{Tree, call as calls, arg, one, no_arg};
ghost use Rattle.carte_tree.specs.Formula.{IsExpr, AreCallArgs, IsCallArg};
ghost use Rattle.carte_task.specs.Forms.{form_of, are_ones, is_one, HaveLevel};
ghost use Rattle.carte_value.specs.Areas.{cells_of};
ghost use Rattle.carte_task.specs.declared.code.Instr.TheVariants as i;
ghost use Rattle.carte_task.specs.Coding.{code_of, code_of_steps, code_of_args, code_of_arg, choice, count, count_arg};

use crate::code::Instr;
use crate::range::Range;
use carte_tree::{Arg, Args, Chain, Expr, Func, Op, Rest};
use carte_value::{NoMemory, Value};
use std::alloc::Global;

#[inline(always)]
fn put(code: &mut Vec<Instr>, instr: Instr) -> Result<(), NoMemory>
    ensures { OnOk result (code.new.items ≡ code.old.items ++ instr ∷ []) }
{
    match code.push(instr) {
        Ok(()) => Ok(()),
        Err(_) => Err(NoMemory),
    }
}

/// Writes the instructions of a formula behind others.
#[cycle(write)]
pub(crate) fn write(alloc: Global, expr: &Expr, code: &mut Vec<Instr>) -> Result<(), NoMemory>
    requires { IsExpr (tree_of expr.now) }
    ensures { OnOk result (code.new.items ≡ code.old.items ++ code_of (tree_of expr.now)) }
{
    match expr {
        Expr::Number(number) => put(code, Instr::Push(Value::Number(*number))),
        Expr::Text(text) => put(code, Instr::Push(Value::Text(text.copy(alloc)?))),
        Expr::Ref(name) => put(code, Instr::Look(name.copy(alloc)?)),
        Expr::Neg(operand) => {
            write(alloc, operand, code)?;
            put(code, Instr::Negate)
        }
        Expr::Chain(chain) => write_chain(alloc, chain, code),
        Expr::Call(func, args) => write_call(alloc, *func, args, code),
    }
}

#[cycle(write)]
fn write_chain(alloc: Global, chain: &Chain, code: &mut Vec<Instr>) -> Result<(), NoMemory>
    requires { IsExpr (chain_tree chain.now) }
    ensures { OnOk result (code.new.items ≡ code.old.items ++ code_of (chain_tree chain.now)) }
{
    write(alloc, &chain.first, code)?;
    write_rest(alloc, &chain.rest, code)
}

#[cycle(write)]
fn write_rest(alloc: Global, rest: &Rest, code: &mut Vec<Instr>) -> Result<(), NoMemory>
    requires { HaveLevel (rest_steps rest.now) }
    ensures { OnOk result (code.new.items ≡ code.old.items ++ code_of_steps (rest_steps rest.now)) }
{
    let (op, operand) = &rest.first;
    write_step(alloc, *op, operand, code)?;
    for (op, operand) in rest.more.iter() {
        write_step(alloc, *op, operand, code)?;
    }
    Ok(())
}

#[cycle(write)]
fn write_step(alloc: Global, op: Op, operand: &Expr, code: &mut Vec<Instr>) -> Result<(), NoMemory>
    requires { IsExpr (tree_of operand.now) }
    ensures { OnOk result (code.new.items ≡ code.old.items ++ (code_of (tree_of operand.now) ++ i.Apply op ∷ [])) }
{
    write(alloc, operand, code)?;
    put(code, Instr::Apply(op))
}

#[cycle(write)]
fn write_call(alloc: Global, func: Func, args: &Args, code: &mut Vec<Instr>) -> Result<(), NoMemory>
    requires { AreCallArgs (args_tree args.now) }
    ensures { OnOk result (code.new.items ≡ code.old.items ++ code_of (calls func (args_tree args.now))) }
{
    match shape(func, args) {
        Form::Choice => write_choice(alloc, args, code),
        Form::Indirect => write_then(alloc, args, Instr::Indirect, code),
        Form::Gather => write_then(alloc, args, Instr::Gather, code),
        Form::Plain => write_plain(alloc, func, args, code),
    }
}

// How a call is written.
#[derive(Clone, Copy)]
pub(crate) enum Form {
    Choice,
    Indirect,
    Gather,
    Plain,
}

// Which form a call has.
fn shape(func: Func, args: &Args) -> Form
    ensures { result ≡ form_of func (args_tree args.now) }
{
    match func {
        Func::If => if are_ones(args, 3) {
            Form::Choice
        } else {
            Form::Plain
        },
        Func::Indirect => if are_ones(args, 1) {
            Form::Indirect
        } else {
            Form::Plain
        },
        Func::Gather => if are_ones(args, 1) {
            Form::Gather
        } else {
            Form::Plain
        },
        _ => Form::Plain,
    }
}

// That many formulas, and no range.
fn are_ones(args: &Args, count: usize) -> bool
    ensures { result ≡ are_ones count (args_tree args.now) }
{
    let ones = all_ones(args.items.as_slice());
    ones && args.items.len() == count
}

fn all_ones(args: &[Arg]) -> bool
    ensures { result ≡ list_all (λ a. is_one (arg_tree a)) args.now }
{
    args.iter().all(|arg| is_one(arg))
}

fn is_one(arg: &Arg) -> bool
    ensures { result ≡ is_one (arg_tree arg.now) }
{
    match arg {
        Arg::One(_) => true,
        Arg::Cells(_) => false,
    }
}

#[cycle(write)]
fn write_choice(alloc: Global, args: &Args, code: &mut Vec<Instr>) -> Result<(), NoMemory>
    requires args { AreCallArgs (args_tree args.now) }
    requires three { are_ones 3 (args_tree args.now) ≡ true }
    ensures { OnOk result ((c a b : Tree) → args_tree args.now ≡ arg (one c) (arg (one a) (arg (one b) no_arg)) → code.new.items ≡ code.old.items ++ choice (code_of c) (code_of a) (code_of b)) }
{
    let [condition, first, other] = args.items.as_slice() else {
        unreachable!()
    };
    let condition = write_alone(alloc, condition)?;
    let first = write_alone(alloc, first)?;
    let other = write_alone(alloc, other)?;
    join(code, condition, first, other)
}

#[cycle(write)]
fn write_alone(alloc: Global, arg: &Arg) -> Result<Vec<Instr>, NoMemory>
    requires { IsCallArg (arg_tree arg.now) }
    ensures { IfOk result (λ code. code.items ≡ code_of_arg (arg_tree arg.now)) }
{
    let mut code = Vec::new(alloc);
    write_arg(alloc, arg, &mut code)?;
    Ok(code)
}

#[cycle(write)]
fn write_then(
    alloc: Global,
    args: &Args,
    last: Instr,
    code: &mut Vec<Instr>,
) -> Result<(), NoMemory>
    requires args { AreCallArgs (args_tree args.now) }
    requires single { are_ones 1 (args_tree args.now) ≡ true }
    ensures { OnOk result ((e : Tree) → args_tree args.now ≡ arg (one e) no_arg → code.new.items ≡ code.old.items ++ (code_of e ++ last ∷ [])) }
{
    let [operand] = args.items.as_slice() else {
        unreachable!()
    };
    write_arg(alloc, operand, code)?;
    put(code, last)
}

// A test, one branch, a jump over the other branch, and that.
fn join(
    code: &mut Vec<Instr>,
    condition: Vec<Instr>,
    first: Vec<Instr>,
    other: Vec<Instr>,
) -> Result<(), NoMemory>
    ensures { OnOk result (code.new.items ≡ code.old.items ++ choice condition.items first.items other.items) }
{
    let taken = first.len();
    let passed = other.len();
    append(code, condition)?;
    put(code, Instr::Test(taken + 1, taken + (1 + passed)))?;
    append(code, first)?;
    put(code, Instr::Jump(passed))?;
    append(code, other)
}

fn append(code: &mut Vec<Instr>, mut more: Vec<Instr>) -> Result<(), NoMemory>
    ensures { OnOk result (code.new.items ≡ code.old.items ++ more.items) }
{
    match code.append(&mut more) {
        Ok(()) => Ok(()),
        Err(_) => Err(NoMemory),
    }
}

#[cycle(write)]
fn write_plain(
    alloc: Global,
    func: Func,
    args: &Args,
    code: &mut Vec<Instr>,
) -> Result<(), NoMemory>
    requires { AreCallArgs (args_tree args.now) }
    ensures { OnOk result (code.new.items ≡ code.old.items ++ (code_of_args (args_tree args.now) ++ Instr.Call func (count (args_tree args.now)) ∷ [])) }
{
    write_args(alloc, args, code)?;
    put(code, Instr::Call(func, counted(args)?))
}

#[cycle(write)]
fn write_args(alloc: Global, args: &Args, code: &mut Vec<Instr>) -> Result<(), NoMemory>
    requires { AreCallArgs (args_tree args.now) }
    ensures { OnOk result (code.new.items ≡ code.old.items ++ code_of_args (args_tree args.now)) }
{
    for arg in args.items.iter() {
        write_arg(alloc, arg, code)?;
    }
    Ok(())
}

#[cycle(write)]
fn write_arg(alloc: Global, arg: &Arg, code: &mut Vec<Instr>) -> Result<(), NoMemory>
    requires { IsCallArg (arg_tree arg.now) }
    ensures { OnOk result (code.new.items ≡ code.old.items ++ code_of_arg (arg_tree arg.now)) }
{
    match arg {
        Arg::One(expr) => write(alloc, expr, code),
        Arg::Cells(area) => put(code, Instr::Cells(Range::of(*area))),
    }
}

// How many values arguments are. There is no memory for more of them than a word counts.
fn counted(args: &Args) -> Result<usize, NoMemory>
    requires { AreCallArgs (args_tree args.now) }
    ensures { IfOk result (λ n. n ≡ count (args_tree args.now)) }
{
    let mut count: usize = 0;
    for arg in args.items.iter() {
        count = match count.checked_add(width(arg)) {
            Some(count) => count,
            None => return Err(NoMemory),
        };
    }
    Ok(count)
}

fn width(arg: &Arg) -> usize
    requires { IsCallArg (arg_tree arg.now) }
    ensures { result ≡ count_arg (arg_tree arg.now) }
{
    match arg {
        Arg::One(_) => 1,
        Arg::Cells(area) => area.size() as usize,
    }
}
