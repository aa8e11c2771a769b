ghost use Rattle.std.specs.Prelude.{ℕ, pos, ◌≡◌, ◌<◌, ◌≤◌, ◌+◌, ◌-◌, ◌%◌, IfOk, OnOk};
ghost use Rattle.carte_name.specs.declared.kind.Kind.TheVariants.{Rules};
ghost use Rattle.carte_tree.specs.Code.{tree_of};
ghost use Rattle.carte_tree.specs.Formula.{IsExpr, HasNames};
ghost use Rattle.carte_value.specs.declared.value.Value.TheVariants.{Number};
ghost use Rattle.carte_book.specs.Book.{book_view, input, rule};
ghost use Rattle.carte_book.specs.Edits.{with_item};
ghost use Rattle.carte_generate.specs.Draws.{next, drawn};
ghost use Rattle.carte_generate.specs.Generated.{inputs_of, key, difference, IsGenerated};
ghost use Rattle.carte_generate.specs.Growing.{HasKeys, IsNew, IsMade};

use crate::draws::Draws;
use crate::formula::difference;
use crate::keys::key;
use carte_book::{AddFault, Book};
use carte_tree::Expr;
use carte_value::{Kind, Name, NoMemory, Seeded, Value};
use std::alloc::Global;

/// How many of so many keys are inputs.
pub fn inputs_of(count: u64) -> u64
    ensures { result ≡ inputs_of count }
{
    (count / 10).max(1)
}

/// The generated book of this seed and so many keys, whose map is made with `hasher`. Its keys are `k0`, `k1` and so on.
pub fn generated(alloc: Global, seed: u64, count: u64, hasher: Seeded) -> Result<Book, NoMemory>
    requires some { 2 ≤ count }
    requires few { count ≤ 262144 }
    ensures { IfOk result (λ b. IsGenerated seed count (book_view b)) }
{
    let inputs = inputs_of(count);
    let mut draws = Draws { state: seed };
    let mut book = Book::with_room(alloc, Kind::Rules, count as usize, hasher)?;
    for number in 0..count {
        add_key(alloc, inputs, number, &mut draws, &mut book)?;
    }
    Ok(book)
}

/// Adds the key with this number, which is the next.
fn add_key(
    alloc: Global,
    inputs: u64,
    number: u64,
    draws: &mut Draws,
    book: &mut Book,
) -> Result<(), NoMemory>
    requires some { 1 ≤ inputs }
    requires few { number < 262144 }
    requires keys { HasKeys number (book_view book.old) }
    ensures keys { OnOk result (HasKeys (number + 1) (book_view book.new)) }
    ensures made { (seed : ℕ) → IsMade seed inputs number draws.old.state (book_view book.old) → OnOk result (IsMade seed inputs (number + 1) draws.new.state (book_view book.new)) }
{
    let name = key(alloc, number)?;
    if number < inputs {
        let value = draw_value(draws);
        add_input(book, name, value)
    } else {
        let formula = draw_formula(alloc, number, draws)?;
        add_rule(book, name, formula)
    }
}

fn draw_value(draws: &mut Draws) -> Value
    ensures value { result ≡ Number (pos (drawn draws.old.state % 1000)) }
    ensures state { draws.new.state ≡ next draws.old.state }
{
    Value::Number((draws.draw() % 1000) as i64)
}

fn draw_formula(alloc: Global, number: u64, draws: &mut Draws) -> Result<Expr, NoMemory>
    requires some { 1 ≤ number }
    requires few { number < 262144 }
    ensures formula { IfOk result (λ e. tree_of e ≡ difference (key (number - 1 - drawn draws.old.state % 8)) (key (drawn (next draws.old.state) % number))) }
    ensures expr { IfOk result (λ e. IsExpr (tree_of e)) }
    ensures names { IfOk result (λ e. HasNames Rules (tree_of e)) }
    ensures state { OnOk result (draws.new.state ≡ next (next draws.old.state)) }
{
    let near = (number - 1).saturating_sub(draws.draw() % 8);
    let far = draws.draw() % number;
    let near = key(alloc, near)?;
    let far = key(alloc, far)?;
    difference(alloc, near, far)
}

fn add_input(book: &mut Book, name: Name, value: Value) -> Result<(), NoMemory>
    requires { IsNew (book_view book.old) name }
    ensures { OnOk result (book_view book.new ≡ with_item (book_view book.old) name (input value)) }
{
    match book.add_input(name, value) {
        Ok(()) => Ok(()),
        Err(AddFault::NoMemory) => Err(NoMemory),
        Err(AddFault::Twice) => unreachable!(),
        Err(AddFault::Limit) => unreachable!(),
    }
}

fn add_rule(book: &mut Book, name: Name, formula: Expr) -> Result<(), NoMemory>
    requires new { IsNew (book_view book.old) name }
    requires expr { IsExpr (tree_of formula) }
    requires names { HasNames Rules (tree_of formula) }
    ensures { OnOk result (book_view book.new ≡ with_item (book_view book.old) name (rule (tree_of formula))) }
{
    match book.add_rule(name, formula) {
        Ok(()) => Ok(()),
        Err(AddFault::NoMemory) => Err(NoMemory),
        Err(AddFault::Twice) => unreachable!(),
        Err(AddFault::Limit) => unreachable!(),
    }
}
