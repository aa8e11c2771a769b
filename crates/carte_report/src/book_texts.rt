// Why bytes are no book.
ghost use Rattle.std.specs.Prelude.{◌≡◌, ◌++◌, codes, IfOk, string_bytes};
ghost use Rattle.std.specs.Fmt.{decimal};
ghost use Rattle.carte_report.specs.Texts.{which_text, formula_fault_text, book_fault_text};

use crate::pieces::{after, between, number_after, plain, quoted_after};
use carte_book::{BookFault, Which};
use carte_tree::FormulaFault;
use carte_value::{Name, NoMemory};
use std::alloc::Global;

pub(crate) fn book_fault_text(alloc: Global, fault: &BookFault) -> Result<String, NoMemory>
    ensures { IfOk result (λ text. string_bytes text ≡ book_fault_text fault.now) }
{
    match fault {
        BookFault::Limit(which, number) => limit_text(alloc, which, *number),
        BookFault::NotToml => plain(alloc, "not TOML"),
        BookFault::BadTable(text) => quoted_after(alloc, "bad table ", text.text()),
        BookFault::BadName(text) => quoted_after(alloc, "bad name ", text.text()),
        BookFault::BadValue(name) => after(alloc, "bad value of ", name.text()),
        BookFault::Formula(name, fault) => formula_text(alloc, name, fault),
        BookFault::Twice(name) => after(alloc, name.text(), " is an input and a rule"),
        BookFault::NotUtf8(name) => between(alloc, "cell ", name.text(), " is not UTF-8"),
        BookFault::NoMemory => plain(alloc, "out of memory"),
    }
}

fn limit_text(alloc: Global, which: &Which, number: u64) -> Result<String, NoMemory>
    ensures { IfOk result (λ text. string_bytes text ≡ codes "more than " ++ (decimal number ++ (codes " " ++ which_text which.now))) }
{
    let number = number.to_string(alloc)?;
    let mut out = String::from_str(alloc, "more than ")?;
    out.push_str(number.as_str())?;
    out.push_str(" ")?;
    out.push_str(which_text(which))?;
    Ok(out)
}

fn which_text(which: &Which) -> &'static str
    ensures { result.now ≡ which_text which.now }
{
    match which {
        Which::Bytes => "bytes",
        Which::Keys => "keys",
        Which::Rows => "rows",
        Which::Columns => "columns",
    }
}

fn formula_text(alloc: Global, name: &Name, fault: &FormulaFault) -> Result<String, NoMemory>
    ensures { IfOk result (λ text. string_bytes text ≡ codes "formula of " ++ (name.now ++ (codes ": " ++ formula_fault_text fault.now))) }
{
    let fault = formula_fault_text(alloc, fault)?;
    let mut out = String::from_str(alloc, "formula of ")?;
    out.push_str(name.text())?;
    out.push_str(": ")?;
    out.push_str(fault.as_str())?;
    Ok(out)
}

fn formula_fault_text(alloc: Global, fault: &FormulaFault) -> Result<String, NoMemory>
    ensures { IfOk result (λ text. string_bytes text ≡ formula_fault_text fault.now) }
{
    match fault {
        FormulaFault::BadToken(place) => at_place(alloc, "bad token at ", *place),
        FormulaFault::BadSyntax(place) => at_place(alloc, "bad syntax at ", *place),
        FormulaFault::TooDeep(place) => at_place(alloc, "too deep at ", *place),
        FormulaFault::TooLong(_) => plain(alloc, "longer than 4096 bytes"),
        FormulaFault::TooWide(place) => at_place(alloc, "too many cells at ", *place),
        FormulaFault::NoMemory => plain(alloc, "out of memory"),
    }
}

fn at_place(alloc: Global, front: &str, place: usize) -> Result<String, NoMemory>
    ensures { IfOk result (λ t. string_bytes t ≡ front.now ++ decimal place) }
{
    number_after(alloc, front, place as u64)
}
