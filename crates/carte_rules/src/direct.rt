// Plain lines that go into the draft as they are read, without a list of entries.
ghost use Rattle.std.specs.Prelude.{◌≡◌, ◌≤◌, List, Some, Ok, length, IfSome};
ghost use Rattle.std.specs.FinMap.{empty};
ghost use Rattle.carte_book.specs.Book.{book_view};
ghost use Rattle.carte_rules.specs.Drafts.{Holds};
ghost use Rattle.carte_rules.specs.Entries.{members_of, ReadsPairs};
ghost use Rattle.carte_rules.specs.Orders.{IsOfLines, new_inputs};
ghost use Rattle.carte_rules.specs.Reading.{Content, RulesInto};
ghost use Rattle.carte_rules.specs.declared.entry.Entry.{Entry};

use crate::draft::Draft;
use crate::entries::{put_input, put_rule};
use crate::line::{header, pair};
use carte_book::Book;
use carte_formula::Room;
use carte_value::Seeded;
use std::alloc::Global;
use toml_parser::text::{first, skip_blank};

/// As many bytes as most lines have at least. A book of shorter ones gets more room as its keys come: to count the lines first
/// costs as much as half of what is done with each.
const LINE: usize = 32;

/// The book of a text that has the headers of both tables and else plain lines alone, each of which could be put. None
/// says nothing of the text.
pub(crate) fn book_of_lines(alloc: Global, s: &str, hasher: Seeded) -> Option<Book>
    ensures { IfSome result (λ b. IsOfLines s.now (Ok (book_view b))) }
{
    if first(s) == 0xEF {
        return None;
    }
    let inputs = header(alloc, skip_blank(s, true), "inputs")?;
    let mut draft = Draft::new(alloc, s.len() / LINE, hasher).ok()?;
    let rest = input_lines(alloc, inputs, &mut draft)?;
    let rules = header(alloc, skip_blank(rest, true), "rules")?;
    let rest = rule_lines(alloc, rules, &mut draft)?;
    if skip_blank(rest, true).is_empty() {
        draft.finish().ok()
    } else {
        None
    }
}

// Puts the inputs of the lines up to a header or the end into a draft without keys.
fn input_lines<'a>(alloc: Global, s: &'a str, draft: &mut Draft) -> Option<&'a str>
    requires { Holds draft.old empty }
    ensures put { IfSome result (λ rest. (es : List Entry) × (m : Content) × ReadsPairs s.now es rest.now × (new_inputs es empty ≡ Some m) × Holds draft.new m) }
    ensures within { IfSome result (λ rest. length rest.now ≤ length s.now) }
{
    let mut rest = s;
    'lines: loop {
        let start = skip_blank(rest, true);
        if start.is_empty() || first(start) == b'[' {
            return Some(rest);
        }
        let (entry, after) = pair(alloc, start)?;
        match put_input(alloc, &entry, draft) {
            Ok(()) => rest = after,
            Err(_) => return None,
        }
    }
}

// Puts the rules of the lines up to a header or the end.
fn rule_lines<'a>(alloc: Global, s: &'a str, draft: &mut Draft) -> Option<&'a str>
    ensures put { (m : Content) → Holds draft.old m → IfSome result (λ rest. (es : List Entry) × (n : Content) × ReadsPairs s.now es rest.now × RulesInto (members_of es) m (Ok n) × Holds draft.new n) }
    ensures within { IfSome result (λ rest. length rest.now ≤ length s.now) }
{
    let mut room = Room::new(alloc);
    let mut rest = s;
    'lines: loop {
        let start = skip_blank(rest, true);
        if start.is_empty() || first(start) == b'[' {
            return Some(rest);
        }
        let (entry, after) = pair(alloc, start)?;
        match put_rule(alloc, &mut room, &entry, draft) {
            Ok(()) => rest = after,
            Err(_) => return None,
        }
    }
}
