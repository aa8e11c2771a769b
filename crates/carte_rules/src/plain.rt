// The entries of plain files.
ghost use Rattle.std.specs.Prelude.{◌≡◌, ◌≤◌, Some, length, IsTrue, IfSome};
ghost use Rattle.std.specs.List.Sorted.{IsStrictlySortedBy};
ghost use Rattle.toml.specs.Parse.{parse_document};
ghost use Rattle.carte_name.specs.Names.{name_cmp};
ghost use Rattle.carte_rules.specs.Entries.{document_of, keys_of, ReadsPairs};
ghost use Rattle.carte_rules.specs.Orders.{IsOrderOf};

use crate::entry::{Entry, PlainTables};
use crate::line::{header, pair};
use std::alloc::Global;
use std::cmp::Ordering;
use toml_parser::text::{first, skip_blank};

/// The entries of a text that has the headers of both tables and else plain lines alone, each table by its keys.
pub(crate) fn read_plain(alloc: Global, s: &str) -> Option<PlainTables<'_>>
    ensures document { IfSome result (λ t. parse_document s.now ≡ Some (document_of t.inputs.items t.rules.items)) }
    ensures sorted { IfSome result (λ t. IsStrictlySortedBy name_cmp (keys_of t.inputs.items)) }
{
    if first(s) == 0xEF {
        return None;
    }
    let (inputs, rest) = pairs(alloc, header(alloc, skip_blank(s, true), "inputs")?)?;
    let (rules, rest) = pairs(alloc, header(alloc, skip_blank(rest, true), "rules")?)?;
    if skip_blank(rest, true).is_empty() {
        Some(PlainTables {
            inputs: by_key(inputs)?,
            rules: by_key(rules)?,
        })
    } else {
        None
    }
}

// The entries of the lines up to a header or the end.
fn pairs(alloc: Global, s: &str) -> Option<(Vec<Entry<'_>>, &str)>
    ensures value { IfSome result (λ p. ReadsPairs s.now p.0.items p.1.now) }
    ensures within { IfSome result (λ p. length p.1.now ≤ length s.now) }
{
    let mut entries = Vec::new(alloc);
    let mut rest = s;
    'lines: loop {
        let start = skip_blank(rest, true);
        if start.is_empty() || first(start) == b'[' {
            return Some((entries, rest));
        }
        let (entry, after) = pair(alloc, start)?;
        match entries.push(entry) {
            Ok(()) => rest = after,
            Err(_) => return None,
        }
    }
}

// The entries by their keys, where no key comes twice. Numbered keys stand in few runs that ascend, which a stable sort joins.
fn by_key(entries: Vec<Entry<'_>>) -> Option<Vec<Entry<'_>>>
    ensures { IfSome result (λ es. IsOrderOf entries.entry.items es.items) }
{
    let mut sorted = entries;
    sorted.sort_by(|a, b| a.key.cmp(b.key)).ok()?;
    if are_ascending(&sorted) {
        Some(sorted)
    } else {
        None
    }
}

fn are_ascending(entries: &[Entry<'_>]) -> bool
    ensures { IsTrue result → IsStrictlySortedBy name_cmp (keys_of entries.now) }
{
    for at in 1..entries.len() {
        match entries[at - 1].key.cmp(entries[at].key) {
            Ordering::Less => {}
            _ => return false,
        }
    }
    true
}
