// The rules of a book in name order.
ghost use Rattle.std.specs.Prelude.{◌≡◌, All, IsTrue, IfOk, IsPermutation};
ghost use Rattle.std.specs.List.{IsDistinct};
ghost use Rattle.std.specs.List.Sorted.{IsStrictlySortedBy};
ghost use Rattle.std.specs.Map.{keys_of};
ghost use Rattle.carte_name.specs.Names.{name_cmp, name_eq};
ghost use Rattle.carte_book.specs.Book.{rules_of, rules_among, entries_view, book_view};
ghost use Rattle.carte_book.specs.Order.{names_of, rules_view, IsFormulaOf};

use crate::{Book, Item};
use carte_tree::Expr;
use carte_value::{Name, NoMemory};
use std::alloc::Global;
use std::cmp::Ordering;

/// A rule as a book holds it.
#[derive(Clone, Copy, Drop)]
pub(crate) struct HeldRule<'a> {
    pub(crate) name: &'a Name,
    pub(crate) formula: &'a Expr,
}

impl Book {
    /// The rules in name order.
    pub(crate) fn rules_in_order(&self, alloc: Global) -> Result<Vec<HeldRule<'_>>, NoMemory>
        ensures rules { IfOk result (λ rs. rules_view rs.items ≡ rules_of (book_view self.now)) }
        ensures formulas { IfOk result (λ rs. All IsFormulaOf rs.items) }
    {
        Ok(in_order(self.rules(alloc)?))
    }

    // The rules in the order in which they were added.
    fn rules(&self, alloc: Global) -> Result<Vec<HeldRule<'_>>, NoMemory>
        ensures rules { IfOk result (λ rs. rules_view rs.items ≡ rules_among (entries_view self.now.items.entries)) }
        ensures formulas { IfOk result (λ rs. All IsFormulaOf rs.items) }
        ensures unique { IsDistinct name_eq (keys_of self.now.items.entries) }
    {
        let mut rules = Vec::new(alloc);
        for (name, item) in &self.items {
            if let Item::Rule(rule) = item {
                let formula = &rule.formula;
                rules.push(HeldRule { name, formula })?;
            }
        }
        Ok(rules)
    }
}

// Where a file has its rules in name order, one pass is all.
fn in_order(rules: Vec<HeldRule<'_>>) -> Vec<HeldRule<'_>>
    requires { IsDistinct name_eq (names_of rules.items) }
    ensures same { IsPermutation rules.entry.items result.items }
    ensures sorted { IsStrictlySortedBy name_cmp (names_of result.items) }
{
    let mut sorted = rules;
    if !are_ascending(&sorted) {
        sorted.sort_unstable_by(|a, b| a.name.cmp(b.name));
    }
    sorted
}

fn are_ascending(rules: &[HeldRule<'_>]) -> bool
    ensures { IsTrue result → IsStrictlySortedBy name_cmp (names_of rules.now) }
{
    for at in 1..rules.len() {
        match rules[at - 1].name.cmp(rules[at].name) {
            Ordering::Less => {}
            _ => return false,
        }
    }
    true
}
