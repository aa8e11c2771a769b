ghost use Rattle.std.specs.Prelude.{◌≡◌, ◌++◌, ◌+◌, ◌≤◌, ℕ, List, All, IfOk, OnOk, length, take, drop};
ghost use Rattle.std.specs.Int.{w32, to_be_bytes};
ghost use Rattle.sha2.specs.Hashers.{Holds256};
ghost use Rattle.carte_tree.specs.Code.{tree_of};
ghost use Rattle.carte_tree.specs.Formula.{IsExpr};
ghost use Rattle.carte_book.specs.Book.{book_view, hasher_in};
ghost use Rattle.carte_book.specs.Digest.{kind_code, spelled_name, spelled_formula, spelled_rules, rules_digest_of};
ghost use Rattle.carte_book.specs.Order.{rules_view, IsFormulaOf};

use crate::Book;
use crate::order::HeldRule;
use carte_tree::{Expr, print_expr};
use carte_value::{Digest, Kind, Name, NoMemory};
use sha2::{Digest as Hasher, Sha256};
use std::alloc::Global;

/// A hasher is handed as many bytes at once, since a call costs more than the few bytes of a name.
const MANY_BYTES: usize = 4096;

impl Book {
    /// SHA-256 (FIPS 180-4) of the kind and all rules in name order, each with its name and its printed formula. It is no
    /// work where the book knows it.
    pub fn rules_digest(&self, alloc: Global) -> Result<Digest, NoMemory>
        ensures { IfOk result (λ d. d ≡ rules_digest_of (book_view self.now)) }
    {
        match self.known {
            Some(digest) => Ok(digest),
            None => self.digest_anew(alloc),
        }
    }

    /// Works the digest of its rules out, where it isn't known yet; from then on it is, until a name is added.
    pub fn know_digest(&mut self, alloc: Global) -> Result<(), NoMemory>
        ensures book { book_view self.new ≡ book_view self.old }
        ensures hasher { hasher_in self.new ≡ hasher_in self.old }
    {
        let digest = self.rules_digest(alloc)?;
        self.known = Some(digest);
        Ok(())
    }

    fn digest_anew(&self, alloc: Global) -> Result<Digest, NoMemory>
        ensures { IfOk result (λ d. d ≡ rules_digest_of (book_view self.now)) }
    {
        let mut hasher = Sha256::new();
        hasher.update([kind_code(self.kind)]);
        feed_rules(alloc, &mut hasher, &self.rules_in_order(alloc)?)?;
        Ok(Digest(hasher.finalize()))
    }
}

fn kind_code(kind: Kind) -> u8
    ensures { result ≡ kind_code kind }
{
    match kind {
        Kind::Rules => 0,
        Kind::Sheet => 1,
    }
}

// The rules are spelled into one buffer, which is handed to the hasher whenever it holds many bytes.
fn feed_rules(alloc: Global, hasher: &mut Sha256, rules: &[HeldRule<'_>]) -> Result<(), NoMemory>
    requires { All IsFormulaOf rules.now }
    ensures { OnOk result ((m : List ℕ) → Holds256 hasher.old m → Holds256 hasher.new (m ++ spelled_rules (rules_view rules.now))) }
{
    let mut bytes = Vec::new(alloc);
    for rule in rules {
        spell_name(&mut bytes, rule.name)?;
        spell_formula(alloc, &mut bytes, rule.formula)?;
        feed_many(hasher, &mut bytes);
    }
    hasher.update(bytes.as_slice());
    Ok(())
}

fn feed_many(hasher: &mut Sha256, bytes: &mut Vec<u8>)
    ensures { (m : List ℕ) → Holds256 hasher.old m → (front : List ℕ) × Holds256 hasher.new front × (front ++ bytes.new.items ≡ m ++ bytes.old.items) }
{
    if bytes.len() >= MANY_BYTES {
        hasher.update(bytes.as_slice());
        bytes.clear();
    }
}

fn spell_name(bytes: &mut Vec<u8>, name: &Name) -> Result<(), NoMemory>
    ensures { OnOk result (bytes.new.items ≡ bytes.old.items ++ spelled_name name.now) }
{
    name.text_is_name();
    let text = name.bytes();
    bytes.push(text.len() as u8)?;
    bytes.extend_from_slice(text)?;
    Ok(())
}

// The length stands before the text, and is known behind it.
fn spell_formula(alloc: Global, bytes: &mut Vec<u8>, formula: &Expr) -> Result<(), NoMemory>
    requires { IsExpr (tree_of formula.now) }
    ensures { OnOk result (bytes.new.items ≡ bytes.old.items ++ spelled_formula (tree_of formula.now)) }
{
    let start = bytes.len();
    bytes.extend_from_slice(&[0; 4])?;
    print_expr(alloc, bytes, formula)?;
    let length = bytes.len() - start - 4;
    // The length of a longer text doesn't fit its 4 bytes. Such a formula is refused as one that memory is too small for.
    if length > u32::MAX as usize {
        return Err(NoMemory);
    }
    put_length(bytes, start, length as u32);
    Ok(())
}

fn put_length(bytes: &mut [u8], at: usize, count: u32)
    requires { at + 4 ≤ length bytes.old }
    ensures { bytes.new ≡ take at bytes.old ++ to_be_bytes w32 count ++ drop (at + 4) bytes.old }
{
    bytes[at..at + 4].copy_from_slice(&count.to_be_bytes());
}
