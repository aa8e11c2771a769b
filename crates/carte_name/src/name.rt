ghost use Rattle.std.specs.Prelude.{◌≡◌, ◌≤◌, length, slice_index, ℕ, Some, false, refl, IsTrue, IfOk, MatchOption};
ghost use Rattle.std.proofs.Common.{rules};
ghost use Rattle.std.specs.Ordering.{nat_cmp};
ghost use Rattle.std.specs.Cmp.{on_equiv, on_total, on_po, on_per, partial_equiv_from_equiv};
ghost use Rattle.std.specs.Cmp.Lexicographic.{nat_list_eq_equiv, nat_list_cmp_total, texts_ties, texts_po};
ghost use Rattle.std.specs.Arc.{arc_str_bytes};
ghost use Rattle.carte_name.specs.Fronts.{fed, fed_alike, front_of};
ghost use Rattle.carte_name.specs.Names.{name_cmp, name_eq, is_name, is_rule_name, is_cell_name, is_cell_text};
ghost use Rattle.carte_name.specs.Places.{cell_at, IsPlace, IsPlaceOf};
ghost use Rattle.carte_name.specs.Kinds.{is_name_of, is_text_of, name_of};
ghost use Rattle.carte_name.specs.Prefixes.{IsNameRead};
ghost use Rattle.std.specs.Str.{str_to_ascii_uppercase};

use crate::cell_name::cell_name;
use crate::front::{alike, front_of, order};
use crate::held::Held;
use crate::name_text::{
    cell_prefix, first, is_cell, is_name, is_rule, is_rule_front, name_prefix, rule_prefix,
};
use crate::place::{column, row};
use crate::{Kind, NameFault, NoMemory};
use std::alloc::{AllocError, Global};
use std::cmp::Ordering;
use std::fmt;
use std::fmt::{Debug, Formatter, Write};
use std::hash::{Hash, Hasher};
use std::marker::Model;
use std::sync::ArcStr;

/// The most bytes that a name of a rule file has.
pub const NAME_LIMIT: usize = 64;

/// What a name has as its number until one is written: no list is so long.
const NO_HINT: u32 = u32::MAX;

/// The name of a key: of a rule or an input in a rule file, or of a cell in a sheet.
///
/// Up to 16 bytes stand in the name itself: it takes no memory then, and names are told apart and put in order by two
/// numbers. A longer text is shared by its copies, since a name stands in many lists at once.
#[derive(Drop)]
pub struct Name {
    held: Held,
}

impl Model for Name {
    ghost use Rattle.std.specs.Prelude.{ℕ, List};
    ghost use Rattle.carte_name.specs.Fronts.{shown, IsHeld};

    ghost Value = { List ℕ };

    ghost view = { λ k. shown k.held };

    ghost invariant = { λ k. IsHeld k.held };
}

impl Name {
    /// Reads a name of a rule file: a lower-case letter, and then at most 63 bytes more of lower-case letters, digits, `_`, `.` and `/`.
    pub fn rule(alloc: Global, text: &str) -> Result<Name, NameFault>
        ensures { IsNameRead is_rule_name text.now text.now result }
    {
        let bytes = text.as_bytes();
        if bytes.len() <= 16 {
            return match Name::short_rule(bytes) {
                Some(name) => Ok(name),
                None => Err(NameFault::BadName(rule_prefix(bytes))),
            };
        }
        if !is_rule(bytes) {
            return Err(NameFault::BadName(rule_prefix(bytes)));
        }
        Ok(Name::held(alloc, text)?)
    }

    /// The name of a rule file that stands in itself: its bytes are tested where they stand then.
    fn short_rule(text: &[u8]) -> Option<Name>
        requires { length text.now ≤ 16 }
        ensures { MatchOption result (is_rule_name text.now ≡ false) (λ k. IsTrue (is_rule_name text.now) × (k ≡ text.now)) }
    {
        let front = front_of(text);
        if !is_rule_front(&front, text) {
            return None;
        }
        Some(Name::short(text, front))
    }

    /// Reads a name of a cell, in either case: A to ZZ, and then a row from 1 to 9999 without leading zeros.
    pub fn cell(alloc: Global, text: &str) -> Result<Name, NameFault>
        ensures { IsNameRead is_cell_text text.now (str_to_ascii_uppercase text.now) result }
    {
        if !is_cell(text.as_bytes()) {
            return Err(NameFault::BadName(cell_prefix(text.as_bytes())));
        }
        let upper = text.to_ascii_uppercase(alloc)?;
        Ok(Name::held(alloc, upper.as_str())?)
    }

    /// The name whose text is exactly this: a name of a rule file, or a name of a cell in upper case.
    pub fn exact(alloc: Global, text: &str) -> Result<Name, NameFault>
        ensures { IsNameRead is_name text.now text.now result }
    {
        if !is_name(text.as_bytes()) {
            return Err(NameFault::BadName(name_prefix(text.as_bytes())));
        }
        Ok(Name::held(alloc, text)?)
    }

    /// The same of bytes, which aren't tried as UTF-8: a name is ASCII.
    pub fn exact_bytes(alloc: Global, text: &[u8]) -> Result<Name, NameFault>
        ensures { IsNameRead is_name text.now text.now result }
    {
        if text.len() <= 16
            && first(text).is_ascii_lowercase()
            && let Some(name) = Name::short_rule(text)
        {
            return Ok(name);
        }
        if !is_name(text) {
            return Err(NameFault::BadName(name_prefix(text)));
        }
        let text = unsafe { str::from_utf8_unchecked(text) };
        Ok(Name::held(alloc, text)?)
    }

    /// Reads a name of this kind of book.
    pub fn of(alloc: Global, kind: Kind, text: &str) -> Result<Name, NameFault>
        ensures { IsNameRead (is_text_of kind) text.now (name_of kind text.now) result }
    {
        match kind {
            Kind::Rules => Name::rule(alloc, text),
            Kind::Sheet => Name::cell(alloc, text),
        }
    }

    /// The name of the cell in this column and this row, counted from 1.
    pub fn cell_at(alloc: Global, column: u32, row: u32) -> Result<Name, NoMemory>
        requires { IsPlace column row }
        ensures { IfOk result (λ k. k ≡ cell_at column row) }
    {
        let text = cell_name(alloc, column, row)?;
        Ok(Name::held(alloc, text.as_str())?)
    }

    /// The name of a rule file whose text is one, which isn't tested again.
    pub fn tested(alloc: Global, text: &str) -> Result<Name, NoMemory>
        requires { IsTrue (is_rule_name text.now) }
        ensures { IfOk result (λ k. k ≡ text.now) }
    {
        Ok(Name::held(alloc, text)?)
    }

    fn held(alloc: Global, text: &str) -> Result<Name, AllocError>
        requires { IsTrue (is_name text.now) }
        ensures { IfOk result (λ k. k ≡ text.now) }
    {
        if text.len() <= 16 {
            return Ok(Name::short(text.as_bytes(), front_of(text.as_bytes())));
        }
        let held = Held::Long(NO_HINT, ArcStr::from_str(alloc, text)?);
        Ok(Name { held })
    }

    fn short(text: &[u8], front: [u8; 16]) -> Name
        requires name { IsTrue (is_name text.now) }
        requires few { length text.now ≤ 16 }
        requires padded { front ≡ front_of text.now }
        ensures { result ≡ text.now }
    {
        let held = Held::Short(text.len() as u8, NO_HINT, front);
        Name { held }
    }

    /// The column and the row of a cell, counted from 1.
    pub fn place(&self) -> Option<(u32, u32)>
        ensures { IsPlaceOf self.now result }
    {
        if !self.is_cell() {
            return None;
        }
        let name = self.bytes();
        Some((column(name), row(name)))
    }

    /// Whether it is a name of a rule file.
    pub fn is_rule(&self) -> bool
        ensures { result ≡ is_rule_name self.now }
    {
        self.text_is_name();
        self.first().is_ascii_lowercase()
    }

    /// Whether it is a name of a cell.
    pub fn is_cell(&self) -> bool
        ensures { result ≡ is_cell_name self.now }
    {
        self.text_is_name();
        self.first().is_ascii_uppercase()
    }

    fn first(&self) -> u8
        ensures { result ≡ slice_index self.now 0 }
    {
        match &self.held {
            Held::Short(_, _, front) => front[0],
            Held::Long(_, text) => first(text.as_bytes()),
        }
    }

    /// Whether it is a name of this kind of book.
    pub fn is_of(&self, kind: Kind) -> bool
        ensures { result ≡ is_name_of kind self.now }
    {
        match kind {
            Kind::Rules => self.is_rule(),
            Kind::Sheet => self.is_cell(),
        }
    }

    /// The name as it is written; that of a cell is in upper case.
    pub fn text(&self) -> &str
        ensures text { result.now ≡ self.now }
        ensures name { IsTrue (is_name self.now) }
    {
        match &self.held {
            Held::Short(..) => unsafe { str::from_utf8_unchecked(self.bytes()) },
            Held::Long(_, text) => text.as_str(),
        }
    }

    /// The bytes of its text, at less cost than the text.
    pub fn bytes(&self) -> &[u8]
        ensures { result.now ≡ self.now }
    {
        match &self.held {
            Held::Short(length, _, front) => &front[..*length as usize],
            Held::Long(_, text) => text.as_bytes(),
        }
    }

    /// The bytes of a name are a name, which `bytes` doesn't say. Nothing is done.
    pub fn text_is_name(&self)
        ensures { IsTrue (is_name self.now) }
    {
        let _held = &self.held;
    }

    /// The number that was written into the name last: the place at which it stood in some list. It is no part of the name,
    /// which is its text, and nothing is promised of it: who goes by it looks whether this name stands there.
    pub fn hint(&self) -> usize {
        match &self.held {
            Held::Short(_, hint, _) => *hint as usize,
            Held::Long(hint, _) => *hint as usize,
        }
    }

    /// Writes a number into the name, which stays the same. One above 32 bits is cut.
    pub fn set_hint(&mut self, place: usize)
        ensures { self.new ≡ self.old }
    {
        let number = (place & 0xFFFF_FFFF) as u32;
        match &mut self.held {
            Held::Short(_, hint, _) => *hint = number,
            Held::Long(hint, _) => *hint = number,
        }
    }

    /// The same name, with this number in it.
    pub fn hinted(self, place: usize) -> Name
        ensures { result ≡ self }
    {
        let mut name = self;
        name.set_hint(place);
        name
    }

    /// The same name, with the same number in it. A long one shares its text, so it takes nothing from the allocator.
    pub fn copy(&self, _alloc: Global) -> Result<Name, NoMemory>
        ensures { IfOk result (λ k. k ≡ self.now) }
    {
        match &self.held {
            Held::Short(length, hint, front) => {
                let held = Held::Short(*length, *hint, *front);
                Ok(Name { held })
            }
            Held::Long(hint, text) => {
                let held = Held::Long(*hint, text.clone()?);
                Ok(Name { held })
            }
        }
    }
}

impl Debug for Name {
    fn fmt<W: Write>(&self, f: &mut Formatter<W>) -> fmt::Result {
        f.debug_struct("Name").field("text", &self.text()).finish()
    }
}

impl PartialEq for Name {
    ghost eq = { name_eq };

    ghost laws = { partial_equiv_from_equiv nat_list_eq_equiv };

    #[inline(always)]
    fn eq(&self, other: &Name) -> bool {
        match (&self.held, &other.held) {
            (Held::Short(length, _, front), Held::Short(others, _, theirs)) => {
                alike(front, theirs) && length == others
            }
            _ => same_text(self, other),
        }
    }
}

impl Eq for Name {
    ghost laws = { nat_list_eq_equiv };
}

impl PartialOrd for Name {
    ghost partial_cmp = { λ a b. Some (name_cmp a b) };

    ghost laws = { texts_po };

    fn partial_cmp(&self, other: &Name) -> Option<Ordering> {
        Some(self.cmp(other))
    }
}

impl Ord for Name {
    ghost cmp = { name_cmp };

    ghost total = { nat_list_cmp_total };

    ghost matches_partial_cmp = { λ a b. refl };

    ghost matches_eq = { texts_ties };

    fn cmp(&self, other: &Name) -> Ordering {
        match (&self.held, &other.held) {
            (Held::Short(length, _, front), Held::Short(others, _, theirs)) => {
                match order(front, theirs) {
                    Ordering::Equal => length.cmp(others),
                    unlike => unlike,
                }
            }
            _ => self.text().cmp(other.text()),
        }
    }
}

impl Hash for Name {
    ghost hash_input = { fed };

    ghost respects_eq = { fed_alike };

    #[inline(always)]
    fn hash<H: Hasher>(&self, state: &mut H) {
        match &self.held {
            Held::Short(_, _, front) => state.write(front.as_slice()),
            Held::Long(_, text) => write_whole(text, state),
        }
    }
}

// What is done for long names stands apart, so that the rest is small enough to be part of what looks a name up.
#[inline(never)]
fn same_text(one: &Name, other: &Name) -> bool
    ensures { result ≡ name_eq one.now other.now }
{
    one.text() == other.text()
}

#[inline(never)]
fn write_whole<H: Hasher>(text: &ArcStr, state: &mut H)
    ensures { state.new ≡ H.write state.old (arc_str_bytes text.now) }
{
    state.write(text.as_bytes());
}
