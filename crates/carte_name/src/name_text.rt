ghost use Rattle.std.specs.Prelude.{◌≡◌, ◌≤◌, length, slice_index, nat_le, ◌&&◌};
ghost use Rattle.std.specs.List.{count_by, list_all};
ghost use Rattle.carte_name.specs.Fronts.{front_of};
ghost use Rattle.carte_name.specs.Names.{is_name_byte, is_digit, is_letter, is_upper, is_row, is_rule_name, is_cell_text, is_cell_name, is_name};
ghost use Rattle.carte_name.specs.Prefixes.{IsLongestPrefix, IsRun, letters_of};

use crate::NAME_LIMIT;

/// Whether a text is a name of a rule file.
pub(crate) fn is_rule(text: &[u8]) -> bool
    ensures { result ≡ is_rule_name text.now }
{
    1 <= text.len()
        && text.len() <= NAME_LIMIT
        && text[0].is_ascii_lowercase()
        && all_of_rules(text)
}

/// The same of a text of at most 16 bytes, tested in its front: all at once, as no branch depends on a byte.
pub(crate) fn is_rule_front(front: &[u8; 16], text: &[u8]) -> bool
    requires padded { front.now ≡ front_of text.now }
    requires few { length text.now ≤ 16 }
    ensures { result ≡ is_rule_name text.now }
{
    first(text).is_ascii_lowercase() & (bytes_of_rules(front) as usize == text.len())
}

/// Whether a text is a name of a cell, in either case.
pub(crate) fn is_cell(text: &[u8]) -> bool
    ensures { result ≡ is_cell_text text.now }
{
    let letters = letters(text);
    letters > 0 && is_row(text.split_at(letters).1)
}

/// Whether a text is a name as it stands: of a rule file, or of a cell in upper case.
pub(crate) fn is_name(text: &[u8]) -> bool
    ensures { result ≡ is_name text.now }
{
    is_rule(text) || is_upper_cell(text)
}

/// Whether a text is a name of a cell in upper case.
fn is_upper_cell(text: &[u8]) -> bool
    ensures { result ≡ is_cell_name text.now }
{
    let capitals = upper_letters(text);
    capitals > 0 && is_row(text.split_at(capitals).1)
}

/// The length of the longest prefix that some name begins with.
pub(crate) fn name_prefix(text: &[u8]) -> usize
    ensures { IsLongestPrefix is_name text.now result }
{
    rule_prefix(text).max(upper_cell_prefix(text))
}

/// The length of the longest prefix that some name of a rule file begins with.
pub(crate) fn rule_prefix(text: &[u8]) -> usize
    ensures { IsLongestPrefix is_rule_name text.now result }
{
    if !first(text).is_ascii_lowercase() {
        return 0;
    }
    rule_bytes(text)
}

/// The length of the longest prefix that some name of a cell begins with, in either case.
pub(crate) fn cell_prefix(text: &[u8]) -> usize
    ensures { IsLongestPrefix is_cell_text text.now result }
{
    let letters = letters(text);
    if letters == 0 {
        return 0;
    }
    letters + row_prefix(text.split_at(letters).1)
}

/// The length of the longest prefix that some name of a cell in upper case begins with.
fn upper_cell_prefix(text: &[u8]) -> usize
    ensures { IsLongestPrefix is_cell_name text.now result }
{
    let capitals = upper_letters(text);
    if capitals == 0 {
        return 0;
    }
    capitals + row_prefix(text.split_at(capitals).1)
}

/// The first byte, or 0 where there is none.
pub(crate) fn first(text: &[u8]) -> u8
    ensures { result ≡ slice_index text.now 0 }
{
    match text.first() {
        Some(byte) => *byte,
        None => 0,
    }
}

/// `.` and `/` stand before the digits, so two runs and `_` are all.
fn of_rules(byte: u8) -> bool
    ensures { result ≡ is_name_byte byte }
{
    (b'.' <= byte && byte <= b'9') || (b'a' <= byte && byte <= b'z') || byte == b'_'
}

/// How many bytes of a front can stand in a name of a rule file: the zeros behind its text can't.
fn bytes_of_rules(front: &[u8; 16]) -> u8
    ensures { result ≡ count_by is_name_byte front.now }
{
    let mut count = 0;
    for byte in front {
        count += of_rules(*byte) as u8;
    }
    count
}

fn all_of_rules(text: &[u8]) -> bool
    ensures { result ≡ list_all is_name_byte text.now }
{
    text.iter().all(|byte| of_rules(*byte))
}

fn rule_bytes(text: &[u8]) -> usize
    ensures { IsRun is_name_byte 64 text.now result }
{
    let most = text.len().min(NAME_LIMIT);
    for at in 0..most {
        if !of_rules(text[at]) {
            return at;
        }
    }
    most
}

fn letters(text: &[u8]) -> usize
    ensures number { result ≡ letters_of is_letter text.now }
    ensures within { result ≤ length text.now }
{
    if text.is_empty() || !text[0].is_ascii_alphabetic() {
        return 0;
    }
    if text.len() == 1 || !text[1].is_ascii_alphabetic() {
        return 1;
    }
    2
}

fn upper_letters(text: &[u8]) -> usize
    ensures number { result ≡ letters_of is_upper text.now }
    ensures within { result ≤ length text.now }
{
    if text.is_empty() || !text[0].is_ascii_uppercase() {
        return 0;
    }
    if text.len() == 1 || !text[1].is_ascii_uppercase() {
        return 1;
    }
    2
}

fn is_row(text: &[u8]) -> bool
    ensures { result ≡ is_row text.now }
{
    1 <= text.len() && text.len() <= 4 && all_digits(text) && text[0] >= b'1'
}

fn all_digits(text: &[u8]) -> bool
    ensures { result ≡ list_all is_digit text.now }
{
    text.iter().all(|byte| byte.is_ascii_digit())
}

fn row_prefix(text: &[u8]) -> usize
    ensures { IsLongestPrefix is_row text.now result }
{
    if !starts_row(text) {
        return 0;
    }
    digits(text)
}

fn starts_row(text: &[u8]) -> bool
    ensures { result ≡ (nat_le 49 (slice_index text.now 0) && nat_le (slice_index text.now 0) 57) }
{
    let first = first(text);
    b'1' <= first && first <= b'9'
}

fn digits(text: &[u8]) -> usize
    ensures { IsRun is_digit 4 text.now result }
{
    let most = text.len().min(4);
    for at in 0..most {
        if !text[at].is_ascii_digit() {
            return at;
        }
    }
    most
}
