// Lines of a plain rule file. What isn't plain is none, and says nothing of the text.
ghost use Rattle.std.specs.Prelude.{◌≡◌, ◌==◌, ◌<◌, ◌≤◌, [], Some, length, take, true, false, if◌then◌else◌, IfSome};
ghost use Rattle.std.specs.Int.{w64, trailing_zeros};
ghost use Rattle.std.specs.List.{prefix_len};
ghost use Rattle.toml_parser.specs.Lexical.{split_while, is_bare, is_ws, skip_ws};
ghost use Rattle.toml_parser.specs.Strings as spec;
ghost use Rattle.toml.specs.Parse as spec_lines;
ghost use Rattle.toml.specs.Tables.{key_value, std_table};
ghost use Rattle.carte_rules.specs.Entries.{data_of};

use crate::entry::{Entry, Held};
use std::alloc::Global;
use std::simd::prelude::*;
use toml_parser::bytes::{is_bare, is_non_eol, is_ws};
use toml_parser::text::{byte_at, first, skip};
use toml_parser::{Scalar, dotted_key, starts_string, unquoted};

fn ws_len(bytes: &[u8]) -> usize
    ensures len { result ≡ prefix_len is_ws bytes.now }
    ensures within { result ≤ length bytes.now }
{
    bytes.iter().take_while(|byte| is_ws(**byte)).count()
}

// After spaces and tabs, of which there are mostly none or one: so they are counted here, and not by a call of `toml_parser`.
#[tactic(auto, using(crate::proofs::Runs::skipped))]
fn skip_ws(s: &str) -> &str
    ensures rest { result.now ≡ skip_ws s.now }
    ensures within { length result.now ≤ length s.now }
{
    let (_, rest) = s.split_at(ws_len(s.as_bytes()));
    rest
}

fn bare_len(bytes: &[u8]) -> usize
    ensures len { result ≡ prefix_len is_bare bytes.now }
    ensures within { result ≤ length bytes.now }
{
    bytes.iter().take_while(|byte| is_bare(**byte)).count()
}

// The bytes of a bare key at the front, and what follows them.
fn split_bare(s: &str) -> (&str, &str)
    ensures parts { (result.0.now, result.1.now) ≡ split_while is_bare s.now }
    ensures within { length result.1.now ≤ length s.now }
{
    s.split_at(bare_len(s.as_bytes()))
}

fn is_plain(delim: u8, byte: u8) -> bool
    ensures { result ≡ spec.is_plain delim false byte }
{
    byte != delim && !(byte == b'\\' && delim == b'"') && is_non_eol(byte)
}

fn last_plain_len(bytes: &[u8], delim: u8) -> usize
    ensures len { result ≡ prefix_len (spec.is_plain delim false) bytes.now }
    ensures within { result ≤ length bytes.now }
{
    bytes
        .iter()
        .take_while(|byte| is_plain(delim, **byte))
        .count()
}

// What begins an escape between these delimiters, or the delimiter again where nothing does.
fn escape_of(delim: u8) -> u8
    ensures { result ≡ (if delim == 34 then 92 else delim) }
{
    if delim == b'"' { b'\\' } else { delim }
}

// How many of the first 16 bytes come before one that ends the run. All are tested at once: a line is mostly one text.
fn plain_among(bytes: &[u8], delim: u8) -> usize
    requires { 16 ≤ length bytes.now }
    ensures len { result ≡ prefix_len (spec.is_plain delim false) (take 16 bytes.now) }
    ensures within { result ≤ 16 }
{
    let escape = escape_of(delim);
    let lanes = u8x16::from_slice(bytes);
    let stops = lanes.simd_eq(u8x16::splat(delim)) | lanes.simd_eq(u8x16::splat(escape));
    let controls = lanes.simd_lt(u8x16::splat(0x20)) & lanes.simd_ne(u8x16::splat(b'\t'));
    let ends = stops | (controls | lanes.simd_eq(u8x16::splat(0x7F)));
    first_set(ends.to_bitmask())
}

// Which of 16 lanes is set first, or 16 where none is.
fn first_set(mask: u64) -> usize
    ensures { result ≡ (if mask == 0 then 16 else trailing_zeros w64 mask) }
{
    if mask == 0 {
        16
    } else {
        mask.trailing_zeros() as usize
    }
}

fn plain_len(bytes: &[u8], delim: u8) -> usize
    ensures len { result ≡ prefix_len (spec.is_plain delim false) bytes.now }
    ensures within { result ≤ length bytes.now }
{
    let mut start = 0;
    'runs: while bytes.len() - start >= 16 {
        let run = plain_among(&bytes[start..], delim);
        start += run;
        if run < 16 {
            return start;
        }
    }
    start + last_plain_len(&bytes[start..], delim)
}

// What stands for itself between delimiters, and what follows it.
fn split_plain(s: &str, delim: u8) -> (&str, &str)
    requires { delim < 128 }
    ensures parts { (result.0.now, result.1.now) ≡ split_while (spec.is_plain delim false) s.now }
    ensures within { length result.1.now ≤ length s.now }
{
    s.split_at(plain_len(s.as_bytes(), delim))
}

// A string on one line without escapes.
fn one_line(s: &str) -> Option<(&str, &str)>
    requires { spec.starts_string s.now ≡ true }
    ensures value { IfSome result (λ p. spec.one_line s.now ≡ Some (p.0.now, p.1.now)) }
    ensures within { IfSome result (λ p. length p.1.now ≤ length s.now) }
{
    let delim = first(s);
    let (text, rest) = split_plain(skip(s, 1), delim);
    if first(rest) == delim {
        Some((text, skip(rest, 1)))
    } else {
        None
    }
}

fn simple_key(s: &str) -> Option<(&str, &str)>
    ensures value { IfSome result (λ p. spec.simple_key s.now ≡ Some (p.0.now, p.1.now)) }
    ensures within { IfSome result (λ p. length p.1.now ≤ length s.now) }
{
    if starts_string(s) {
        one_line(s)
    } else if is_bare(first(s)) {
        Some(split_bare(s))
    } else {
        None
    }
}

// A key of one part, and the white space behind it.
fn key(s: &str) -> Option<(&str, &str)>
    ensures value { IfSome result (λ p. spec.key s.now ≡ Some (([], p.0.now), p.1.now)) }
    ensures within { IfSome result (λ p. length p.1.now ≤ length s.now) }
{
    let (name, after) = simple_key(s)?;
    let rest = skip_ws(after);
    if first(rest) == b'.' {
        None
    } else {
        Some((name, rest))
    }
}

// A key, `=` and the white space around it.
fn key_equals(s: &str) -> Option<(&str, &str)>
    ensures value { IfSome result (λ p. spec_lines.key_equals s.now ≡ Some (([], p.0.now), p.1.now)) }
    ensures shorter { IfSome result (λ p. length p.1.now < length s.now) }
{
    let (name, rest) = key(s)?;
    if first(rest) == b'=' {
        Some((name, skip_ws(skip(rest, 1))))
    } else {
        None
    }
}

fn text(s: &str) -> Option<(Held<'_>, &str)>
    requires { spec.starts_string s.now ≡ true }
    ensures value { IfSome result (λ p. spec_lines.atom s.now ≡ Some (data_of p.0, p.1.now)) }
    ensures within { IfSome result (λ p. length p.1.now ≤ length s.now) }
{
    if byte_at(s, 1) == first(s) && byte_at(s, 2) == first(s) {
        return None;
    }
    let (text, rest) = one_line(s)?;
    Some((Held::Text(text), rest))
}

fn number(alloc: Global, s: &str) -> Option<(Held<'_>, &str)>
    requires { spec.starts_string s.now ≡ false }
    ensures value { IfSome result (λ p. spec_lines.atom s.now ≡ Some (data_of p.0, p.1.now)) }
    ensures within { IfSome result (λ p. length p.1.now ≤ length s.now) }
{
    match unquoted(alloc, s) {
        Ok((Scalar::Integer(number), rest)) => Some((Held::Number(number), rest)),
        _ => None,
    }
}

// A text or an integer.
fn value(alloc: Global, s: &str) -> Option<(Held<'_>, &str)>
    ensures value { IfSome result (λ p. spec_lines.val 80 s.now ≡ Some (data_of p.0, p.1.now)) }
    ensures within { IfSome result (λ p. length p.1.now ≤ length s.now) }
{
    if starts_string(s) {
        text(s)
    } else if first(s) == b'[' || first(s) == b'{' {
        None
    } else {
        number(alloc, s)
    }
}

fn ends_line(s: &str) -> bool
    ensures { result ≡ spec_lines.ends_line s.now }
{
    s.is_empty() || matches!(first(s), b'#' | b'\n' | b'\r')
}

/// A key and its value, on a line of their own.
pub(crate) fn pair(alloc: Global, s: &str) -> Option<(Entry<'_>, &str)>
    ensures value { IfSome result (λ p. spec_lines.line s.now ≡ Some ((([], p.0.key.now), key_value (data_of p.0.held)), p.1.now)) }
    ensures shorter { IfSome result (λ p. length p.1.now < length s.now) }
{
    if first(s) == b'[' {
        return None;
    }
    let (key, at_value) = key_equals(s)?;
    let (held, rest) = value(alloc, at_value)?;
    if ends_line(skip_ws(rest)) {
        Some((Entry { key, held }, rest))
    } else {
        None
    }
}

// The key of a header, if it has one part, and the closing bracket behind it.
fn header_key<'a>(alloc: Global, s: &'a str, name: &str) -> Option<&'a str>
    ensures value { IfSome result (λ rest. spec_lines.header_key s.now ≡ Some (([], name.now), rest.now)) }
    ensures shorter { IfSome result (λ rest. length rest.now < length s.now) }
{
    let Ok((key, rest)) = dotted_key(alloc, skip_ws(s)) else {
        return None;
    };
    if key.path.is_empty() && key.last.as_str() == name && first(rest) == b']' {
        Some(skip(rest, 1))
    } else {
        None
    }
}

/// What follows the header of the table of this name, on a line of its own.
pub(crate) fn header<'a>(alloc: Global, s: &'a str, name: &str) -> Option<&'a str>
    ensures value { IfSome result (λ rest. spec_lines.line s.now ≡ Some ((([], name.now), std_table), rest.now)) }
    ensures shorter { IfSome result (λ rest. length rest.now < length s.now) }
{
    if first(s) != b'[' || byte_at(s, 1) == b'[' {
        return None;
    }
    let rest = header_key(alloc, skip(s, 1), name)?;
    if ends_line(skip_ws(rest)) {
        Some(rest)
    } else {
        None
    }
}
