ghost use Rattle.std.specs.Prelude.{◌≡◌, ◌==◌, if◌then◌else◌};
ghost use Rattle.carte_name.specs.Names.{is_digit, is_lower, is_upper, is_letter, is_name_byte};
ghost use Rattle.carte_lexer.specs.Lexer.{is_blank, sign_of, start_by, start_of, low_class, high_class, grown_run, going_on, inside, closing};

use crate::tokens::{Class, Sign, Start};
use carte_tree::Op;
use carte_value::Kind;

/// What a byte between tokens begins.
#[inline(always)]
pub fn start_of(kind: Kind, byte: u8) -> Start
    ensures { start_by result ≡ start_of kind byte }
{
    if is_digit(byte) {
        return Start::Run(Class::Digits);
    }
    if is_lower(byte) {
        return Start::Run(low_class(kind));
    }
    if is_upper(byte) {
        return Start::Run(high_class(kind));
    }
    if is_blank(byte) {
        return Start::Blank;
    }
    if byte == b'"' {
        return Start::Run(Class::Inside);
    }
    sign_of(byte)
}

#[inline(always)]
fn low_class(kind: Kind) -> Class
    ensures { result ≡ low_class kind }
{
    match kind {
        Kind::Rules => Class::Word,
        Kind::Sheet => Class::Letters,
    }
}

#[inline(always)]
fn high_class(kind: Kind) -> Class
    ensures { result ≡ high_class kind }
{
    match kind {
        Kind::Rules => Class::Capitals,
        Kind::Sheet => Class::Letters,
    }
}

#[inline(always)]
fn sign_of(byte: u8) -> Start
    ensures { start_by result ≡ sign_of byte }
{
    match byte {
        b'+' => Start::Sign(Sign::Op(Op::Add)),
        b'-' => Start::Sign(Sign::Op(Op::Sub)),
        b'*' => Start::Sign(Sign::Op(Op::Mul)),
        b'/' => Start::Sign(Sign::Op(Op::Div)),
        b'&' => Start::Sign(Sign::Op(Op::Join)),
        b'=' => Start::Sign(Sign::Op(Op::Eq)),
        b'<' => Start::Run(Class::Less),
        b'>' => Start::Run(Class::Greater),
        b'(' => Start::Sign(Sign::Open),
        b')' => Start::Sign(Sign::Close),
        b',' => Start::Sign(Sign::Comma),
        b':' => Start::Sign(Sign::Colon),
        _ => Start::Wrong,
    }
}

/// How a run of so many bytes goes on with a byte, if it does.
pub fn grown(class: Class, length: usize, byte: u8) -> Option<Class>
    ensures { result ≡ grown_run class length byte }
{
    match class {
        Class::Digits => going_on(is_digit(byte), class),
        Class::Word => going_on(is_name_byte(byte), class),
        Class::Capitals => going_on(is_upper(byte), class),
        Class::Letters => going_on(is_upper(byte) || is_lower(byte) || is_digit(byte), class),
        Class::Less => going_on(length == 1 && (byte == b'=' || byte == b'>'), class),
        Class::Greater => going_on(length == 1 && byte == b'=', class),
        Class::Inside => Some(inside(byte)),
        Class::Quote => going_on(byte == b'"', Class::Inside),
    }
}

fn inside(byte: u8) -> Class
    ensures { result ≡ (if byte == 34 then closing else inside) }
{
    if byte == b'"' {
        Class::Quote
    } else {
        Class::Inside
    }
}

fn going_on(goes: bool, class: Class) -> Option<Class>
    ensures { result ≡ going_on goes class }
{
    if goes { Some(class) } else { None }
}

fn is_digit(byte: u8) -> bool
    ensures { result ≡ is_digit byte }
{
    byte.is_ascii_digit()
}

fn is_lower(byte: u8) -> bool
    ensures { result ≡ is_lower byte }
{
    byte.is_ascii_lowercase()
}

fn is_upper(byte: u8) -> bool
    ensures { result ≡ is_upper byte }
{
    byte.is_ascii_uppercase()
}

/// A small letter, a digit, `_`, `.` or `/`. These two stand right before the digits, so that a digit takes no more than two looks.
#[tactic(auto, using(crate::proofs::Bytes::low_name, crate::proofs::Bytes::high_name))]
#[inline(always)]
fn is_name_byte(byte: u8) -> bool
    ensures { result ≡ is_name_byte byte }
{
    if byte <= b'9' {
        byte >= b'.'
    } else {
        is_lower(byte) || byte == b'_'
    }
}

/// Space, tab, line feed and carriage return.
fn is_blank(byte: u8) -> bool
    ensures { result ≡ is_blank byte }
{
    byte == b' ' || byte == b'\t' || byte == b'\n' || byte == b'\r'
}
