ghost use Rattle.std.specs.Prelude.{◌≡◌, ◌≤◌, ◌<◌, IsTrue, slice_index, drop, if◌then◌else◌};
ghost use Rattle.std.specs.Char.{digit_value};
ghost use Rattle.std.specs.Str.Parse.{digits_value};
ghost use Rattle.carte_name.specs.Names.{is_row, is_upper};
ghost use Rattle.carte_name.specs.Places.{column_of, row_of};

/// The column of a cell, from its name.
pub(crate) fn column(name: &[u8]) -> u32
    ensures { result ≡ column_of name.now }
{
    let first = byte_at(name, 0).saturating_sub(64) as u32;
    let second = byte_at(name, 1);
    if second.is_ascii_uppercase() {
        first * 26 + second.saturating_sub(64) as u32
    } else {
        first
    }
}

/// The row of a cell, from its name.
pub(crate) fn row(name: &[u8]) -> u32
    requires { IsTrue (is_row (if is_upper (slice_index name.now 1) then drop 2 name.now else drop 1 name.now)) }
    ensures { result ≡ row_of name.now }
{
    number(behind_letters(name))
}

fn byte_at(bytes: &[u8], at: usize) -> u8
    ensures { result ≡ slice_index bytes.now at }
{
    match bytes.get(at) {
        Some(byte) => *byte,
        None => 0,
    }
}

fn behind_letters(name: &[u8]) -> &[u8]
    ensures { result.now ≡ (if is_upper (slice_index name.now 1) then drop 2 name.now else drop 1 name.now) }
{
    match name {
        [_, second, rest @ ..] if second.is_ascii_uppercase() => rest,
        [_, rest @ ..] => rest,
        [] => name,
    }
}

fn number(digits: &[u8]) -> u32
    requires { IsTrue (is_row digits.now) }
    ensures { result ≡ digits_value 10 digits.now }
{
    match digits {
        [a] => digit(*a),
        [a, b] => digit(*a) * 10 + digit(*b),
        [a, b, c] => digit(*a) * 100 + digit(*b) * 10 + digit(*c),
        [a, b, c, d] => digit(*a) * 1000 + digit(*b) * 100 + digit(*c) * 10 + digit(*d),
        _ => 0,
    }
}

fn digit(byte: u8) -> u32
    ensures value { 48 ≤ byte → byte ≤ 57 → result ≡ digit_value byte }
    ensures bound { result < 256 }
{
    byte.saturating_sub(48) as u32
}
