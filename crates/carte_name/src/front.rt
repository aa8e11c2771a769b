ghost use Rattle.std.specs.Prelude.{◌≡◌, ◌≤◌, ◌+◌, length, take, drop};
ghost use Rattle.std.specs.Int.{w64, from_be_bytes};
ghost use Rattle.carte_name.specs.Fronts.{front_of};
ghost use Rattle.carte_name.specs.Names.{name_cmp, name_eq};

use std::cmp::Ordering;
use std::simd::Simd;

/// The first 16 bytes, with zeros behind them where there are fewer.
pub(crate) fn front_of(text: &[u8]) -> [u8; 16]
    ensures { result ≡ front_of text.now }
{
    match text.len() {
        8..=16 => by_ends::<8>(text),
        4..=7 => by_ends::<4>(text),
        _ => by_bytes(text),
    }
}

// The first and the last N bytes, which may overlap: each of these is one load and one store, where bytes by the length are a call.
#[inline(always)]
fn by_ends<const N: usize>(text: &[u8]) -> [u8; 16]
    requires from { N ≤ length text.now }
    requires to { length text.now ≤ N + N }
    requires few { length text.now ≤ 16 }
    ensures { result ≡ front_of text.now }
{
    let mut front = [0; 16];
    let last = text.len() - N;
    Simd::<u8, N>::from_slice(text).copy_to_slice(&mut front);
    Simd::<u8, N>::from_slice(&text[last..]).copy_to_slice(&mut front[last..]);
    front
}

fn by_bytes(text: &[u8]) -> [u8; 16]
    ensures { result ≡ front_of text.now }
{
    let mut front = [0; 16];
    for at in 0..text.len().min(16) {
        front[at] = text[at];
    }
    front
}

/// Whether two fronts are the same.
pub(crate) fn alike(front: &[u8; 16], other: &[u8; 16]) -> bool
    ensures { result ≡ name_eq front.now other.now }
{
    high(front) == high(other) && low(front) == low(other)
}

/// The order of two fronts as bytes.
pub(crate) fn order(front: &[u8; 16], other: &[u8; 16]) -> Ordering
    ensures { result ≡ name_cmp front.now other.now }
{
    match high(front).cmp(&high(other)) {
        Ordering::Equal => low(front).cmp(&low(other)),
        unlike => unlike,
    }
}

/// The first eight bytes as a number, whose order is theirs.
fn high(front: &[u8; 16]) -> u64
    ensures { result ≡ from_be_bytes w64 (take 8 front.now) }
{
    let [a, b, c, d, e, f, g, h, ..] = *front;
    u64::from_be_bytes([a, b, c, d, e, f, g, h])
}

/// The next eight.
fn low(front: &[u8; 16]) -> u64
    ensures { result ≡ from_be_bytes w64 (drop 8 front.now) }
{
    let [.., a, b, c, d, e, f, g, h] = *front;
    u64::from_be_bytes([a, b, c, d, e, f, g, h])
}
