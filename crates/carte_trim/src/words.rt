// The words of the command line.
ghost use Rattle.std.specs.Prelude.{◌≡◌, ◌==◌, slice_index, map};
ghost use Rattle.carte_words.specs.Numbers.{number_within, seed_in};
ghost use Rattle.carte_trim.specs.Words.{count_of};

use carte_words::Word;

const MOST: u64 = 1000000;

/// How many traces of each key are to stay: the third of three words, of which the others are the state and the new one.
pub fn count_of(words: &[Word]) -> Option<u64>
    ensures { result ≡ count_of words.now }
{
    match words {
        [_, _, count] => count_in(count.text()),
        _ => None,
    }
}

fn count_in(word: &str) -> Option<u64>
    ensures { result ≡ number_within 1 1000000 word.now }
{
    match digits_in(word) {
        Some(number) if 1 <= number && number <= MOST => Some(number),
        _ => None,
    }
}

// The number that a word is: digits alone, whose number fits.
fn digits_in(word: &str) -> Option<u64>
    ensures { result ≡ seed_in word.now }
{
    if has_plus(word) {
        return None;
    }
    match word.parse::<u64>() {
        Ok(number) => Some(number),
        Err(_) => None,
    }
}

fn has_plus(word: &str) -> bool
    ensures { result ≡ slice_index word.now 0 == 43 }
{
    match word.as_bytes().first() {
        Some(b'+') => true,
        _ => false,
    }
}
