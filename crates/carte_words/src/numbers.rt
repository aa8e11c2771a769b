// The seed and the count of a generated book, and the number of workers.
ghost use Rattle.std.specs.Prelude.{◌≡◌, ◌==◌, slice_index};
ghost use Rattle.carte_words.specs.Numbers.{seed_in, count_in, number_in, workers_in};

const LEAST_KEYS: u64 = 2;

const MOST_KEYS: u64 = 262144;

const MOST_WORKERS: usize = 64;

/// The seed that a word is: digits alone, whose number fits.
pub(crate) fn seed_in(word: &str) -> Option<u64>
    ensures { result ≡ seed_in word.now }
{
    if has_plus(word) {
        return None;
    }
    match word.parse::<u64>() {
        Ok(number) => Some(number),
        Err(_) => None,
    }
}

/// The count of keys that a word is.
pub(crate) fn count_in(word: &str) -> Option<u64>
    ensures { result ≡ count_in word.now }
{
    match seed_in(word) {
        Some(number) if LEAST_KEYS <= number && number <= MOST_KEYS => Some(number),
        _ => None,
    }
}

/// The number of workers that a word is.
pub(crate) fn workers_in(word: &str) -> Option<usize>
    ensures { result ≡ workers_in word.now }
{
    match number_in(word) {
        Some(number) if 1 <= number && number <= MOST_WORKERS => Some(number),
        _ => None,
    }
}

// The number that a word is, where a plus may stand first.
fn number_in(word: &str) -> Option<usize>
    ensures { result ≡ number_in word.now }
{
    match word.parse::<usize>() {
        Ok(number) => Some(number),
        Err(_) => None,
    }
}

fn has_plus(word: &str) -> bool
    ensures { result ≡ slice_index word.now 0 == 43 }
{
    match word.as_bytes().first() {
        Some(b'+') => true,
        _ => false,
    }
}
