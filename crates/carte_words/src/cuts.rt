// Texts cut at blanks.
ghost use Rattle.std.specs.Prelude.{◌≡◌, [], length, MatchOption};
ghost use Rattle.carte_words.specs.Cuts.{is_blank, begins_blank, last_of, skip, trim_end, without_return, word_of, behind, NextWord};

/// The word that stands first, and what follows it.
pub(crate) fn next_word(text: &str) -> Option<(&str, &str)>
    ensures { MatchOption result (skip text.now ≡ []) (λ p. NextWord (skip text.now) p.0.now p.1.now) }
{
    let text = skip(text);
    if text.is_empty() {
        return None;
    }
    Some(text.split_at(word_len(text)))
}

/// The text without the blanks in front.
pub(crate) fn skip(text: &str) -> &str
    ensures { result.now ≡ skip text.now }
{
    let mut rest = text;
    while begins_blank(rest) {
        rest = rest.split_at(1).1;
    }
    rest
}

/// The text without the blanks at its end.
pub(crate) fn trim_end(text: &str) -> &str
    ensures { result.now ≡ trim_end text.now }
{
    let mut front = text;
    while ends_blank(front) {
        front = front.split_at(front.len() - 1).0;
    }
    front
}

/// The text without one carriage return at its end.
pub(crate) fn without_return(text: &str) -> &str
    ensures { result.now ≡ without_return text.now }
{
    if last(text) == b'\r' {
        text.split_at(text.len() - 1).0
    } else {
        text
    }
}

fn word_len(text: &str) -> usize
    ensures { result ≡ length (word_of text.now) }
{
    let bytes = text.as_bytes();
    for at in 0..bytes.len() {
        if is_blank(bytes[at]) {
            return at;
        }
    }
    bytes.len()
}

fn begins_blank(text: &str) -> bool
    ensures { result ≡ begins_blank text.now }
{
    match text.as_bytes().first() {
        Some(byte) => is_blank(*byte),
        None => false,
    }
}

fn ends_blank(text: &str) -> bool
    ensures { result ≡ is_blank (last_of text.now) }
{
    is_blank(last(text))
}

/// The last byte, or 0 where there is none.
fn last(text: &str) -> u8
    ensures { result ≡ last_of text.now }
{
    match text.as_bytes().last() {
        Some(byte) => *byte,
        None => 0,
    }
}

fn is_blank(byte: u8) -> bool
    ensures { result ≡ is_blank byte }
{
    byte == b' ' || byte == b'\t'
}
