//! Lines of texts.

ghost use Rattle.std.specs.Prelude.{◌≡◌, ◌<◌, ◌≤◌, [], ◌∷◌, length, slice_get, option_copied, MatchOption, IfSome};
ghost use Rattle.carte_tree.specs.Texts.{lines};

/// The first line of a text and what stands behind it, where the text has a line.
pub(crate) fn first_line(text: &str) -> Option<(&str, &str)>
    ensures lines { MatchOption result (lines text.now ≡ []) (λ p. lines text.now ≡ p.0.now ∷ lines p.1.now) }
    ensures line { IfSome result (λ p. length p.0.now ≤ length text.now) }
    ensures behind { IfSome result (λ p. length p.1.now < length text.now) }
{
    if text.is_empty() {
        return None;
    }
    match text.split_once('\n') {
        Some((line, behind)) => Some((line, behind)),
        None => Some((text, "")),
    }
}

/// How many lines a text has.
pub(crate) fn count_lines(text: &str) -> usize
    ensures count { result ≡ length (lines text.now) }
    ensures bound { result ≤ length text.now }
{
    let mut count = 0;
    let mut rest = text;
    while let Some((_, behind)) = first_line(rest) {
        count += 1;
        rest = behind;
    }
    count
}

/// The line at a place counted from 0, where there is one.
pub(crate) fn line_at(text: &str, place: usize) -> Option<&str>
    ensures line { option_copied result ≡ slice_get (lines text.now) place }
    ensures bound { IfSome result (λ l. length l.now ≤ length text.now) }
{
    let mut left = place;
    let mut rest = text;
    while let Some((line, behind)) = first_line(rest) {
        if left == 0 {
            return Some(line);
        }
        left -= 1;
        rest = behind;
    }
    None
}
