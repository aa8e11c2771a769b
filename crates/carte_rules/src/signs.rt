// How much structure a document has, told before its tree is made.

/// The signs outside of texts and comments that make a part of a document's tree: each takes some hundred bytes of memory
/// there. A book of 262,144 keys has 262,144 `=`, as many `.` or `,` where its keys are dotted or stand in tables on one
/// line, and two tables.
const MOST_SIGNS: usize = 1_048_576;

/// Where the next byte stands, with the quote that the text began with.
#[derive(Drop)]
enum Place {
    Outside,
    Comment,
    Opened(u8),
    Empty(u8),
    Short(u8),
    ShortEscaped,
    Long(u8),
    LongOnce(u8),
    LongTwice(u8),
    LongClosed(u8),
    LongEscaped,
}

/// Whether bytes have more signs than any book has, so that a tree of them would take memory for nothing.
pub(crate) fn is_overgrown(bytes: &[u8]) -> bool {
    let mut place = Place::Outside;
    let mut signs = 0usize;
    for byte in bytes {
        let here = settled(place, *byte);
        if is_sign(&here, *byte) {
            signs = signs.saturating_add(1);
        }
        place = behind(here, *byte);
    }
    signs > MOST_SIGNS
}

// A text of no bytes, and a long one that was closed, end where no quote follows.
fn settled(place: Place, byte: u8) -> Place {
    match place {
        Place::Empty(quote) if byte != quote => Place::Outside,
        Place::LongClosed(quote) if byte != quote => Place::Outside,
        _ => place,
    }
}

fn is_sign(place: &Place, byte: u8) -> bool {
    match (place, byte) {
        (Place::Outside, b'[' | b'{' | b',' | b'.' | b'=') => true,
        _ => false,
    }
}

fn behind(place: Place, byte: u8) -> Place {
    match place {
        Place::Outside => begun(byte),
        Place::Comment if byte == b'\n' => Place::Outside,
        Place::Comment => Place::Comment,
        Place::Opened(quote) if byte == quote => Place::Empty(quote),
        Place::Short(quote) if byte == quote || byte == b'\n' => Place::Outside,
        Place::Opened(quote) | Place::Short(quote) => in_short(quote, byte),
        Place::ShortEscaped => Place::Short(b'"'),
        Place::Empty(quote) => Place::Long(quote),
        Place::Long(quote) if byte == quote => Place::LongOnce(quote),
        Place::LongOnce(quote) if byte == quote => Place::LongTwice(quote),
        Place::LongTwice(quote) if byte == quote => Place::LongClosed(quote),
        Place::LongClosed(quote) => Place::LongClosed(quote),
        Place::Long(quote) | Place::LongOnce(quote) => in_long(quote, byte),
        Place::LongTwice(quote) => in_long(quote, byte),
        Place::LongEscaped => Place::Long(b'"'),
    }
}

fn begun(byte: u8) -> Place {
    match byte {
        b'#' => Place::Comment,
        b'"' | b'\'' => Place::Opened(byte),
        _ => Place::Outside,
    }
}

fn in_short(quote: u8, byte: u8) -> Place {
    if quote == b'"' && byte == b'\\' {
        Place::ShortEscaped
    } else {
        Place::Short(quote)
    }
}

fn in_long(quote: u8, byte: u8) -> Place {
    if quote == b'"' && byte == b'\\' {
        Place::LongEscaped
    } else {
        Place::Long(quote)
    }
}
