//! Which book the bytes of a rule file are, or which fault they have.

use crate::texts::{fault_key, fault_word, item_text};
use carte_book::Book;
use carte_rules::read_rules;
use carte_value::{Name, Seeded};
use std::alloc::Global;
use std::test::Fail;

// A row is a file, and what is told of it: a fault, its number and its key, or "book" and how many keys there are. The places of formulas' faults are
// counted by hand.
const FAULTS: [(&str, &str, u64, &str); 34] = [
    ("", "book", 0, ""),
    ("# nothing\n[rules]\n", "book", 0, ""),
    ("[inputs]\na = 1\n[rules]\nb = 'a'\n", "book", 2, ""),
    ("x =", "not TOML", 0, ""),
    ("[inputs]\na = 9223372036854775808", "not TOML", 0, ""),
    ("[inputs]\na = 1\na = 2", "not TOML", 0, ""),
    ("[other]", "bad table", 0, "other"),
    ("inputs = 1", "bad table", 0, "inputs"),
    ("[[rules]]", "bad table", 0, "rules"),
    ("rules = 1\ninputs = 1", "bad table", 0, "inputs"),
    ("[inputs]\na = true\n[Inputs]", "bad table", 0, "Inputs"),
    ("[inputs]\nA = 1", "bad name", 0, "A"),
    ("[inputs]\n'' = 1", "bad name", 0, ""),
    ("[inputs]\n\"say \\\"\\n\" = 1", "bad name", 0, "say \"\n"),
    ("[inputs]\n\"\\u00e9\" = 1", "bad name", 0, "é"),
    ("[inputs]\na = true", "bad value", 0, "a"),
    ("[inputs]\na = 1.0", "bad value", 0, "a"),
    ("[inputs]\na.b = 1", "bad value", 0, "a"),
    ("[inputs]\nb = true\na = 2026-11-27", "bad value", 0, "a"),
    ("[inputs]\na = true\nB = 1", "bad name", 0, "B"),
    ("[inputs]\nA = true", "bad name", 0, "A"),
    ("[inputs]\na = true\n[rules]\nA = 'a'", "bad value", 0, "a"),
    ("[rules]\n1a = 'a'", "bad name", 0, "1a"),
    ("[rules]\na = 1", "bad value", 0, "a"),
    ("[rules]\na = '1 +'", "bad syntax", 3, "a"),
    ("[rules]\na = 'b ? c'", "bad token", 2, "a"),
    ("[rules]\na = ''", "bad syntax", 0, "a"),
    ("[inputs]\na = 1\n[rules]\na = 'b'", "twice", 0, "a"),
    ("[inputs]\na = 1\n[rules]\na = 2", "twice", 0, "a"),
    ("[inputs]\na = 1\n[rules]\na = 'a +'", "twice", 0, "a"),
    (
        "[inputs]\na = 1\n[rules]\nA = 'b'\na = 'b'",
        "bad name",
        0,
        "A",
    ),
    (
        "[inputs]\nb = 1\n[rules]\na = 'a +'\nb = 'a'",
        "bad syntax",
        3,
        "a",
    ),
    ("[rules]\nb = 3\na = 'a +'", "bad syntax", 3, "a"),
    ("[rules]\nb = 'a +'\na = 3", "bad value", 0, "a"),
];

// A row is a file and what stands at `a`, `b`, `c` and `d/e`, or the fault, by the rules of TOML. Some are of plain lines, and others aren't.
const LINES: [(&str, &str); 25] = [
    (
        "[inputs]\nb = 2\na = -1\n[rules]\n\"d/e\" = 'a + b'\nc = \"a\"\n",
        "-1;2;a;a+b;",
    ),
    (
        "# one\n\n [inputs] # two\r\n\tb=2# three\r\n'a'\t=\t'#'\r\n\r\n[ \"rules\" ]\nc = 'b'",
        "\"#\";2;b;nothing;",
    ),
    ("[inputs]\n[rules]\na = '1'", "1;nothing;nothing;nothing;"),
    ("[inputs]\na = 1\n[rules]\n", "1;nothing;nothing;nothing;"),
    ("[inputs]\n[rules]", "nothing;nothing;nothing;nothing;"),
    (
        "[inputs]\na = 1_000\nb = 0x1F\n[rules]\nc = 'a'",
        "1000;31;a;nothing;",
    ),
    (
        "[inputs]\na = \"\"\nb = \"\\u0062\"\n[rules]\nc = \"\"\"a\"\"\"",
        "\"\";\"b\";a;nothing;",
    ),
    ("[rules]\na = 'b'\n[inputs]\nb = 1", "b;1;nothing;nothing;"),
    ("[rules]\na = '1'", "1;nothing;nothing;nothing;"),
    ("inputs.b = 1\n[rules]\na = 'b'", "b;1;nothing;nothing;"),
    (
        "inputs = { b = 1 }\n[rules]\na = 'b'",
        "b;1;nothing;nothing;",
    ),
    ("[inputs]\nb = 1\nb = 1\n[rules]\na = 'b'", "not TOML "),
    ("[inputs]\nb = 1\n'b' = 1\n[rules]\na = 'b'", "not TOML "),
    (
        "[inputs]\nb = 1\n[rules]\na = 'b'\nc = 'b'\na = 'b'",
        "not TOML ",
    ),
    ("[inputs]\nb = 1\n[rules]\na = 'b'\nb = 'a'", "twice b"),
    (
        "[inputs]\nb = 1\n[inputs]\nc = 1\n[rules]\na = 'b'",
        "not TOML ",
    ),
    (
        "[inputs]\nb = 1\n[rules]\na = 'b'\n[inputs.c]",
        "bad value c",
    ),
    ("[inputs]\nb = 1\n[rules]\na = 'b'\n[c]", "bad table c"),
    ("[inputs]\nb = 1\n[rules]\na = 'b' c = 'b'", "not TOML "),
    ("[inputs]\nb = 1\n[rules]\na = 'b'\nc", "not TOML "),
    ("[inputs]\nb = 1 # \u{7f}\n[rules]\na = 'b'", "not TOML "),
    ("[inputs]\nb = \"1\n[rules]\na = 'b'", "not TOML "),
    ("[inputs]\nb = [1]\na = {}\n[rules]\n", "bad value a"),
    ("[inputs]\nb = 1\n[rules]\nc = 2\na = 1", "bad value a"),
    (
        "rules.c = ' 1+b'\n[inputs]\n\"d/e\" = -9223372036854775808\nb = +9223372036854775807\na = \"it's \\u00e9\"",
        "\"it's é\";9223372036854775807;1+b;-9223372036854775808;",
    ),
];

// Whether this is told of the bytes.
fn tells(alloc: Global, bytes: &[u8], word: &str, number: u64, key: &str) -> bool {
    match read_rules(alloc, bytes, Seeded::of(7)) {
        Ok(book) => word == "book" && number == book.keys(),
        Err(fault) => (word, number) == fault_word(&fault) && key == fault_key(&fault),
    }
}

// The text behind a byte order mark. It means the same, and no plain file begins with one.
fn marked(alloc: Global, text: &str) -> Result<String, Fail> {
    let mut all = String::from_str(alloc, "\u{feff}")?;
    all.push_str(text)?;
    Ok(all)
}

#[test]
fn faults_of_rules(rt: HostRuntime) -> Result<(), Fail> {
    for (text, word, number, key) in FAULTS {
        let all = marked(rt.alloc(), text)?;
        let right = tells(rt.alloc(), text.as_bytes(), word, number, key)
            && tells(rt.alloc(), all.as_bytes(), word, number, key);
        assert!(rt; right, "{text}");
    }
    Ok(())
}

fn items(alloc: Global, book: &Book) -> Result<String, Fail> {
    let mut shown = String::new(alloc);
    for name in ["a", "b", "c", "d/e"] {
        let item = item_text(alloc, book, &Name::rule(alloc, name)?)?;
        shown.push_str(item.as_str())?;
        shown.push_str(";")?;
    }
    Ok(shown)
}

// What stands at the names, or the fault.
fn told(alloc: Global, text: &str) -> Result<String, Fail> {
    match read_rules(alloc, text.as_bytes(), Seeded::of(7)) {
        Ok(book) => items(alloc, &book),
        Err(fault) => Ok(format!(in alloc; "{} {}", fault_word(&fault).0, fault_key(&fault))?),
    }
}

#[test]
fn lines_of_rules(rt: HostRuntime) -> Result<(), Fail> {
    for (text, shown) in LINES {
        let all = marked(rt.alloc(), text)?;
        let right = told(rt.alloc(), text)?.as_str() == shown
            && told(rt.alloc(), all.as_str())?.as_str() == shown;
        assert!(rt; right, "{text}");
    }
    Ok(())
}
