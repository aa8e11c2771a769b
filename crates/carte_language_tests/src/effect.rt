//! Each effect over a look.

use crate::rows::{Told, rows_hold};
use crate::shown::Shown;
use crate::texts::{named, stop_text};
use carte_effect::{
    Answers, Digests, Each, Effect, Ended, FetchList, Hashed, Made, RefsOnly, Snapshot, Stuck,
    Tracked,
};
use carte_value::{Links, Name, Names, NoMemory, Seeded, SharedLinks};
use std::alloc::Global;
use std::test::Fail;

// A row is an effect and the names that it is asked for, and what it answers or lists.
const EFFECTS: &str = "each b a b -> 3 values
each a B2 A1 -> not done B2
tracked b A1 a b -> 3 values b a b
alone b A1 a -> withheld b A1 a
hashed a b a -> digests 86 111 86
hashed a B2 b -> not done B2";

// The names of rules each have a value, and cells have none yet.
fn look_of(alloc: Global) -> Result<Shown, Fail> {
    let mut shown = Shown::rules(alloc, false);
    shown.put_lines(alloc, "a 7\nb 4")?;
    Ok(shown)
}

fn names_of(alloc: Global, texts: &str) -> Result<Names, NoMemory> {
    let mut names = Names::new(alloc);
    for text in texts.split(' ') {
        if let Ok(name) = Name::exact(alloc, text) {
            names.push(name)?;
        }
    }
    Ok(names)
}

// What a list of names comes to.
fn fetched<B: FetchList<Stop = Stuck>>(
    alloc: Global,
    list: &mut B,
    names: &Names,
) -> Result<String, NoMemory> {
    match list.fetch_list(alloc, names) {
        Ok(Answers::Values(values)) => Ok(format!(in alloc; "{} values", values.len())?),
        Ok(Answers::Withheld) => Ok(String::from_str(alloc, "withheld")?),
        Err(halt) => stop_text(alloc, &halt),
    }
}

fn tracked(alloc: Global, shown: &Shown, names: &Names) -> Result<String, NoMemory> {
    let mut tracked = Tracked::of(alloc, Snapshot::of(shown));
    for name in names.as_slice() {
        let _ = tracked.fetch(alloc, name);
    }
    let count = format!(in alloc; "{} values", tracked.values().len())?;
    named(alloc, count.as_str(), tracked.names().as_slice())
}

fn alone(alloc: Global, names: &Names) -> Result<String, NoMemory> {
    let mut list = RefsOnly::new(alloc);
    match list.fetch_list(alloc, names) {
        Ok(Answers::Withheld) => named(alloc, "withheld", list.names().as_slice()),
        _ => Ok(String::from_str(alloc, "answered")?),
    }
}

// The first byte of a value's digest, or 0 where its digests differ.
fn first_byte(
    alloc: Global,
    name: &Name,
    value: &Hashed,
    digests: &mut Digests,
) -> Result<u8, NoMemory> {
    let of = digests.of(value.value());
    let hashed = digests.hashed(value.value().copy(alloc)?);
    let unhashed = Hashed::unhashed(value.value().copy(alloc)?);
    let links = SharedLinks::of(alloc, Links::new(alloc))?;
    let mut made = Made::Ran(Ended::new(alloc, name.copy(alloc)?, unhashed, links)?);
    made.hash(digests);
    let all = [value.digest(), hashed.digest(), made.hashed().digest()];
    Ok(if all.iter().all(|digest| *digest == of) {
        of.0[0]
    } else {
        0
    })
}

// The first bytes of SHA-256 of the values' spellings: of 7 this is 86, and of 4 it is 111.
fn hashed(alloc: Global, shown: &Shown, names: &Names) -> Result<String, NoMemory> {
    let mut digests = Digests::new(alloc, Seeded::of(7));
    let mut text = String::from_str(alloc, "digests")?;
    for name in names.as_slice() {
        let value = match Snapshot::with(shown, &mut digests).fetch(alloc, name) {
            Ok(value) => value,
            Err(halt) => return stop_text(alloc, &halt),
        };
        let first = first_byte(alloc, name, &value, &mut digests)?;
        let word = format!(in alloc; " {first}")?;
        text.push_str(word.as_str())?;
    }
    Ok(text)
}

// Effects over a look.
#[derive(Drop)]
struct Seeing {
    look: Shown,
}

impl Told for Seeing {
    fn told(&self, alloc: Global, asked: &str) -> Result<String, NoMemory> {
        let (word, texts) = asked.split_once(' ').unwrap_or(("", asked));
        let names = names_of(alloc, texts)?;
        match word {
            "each" => fetched(alloc, &mut Each::of(Snapshot::of(&self.look)), &names),
            "tracked" => tracked(alloc, &self.look, &names),
            "hashed" => hashed(alloc, &self.look, &names),
            _ => alone(alloc, &names),
        }
    }
}

#[test]
fn effects(rt: HostRuntime) -> Result<(), Fail> {
    let alloc = rt.alloc();
    let look = look_of(alloc)?;
    let count = rows_hold(alloc, &Seeing { look }, EFFECTS)?;
    assert_eq!(rt; count, 6);
    Ok(())
}
