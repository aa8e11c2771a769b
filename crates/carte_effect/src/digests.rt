ghost use Rattle.std.specs.Prelude.{◌≡◌, IsTrue, IfSome};
ghost use Rattle.carte_value.specs.declared.value.Value.TheVariants.{Number};
ghost use Rattle.carte_value.specs.Spelling.{digest_of};

use crate::Hashed;
use carte_value::{Digest, Name, Seeded, Value};
use std::alloc::Global;
use std::collections::HashMap;
use std::marker::Model;

/// The most numbers whose digests are kept: a build has seldom as many, and the table stays small.
const MOST: usize = 4096;

/// The fewest bytes of a text whose digest is kept: that of a shorter one costs little more than looking it up would.
const LONG: usize = 256;

/// The digests of the numbers that were met so far, so that each is taken once, and those of long texts by the names at
/// which they were met. Contracts see nothing of it.
#[derive(Debug, Drop)]
pub struct Digests {
    alloc: Global,
    hasher: Seeded,
    numbers: HashMap<i64, Digest, Seeded>,
    // Behind a pointer, since digests go from hand to hand in each turn of a build, and few builds have long texts.
    texts: Option<Box<Texts>>,
}

type Texts = HashMap<Name, Hashed, Seeded>;

impl Model for Digests {
    ghost use Rattle.std.specs.Ordering.{int_eq};
    ghost use Rattle.std.specs.HashMap.{get};
    ghost use Rattle.carte_effect.specs.Digests.{AreOwn};

    ghost Value = { Unit {0} };

    ghost view = { λ _. tt };

    ghost invariant = { λ d. AreOwn (get int_eq d.numbers) };
}

impl Digests {
    /// No digests. It takes no memory.
    pub fn new(alloc: Global, hasher: Seeded) -> Digests {
        Digests {
            alloc,
            hasher,
            numbers: HashMap::with_hasher(alloc, hasher),
            texts: None,
        }
    }

    /// The digest of a value. A number's is kept, where there is memory for it.
    pub fn of(&mut self, value: &Value) -> Digest
        ensures { result ≡ digest_of value.now }
    {
        match value {
            Value::Number(number) => self.of_number(*number),
            _ => value.digest(),
        }
    }

    /// A value with its digest.
    pub fn hashed(&mut self, value: Value) -> Hashed
        ensures { result ≡ value }
    {
        let digest = self.of(&value);
        Hashed::with(value, digest)
    }

    /// The digest of a value that was met at this name. That of a long text is kept until another one is met there.
    #[inline(always)]
    pub fn of_at(&mut self, name: &Name, value: &Value) -> Digest
        ensures { result ≡ digest_of value.now }
    {
        if is_long(value) {
            self.of_text(name, value)
        } else {
            self.of(value)
        }
    }

    /// A value that was met at this name, with its digest.
    #[inline(always)]
    pub fn hashed_at(&mut self, name: &Name, value: Value) -> Hashed
        ensures { result ≡ value }
    {
        let digest = self.of_at(name, &value);
        Hashed::with(value, digest)
    }

    #[inline(never)]
    fn of_text(&mut self, name: &Name, value: &Value) -> Digest
        ensures { result ≡ digest_of value.now }
    {
        if let Some(digest) = self.known(name, value) {
            return digest;
        }
        let digest = value.digest();
        self.keep_text(name, value, digest);
        digest
    }

    // The digest that is kept at a name, where it is this value's.
    fn known(&self, name: &Name, value: &Value) -> Option<Digest>
        ensures { IfSome result (λ digest. digest ≡ digest_of value.now) }
    {
        match &self.texts {
            Some(texts) => known_in(texts, name, value),
            None => None,
        }
    }

    // A text with its digest is put beside the others, where there is memory.
    fn keep_text(&mut self, name: &Name, value: &Value, digest: Digest)
        requires { digest ≡ digest_of value.now }
    {
        if self.texts.is_none() {
            let texts = HashMap::with_hasher(self.alloc, self.hasher);
            self.texts = Box::new(self.alloc, texts).ok();
        }
        if let Some(texts) = &mut self.texts {
            put_into(self.alloc, texts, name, value, digest);
        }
    }

    fn of_number(&mut self, number: i64) -> Digest
        ensures { result ≡ digest_of (Number number) }
    {
        if let Some(digest) = self.numbers.get(&number) {
            return *digest;
        }
        let digest = Value::Number(number).digest();
        self.keep(number, digest);
        digest
    }

    // The digest of a number is put beside the others, where there is room.
    fn keep(&mut self, number: i64, digest: Digest)
        requires { digest ≡ digest_of (Number number) }
    {
        if self.numbers.len() < MOST {
            let _ = self.numbers.insert(number, digest);
        }
    }
}

// Comparing texts costs far less than taking a digest.
fn known_in(texts: &Texts, name: &Name, value: &Value) -> Option<Digest>
    ensures { IfSome result (λ digest. digest ≡ digest_of value.now) }
{
    match texts.get(name) {
        Some(known) => if is_same_text(known.value(), value) {
            Some(known.digest())
        } else {
            None
        },
        None => None,
    }
}

fn put_into(alloc: Global, texts: &mut Texts, name: &Name, value: &Value, digest: Digest)
    requires { digest ≡ digest_of value.now }
{
    if let (Ok(name), Ok(value)) = (name.copy(alloc), value.copy(alloc)) {
        let _ = texts.insert(name, Hashed::with(value, digest));
    }
}

fn is_long(value: &Value) -> bool {
    match value {
        Value::Text(text) => text.text().len() >= LONG,
        _ => false,
    }
}

// Whether two values are texts of the same bytes.
fn is_same_text(value: &Value, other: &Value) -> bool
    ensures { IsTrue result → value.now ≡ other.now }
{
    match (value, other) {
        (Value::Text(text), Value::Text(other)) => text.text() == other.text(),
        _ => false,
    }
}
