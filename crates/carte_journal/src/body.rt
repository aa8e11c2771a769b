// The bodies that a journal holds.
ghost use Rattle.std.specs.Prelude.{◌≡◌, ◌+◌, ◌<◌, ◌^◌, ◌++◌, ◌∷◌, [], length, slice_get, IfOk, OnOk, OnErr};
ghost use Rattle.std.specs.Option.{option_copied};

use carte_value::NoMemory;
use std::alloc::Global;
use std::marker::Model;

/// The body of a frame, and the offset of the frame's gate byte.
#[derive(Drop)]
pub struct Body {
    offset: u64,
    bytes: Vec<u8>,
}

impl Model for Body {
    ghost use Rattle.carte_journal.specs.Frames.{BodyAt};

    ghost Value = { BodyAt };

    ghost view = { λ b. (b.offset, b.bytes.items) };
}

impl Body {
    /// A body with these bytes, whose gate byte is at an offset.
    pub fn of(alloc: Global, offset: u64, bytes: &[u8]) -> Result<Body, NoMemory>
        ensures { IfOk result (λ b. b ≡ (offset, bytes.now)) }
    {
        Ok(Body {
            offset,
            bytes: bytes.to_vec(alloc)?,
        })
    }

    /// A body of bytes that are there already.
    pub(crate) fn with(offset: u64, bytes: Vec<u8>) -> Body
        ensures { result ≡ (offset, bytes.items) }
    {
        Body { offset, bytes }
    }

    /// Another that is the same.
    pub fn copy(&self, alloc: Global) -> Result<Body, NoMemory>
        ensures { IfOk result (λ b. b ≡ self.now) }
    {
        Body::of(alloc, self.offset, &self.bytes)
    }

    /// The offset of its gate byte.
    pub fn offset(&self) -> u64
        ensures { result ≡ self.now.0 }
    {
        self.offset
    }

    /// Its bytes.
    pub fn bytes(&self) -> &[u8]
        ensures { result.now ≡ self.now.1 }
    {
        &self.bytes
    }
}

/// Bodies in the order of their frames.
#[derive(Drop)]
pub struct Bodies {
    items: Vec<Body>,
}

impl Model for Bodies {
    ghost use Rattle.std.specs.Prelude.{List, length, ◌<◌, ◌^◌};
    ghost use Rattle.carte_journal.specs.Frames.{BodyAt};

    ghost Value = { List BodyAt };

    ghost view = { λ b. b.items.items };

    ghost invariant = { λ b. length b.items.items < 2 ^ 32 };
}

impl Bodies {
    /// No bodies.
    pub fn new(alloc: Global) -> Bodies
        ensures { result ≡ [] }
    {
        Bodies {
            items: Vec::new(alloc),
        }
    }

    /// How many there are.
    pub fn len(&self) -> usize
        ensures len { result ≡ length self.now }
        ensures bound { length self.now < 2 ^ 32 }
    {
        self.items.len()
    }

    /// The one at a place, or none where there are no more than that.
    pub fn get(&self, at: usize) -> Option<&Body>
        ensures { option_copied result ≡ slice_get self.now at }
    {
        self.items.get(at)
    }

    /// Others that are the same.
    pub fn copy(&self, alloc: Global) -> Result<Bodies, NoMemory>
        ensures { IfOk result (λ b. b ≡ self.now) }
    {
        let mut copies = Bodies::new(alloc);
        for body in self.items.iter() {
            copies.push(body.copy(alloc)?)?;
        }
        Ok(copies)
    }

    /// All of them.
    pub fn as_slice(&self) -> &[Body]
        ensures { result.now ≡ self.now }
    {
        self.items.as_slice()
    }

    /// All of them, so that each can be let go before the next one is read.
    pub fn into_vec(self) -> Vec<Body>
        ensures { result.items ≡ self }
    {
        self.items
    }

    /// Adds one, for which there has to be room: at most 2^32 - 1 are held.
    pub fn push(&mut self, body: Body) -> Result<(), NoMemory>
        requires { length self.old + 1 < 2 ^ 32 }
        ensures ok { OnOk result (self.new ≡ self.old ++ body ∷ []) }
        ensures err { OnErr result (self.new ≡ self.old) }
    {
        self.items.push(body)?;
        Ok(())
    }
}
