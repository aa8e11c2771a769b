ghost use Rattle.std.specs.Prelude.{◌≡◌, IfOk};
ghost use Rattle.carte_value.specs.Spelling.{digest_of};

use crate::Digests;
use carte_value::{Digest, NoMemory, Value};
use std::alloc::Global;
use std::marker::Model;

/// A value with its digest, where that was taken: taking one costs more than anything else that is done with a value.
/// Contracts see the value alone.
#[derive(Debug, Drop)]
pub struct Hashed {
    value: Value,
    digest: Option<Digest>,
}

impl Model for Hashed {
    ghost use Rattle.carte_value.specs.declared.value.Value.{Value as SomeValue};
    ghost use Rattle.carte_effect.specs.Digests.{IsOwn};

    ghost Value = { SomeValue };

    ghost view = { λ h. h.value };

    ghost invariant = { λ h. IsOwn h.digest h.value };
}

impl Hashed {
    /// A value whose digest is taken each time that it is asked for.
    pub fn unhashed(value: Value) -> Hashed
        ensures { result ≡ value }
    {
        Hashed {
            value,
            digest: None,
        }
    }

    /// A value whose digest is taken now.
    pub fn of(value: Value) -> Hashed
        ensures { result ≡ value }
    {
        let digest = value.digest();
        Hashed::with(value, digest)
    }

    /// A value with the digest that it is known to have.
    pub fn with(value: Value, digest: Digest) -> Hashed
        requires { digest ≡ digest_of value }
        ensures { result ≡ value }
    {
        Hashed {
            value,
            digest: Some(digest),
        }
    }

    pub fn value(&self) -> &Value
        ensures { result.now ≡ self.now }
    {
        &self.value
    }

    pub fn into_value(self) -> Value
        ensures { result ≡ self }
    {
        self.value
    }

    pub fn digest(&self) -> Digest
        ensures { result ≡ digest_of self.now }
    {
        match self.digest {
            Some(digest) => digest,
            None => self.value.digest(),
        }
    }

    /// Takes its digest, where that wasn't taken yet.
    pub(crate) fn hash(&mut self, digests: &mut Digests)
        ensures { self.new ≡ self.old }
    {
        if self.digest.is_none() {
            self.digest = Some(digests.of(&self.value));
        }
    }

    /// The same value, with its digest where that was taken.
    pub fn copy(&self, alloc: Global) -> Result<Hashed, NoMemory>
        ensures { IfOk result (λ h. h ≡ self.now) }
    {
        let value = self.value.copy(alloc)?;
        Ok(Hashed {
            value,
            digest: self.digest,
        })
    }
}
