ghost use Rattle.std.specs.Prelude.{◌≡◌, IfOk};

use carte_value::NoMemory;
use std::alloc::Global;
use std::marker::Model;

/// A key as a document writes it. Contracts see it as its bytes.
#[derive(Debug, Drop)]
pub struct KeyText {
    text: String,
}

impl Model for KeyText {
    ghost use Rattle.std.specs.Prelude.{ℕ, List, string_bytes};

    ghost Value = { List ℕ };

    ghost view = { λ k. string_bytes k.text };
}

impl KeyText {
    pub fn of(alloc: Global, text: &str) -> Result<KeyText, NoMemory>
        ensures { IfOk result (λ k. k ≡ text.now) }
    {
        match String::from_str(alloc, text) {
            Ok(text) => Ok(KeyText { text }),
            Err(_) => Err(NoMemory),
        }
    }

    /// It takes no memory.
    pub fn text(&self) -> &str
        ensures { result.now ≡ self.now }
    {
        self.text.as_str()
    }
}
