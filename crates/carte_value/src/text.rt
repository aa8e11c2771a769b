ghost use Rattle.std.specs.Prelude.{◌≡◌, ◌≤◌, length, IfOk, string_bytes};
ghost use Rattle.carte_value.specs.Texts.{IsText, IsTextMade, IsTextKept, IsAppended};

use crate::{NoMemory, TextFault};
use std::alloc::Global;
use std::marker::Model;
use std::sync::Arc;

/// The most bytes that a text value has.
pub const TEXT_LIMIT: usize = 65_536;

/// A text that is a value: UTF-8, and at most 65,536 bytes long.
///
/// Its bytes are shared by its copies, since a long text may be looked up by thousands of rules: a copy costs a pointer.
/// A text that nobody shares can grow where it stands.
#[derive(Debug, Drop)]
pub struct Text {
    text: Arc<String>,
}

impl Model for Text {
    ghost use Rattle.std.specs.Prelude.{ℕ, ◌≤◌, List, length, string_bytes};
    ghost use Rattle.std.specs.Arc.{arc_value};

    ghost Value = { List ℕ };

    ghost view = { λ t. string_bytes (arc_value t.text) };

    ghost invariant = { λ t. length (string_bytes (arc_value t.text)) ≤ 65536 };
}

impl Text {
    /// The text as a value.
    pub fn of(alloc: Global, text: &str) -> Result<Text, TextFault>
        ensures { IsTextMade text.now result }
    {
        if text.len() > TEXT_LIMIT {
            return Err(TextFault::TooLong(text.len()));
        }
        let text = String::from_str(alloc, text)?;
        Ok(Text::kept(alloc, text)?)
    }

    /// The text as a value, where it isn't too long. The bytes stay where they are; only what counts the copies is new.
    pub fn made(text: String) -> Result<Option<Text>, NoMemory>
        ensures { IfOk result (λ made. IsTextKept (string_bytes text) made) }
    {
        if text.len() > TEXT_LIMIT {
            return Ok(None);
        }
        let alloc = *text.allocator();
        Ok(Some(Text::kept(alloc, text)?))
    }

    fn kept(alloc: Global, text: String) -> Result<Text, NoMemory>
        requires { length (string_bytes text) ≤ 65536 }
        ensures { IfOk result (λ t. t ≡ string_bytes text) }
    {
        let text = Arc::new(alloc, text)?;
        Ok(Text { text })
    }

    pub fn text(&self) -> &str
        ensures text { result.now ≡ self.now }
        ensures is { IsText self.now }
    {
        self.text.as_str()
    }

    /// Puts more behind the text, where both are not too long for one, which is the answer. Else, and where memory is
    /// lacking, the text stays as it was. What it had is copied only where a copy of the text shares it or there is no room
    /// behind it, and then room doubles: so a text that grows bit by bit is copied about twice in all.
    pub fn append(&mut self, alloc: Global, more: &str) -> Result<bool, NoMemory>
        ensures { IsAppended self.old more.now self.new result }
    {
        let length = self.text().len();
        if more.len() > TEXT_LIMIT - length {
            return Ok(false);
        }
        if let Some(text) = Arc::get_mut(&mut self.text) {
            text.push_str(more)?;
            return Ok(true);
        }
        let mut text = String::with_capacity(alloc, length + more.len())?;
        text.push_str(self.text())?;
        text.push_str(more)?;
        self.text = Arc::new(alloc, text)?;
        Ok(true)
    }

    /// The same text. It shares the bytes, so it takes nothing from the allocator.
    pub fn copy(&self, _alloc: Global) -> Result<Text, NoMemory>
        ensures { IfOk result (λ t. t ≡ self.now) }
    {
        let text = self.text.clone()?;
        Ok(Text { text })
    }
}
