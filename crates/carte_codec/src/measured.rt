//! Lengths of spellings, without writing them.
ghost use Rattle.std.specs.Prelude.{◌≡◌, ◌≤◌, ◌++◌, ◌∷◌, [], ℕ, List, length, IfSome};
ghost use Rattle.std.specs.List.{flat_map};
ghost use Rattle.carte_value.specs.Spelling.{spelling};
ghost use Rattle.carte_codec.specs.Parts.{spelled_digest, spelled_link, spelled_list, spelled_name};
ghost use Rattle.carte_codec.specs.Lengths.{IsLengthOf};

use carte_value::{Digest, Link, Name, Names, Value};

/// What is spelled, with the length of its spelling: none where that doesn't fit 64 bits.
pub trait Measured: Sized {
    ghost spelled: { Self → List ℕ };

    fn length(&self) -> Option<u64>
        ensures { IfSome result (λ n. n ≡ length (spelled self.now)) };
}

/// Of a list, with its number in 4 bytes.
pub fn list_length<T: Measured>(items: &[T]) -> Option<u64>
    ensures { IfSome result (λ n. n ≡ length (spelled_list T.spelled items.now)) }
{
    items_length(items)?.checked_add(4)
}

/// Of the items of a list, one after the other.
pub fn items_length<T: Measured>(items: &[T]) -> Option<u64>
    ensures { IsLengthOf T.spelled items.now result }
{
    let mut sum = 0u64;
    for item in items {
        sum = sum.checked_add(item.length()?)?;
    }
    Some(sum)
}

/// The length of a list with this item behind the others, where its own is known.
pub fn with_item<T: Measured>(length: Option<u64>, item: &T) -> Option<u64>
    ensures { (items : List T) → IsLengthOf T.spelled items length → IsLengthOf T.spelled (items ++ item.now ∷ []) result }
{
    length?.checked_add(item.length()?)
}

/// The length of a list without this item, which was the last.
pub fn without_item<T: Measured>(length: Option<u64>, item: &T) -> Option<u64>
    ensures { (items : List T) → IsLengthOf T.spelled (items ++ item.now ∷ []) length → IsLengthOf T.spelled items result }
{
    length?.checked_sub(item.length()?)
}

impl<T: Measured> Measured for &T {
    ghost spelled = { λ item. T.spelled item.now };

    fn length(&self) -> Option<u64> {
        T::length(*self)
    }
}

impl Measured for Name {
    ghost spelled = { spelled_name };

    fn length(&self) -> Option<u64> {
        (self.bytes().len() as u64).checked_add(1)
    }
}

impl Measured for Digest {
    ghost spelled = { spelled_digest };

    fn length(&self) -> Option<u64> {
        Some(self.0.as_slice().len() as u64)
    }
}

impl Measured for Link {
    ghost spelled = { spelled_link };

    fn length(&self) -> Option<u64> {
        self.name.length()?.checked_add(self.digest.length()?)
    }
}

impl Measured for Names {
    ghost spelled = { spelled_list spelled_name };

    fn length(&self) -> Option<u64> {
        list_length(self.as_slice())
    }
}

impl Measured for Value {
    ghost spelled = { spelling };

    fn length(&self) -> Option<u64> {
        match self {
            Value::Empty => Some(1),
            Value::Number(_) => Some(9),
            Value::Text(text) => (text.text().len() as u64).checked_add(5),
            Value::Bad(_) => Some(2),
        }
    }
}
