ghost use Rattle.carte_codec.specs.Parts.{spelled_name, FitsName, IsNameOf};
ghost use Rattle.carte_codec.specs.Laws.{name_one};

use crate::{Spelled, Unread};
use carte_value::{Name, NameFault, NoMemory};
use std::alloc::Global;

/// Its length in one byte, and its text.
impl Spelled for Name {
    ghost spelling = { spelled_name };

    ghost fits = { FitsName };

    ghost may = { λ _. Unit {0} };

    fn write(&self, out: &mut Vec<u8>) -> Result<(), NoMemory> {
        self.text_is_name();
        let text = self.bytes();
        out.push(text.len() as u8)?;
        out.extend_from_slice(text)?;
        Ok(())
    }

    fn read(alloc: Global, bytes: &[u8]) -> Result<(Name, &[u8]), Unread> {
        let Some((length, rest)) = bytes.split_first() else {
            return Err(Unread::NotThere);
        };
        let length = *length as usize;
        if length > rest.len() {
            return Err(Unread::NotThere);
        }
        let (text, rest) = rest.split_at(length);
        match read_name(alloc, text) {
            Ok(name) => Ok((name, rest)),
            Err(unread) => Err(unread),
        }
    }

    ghost one_spelling = { name_one };
}

/// The name that the bytes are.
fn read_name(alloc: Global, text: &[u8]) -> Result<Name, Unread>
    ensures { IsNameOf text.now result }
{
    match Name::exact_bytes(alloc, text) {
        Ok(name) => Ok(name),
        Err(NameFault::BadName(_)) => Err(Unread::NotThere),
        Err(NameFault::NoMemory) => Err(Unread::NoMemory),
    }
}
