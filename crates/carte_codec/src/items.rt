ghost use Rattle.std.specs.Prelude.{◌≡◌};
ghost use Rattle.carte_codec.specs.Each.{EachFits};
ghost use Rattle.carte_codec.specs.Parts.{spelled_list, FitsList};
ghost use Rattle.carte_codec.specs.Laws.{list_one};

use crate::list::{ListOf, read_list, write_list};
use crate::{Spelled, Unread};
use carte_value::{Items, NoMemory};
use std::alloc::Global;

impl<T: Drop> ListOf<T> for Items<T> {
    ghost items = { λ items. items };

    fn empty(alloc: Global, room: usize) -> Result<Items<T>, NoMemory> {
        Items::with_room(alloc, room)
    }

    fn put(&mut self, item: T) -> Result<(), NoMemory> {
        self.push(item)
    }

    fn all(&self) -> &[T] {
        let _len = self.len();
        self.as_slice()
    }
}

/// How many there are, and each in order.
impl<T: Spelled + Drop> Spelled for Items<T> {
    ghost spelling = { spelled_list T.spelling };

    ghost fits = { FitsList T.fits };

    ghost may = { EachFits T.may };

    fn write(&self, out: &mut Vec<u8>) -> Result<(), NoMemory> {
        write_list(self.all(), out)
    }

    fn read(alloc: Global, bytes: &[u8]) -> Result<(Items<T>, &[u8]), Unread> {
        read_list(alloc, bytes)
    }

    ghost one_spelling = { list_one T.one_spelling };
}
