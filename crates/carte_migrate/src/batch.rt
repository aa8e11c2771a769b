ghost use Rattle.std.specs.Prelude.{◌≡◌, ◌≤◌, length, option_to_list, IfOk};
ghost use Rattle.carte_book.specs.Book.{book_view};
ghost use Rattle.carte_codec.specs.Each.{EachFits};
ghost use Rattle.carte_record.specs.Bodies.{IsUnmarked};
ghost use Rattle.carte_record.specs.Folds.{apply};
ghost use Rattle.carte_record.specs.Kept.{nothing_kept};
ghost use Rattle.carte_record.specs.declared.start.Start.TheVariants.{Cleared as BeginsCleared};
ghost use Rattle.carte_record_one.specs.Kept.{kept_one_view};
ghost use Rattle.carte_sound_one.specs.Up.{up};
ghost use Rattle.carte_migrate.specs.Cleared.{cleared};
ghost use Rattle.carte_migrate.specs.Each.{CarriesEach};

use crate::kept::raise;
use carte_book::Book;
use carte_compact::live;
use carte_record::{Batch, Start};
use carte_record_one::KeptOne;
use carte_value::{NoMemory, Seeded};
use std::alloc::Global;

/// The batch by which a state of version 1 becomes one of version 2, under the tasks of the book. It begins cleared, and
/// has nothing else where the book has other rules.
pub fn up(alloc: Global, old: &KeptOne, book: &Book) -> Result<Batch, NoMemory>
    ensures start { IfOk result (λ batch. batch.start ≡ BeginsCleared) }
    ensures kept { IfOk result (λ batch. apply batch nothing_kept ≡ up (kept_one_view old.now) (book_view book.now)) }
    ensures unmarked { IfOk result (λ batch. EachFits IsUnmarked batch.entries) }
    ensures each { IfOk result CarriesEach }
{
    let kept = raise(alloc, old, book)?;
    let batches = live(alloc, &kept)?;
    Ok(cleared(alloc, only(batches), kept.hasher()))
}

fn only(batches: Vec<Batch>) -> Option<Batch>
    requires { length batches.items ≤ 1 }
    ensures { batches.items ≡ option_to_list result }
{
    let mut batches = batches;
    batches.pop()
}

// The same batch, or one that brings nothing, so that it begins cleared.
fn cleared(alloc: Global, batch: Option<Batch>, hasher: Seeded) -> Batch
    ensures { result ≡ cleared batch }
{
    match batch {
        Some(batch) => from_nothing(batch),
        None => from_nothing(Batch::new(alloc, hasher)),
    }
}

fn from_nothing(mut batch: Batch) -> Batch
    ensures { result ≡ record batch { start = BeginsCleared } }
{
    batch.start = Start::Cleared;
    batch
}
