// Reading a book, by its kind.
ghost use Rattle.std.specs.Prelude.{◌≡◌};
ghost use Rattle.carte_top.specs.Around.{over_source};
ghost use Rattle.carte_top.specs.Running.{IsReadAs, Parses, LoadsBook, unread_of, unparsed_of};

use carte_book::{Book, BookFault, Which};
use carte_io::{ReadEnd, Source, read_whole};
use carte_report::Status;
use carte_rules::read_rules;
use carte_sheet::read_sheet;
use carte_value::{Kind, Seeded};
use std::alloc::Global;

const MOST_BYTES: usize = 16777216;

/// The book of a source, which is read to its end; or the status of a run that ends there.
pub(crate) fn load_book<B: Source>(
    alloc: Global,
    kind: Kind,
    source: &mut B,
    hasher: Seeded,
) -> Result<Book, Status>
    ensures { LoadsBook kind (over_source B.tells B.state source.old source.new) result }
{
    match read_whole(alloc, source, MOST_BYTES) {
        Ok(bytes) => parse(alloc, kind, bytes.as_slice(), hasher),
        Err(end) => Err(unread(end)),
    }
}

fn unread(end: ReadEnd) -> Status
    ensures { result ≡ unread_of end }
{
    match end {
        ReadEnd::TooLong => Status::BookRefused(BookFault::Limit(Which::Bytes, 16777216)),
        ReadEnd::Failed => Status::ReadFault,
        ReadEnd::NoMemory => Status::NoMemory,
    }
}

fn parse(alloc: Global, kind: Kind, bytes: &[u8], hasher: Seeded) -> Result<Book, Status>
    ensures { Parses kind bytes.now result }
{
    match read_as(alloc, kind, bytes, hasher) {
        Ok(book) => Ok(book),
        Err(fault) => Err(unparsed(fault)),
    }
}

fn read_as(alloc: Global, kind: Kind, bytes: &[u8], hasher: Seeded) -> Result<Book, BookFault>
    ensures { IsReadAs kind bytes.now result }
{
    match kind {
        Kind::Rules => read_rules(alloc, bytes, hasher),
        Kind::Sheet => read_sheet(alloc, bytes, hasher),
    }
}

fn unparsed(fault: BookFault) -> Status
    ensures { result ≡ unparsed_of fault }
{
    match fault {
        BookFault::NoMemory => Status::NoMemory,
        fault => Status::BookRefused(fault),
    }
}
