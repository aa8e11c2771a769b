// The files that the words name, opened as the top call wants them.
ghost use Rattle.std.specs.Prelude.{◌≡◌, true, false, nat_le, Err, Ok, IfErr, IfOk, IfSome, IsErrAnd, IsNone};
ghost use Rattle.std.specs.Fs.{asks_read, asks_write, asks_append, asks_truncate, asks_create, asks_create_new, metadata_len};
ghost use Rattle.std.specs.IoError.{error_kind};
ghost use Rattle.carte_words.specs.Words.{words_of};
ghost use Rattle.carte_words.specs.declared.fault.WordsFault.{WordsFault};

use crate::descriptors;
use carte_top::{Command, Word, Words, WordsFault, read_words};
use carte_value::NoMemory;
use std::fs::{self, File, Metadata, OpenOptions, TryLockError};
use std::io::{self, ErrorKind};
use std::os::unix::fs::MetadataExt;
use std::thread;
use std::time::Duration;

/// A state file of at most so many bytes is a new one, whatever it holds, and is written over.
const NEW_STATE: u64 = 9;

/// How often a state that another run has is asked for again, and the milliseconds before each time: 2 seconds in all.
const LOCK_TRIES: u32 = 200;

const LOCK_PAUSE: u64 = 10;

/// What is there of the files that the words name.
#[derive(Drop)]
pub(crate) struct Files {
    pub(crate) book: Option<File>,
    pub(crate) state: Option<File>,
}

/// The files, opened. One that can't be opened as it has to be isn't there, and neither is the book of a `clean` or a
/// `generate`. Where the words are no command none is there, and none was opened.
pub(crate) fn open(rt: &HostRuntime, words: &[Word]) -> Result<Files, NoMemory>
    ensures book { (fault : WordsFault) → words_of words.now ≡ Err fault → IfOk result (λ f. IsNone f.book) }
    ensures state { (fault : WordsFault) → words_of words.now ≡ Err fault → IfOk result (λ f. IsNone f.state) }
{
    match read_words(rt.alloc(), words) {
        Ok(asked) => open_asked(rt, &asked),
        Err(WordsFault::NoMemory) => Err(NoMemory),
        Err(_) => Ok(none()),
    }
}

fn none() -> Files
    ensures book { IsNone result.book }
    ensures state { IsNone result.state }
{
    Files {
        book: None,
        state: None,
    }
}

fn open_asked(rt: &HostRuntime, asked: &Words) -> Result<Files, NoMemory> {
    if there(descriptors::hold(rt))?.is_none() {
        return Ok(none());
    }
    let book = match asked.command {
        Command::Build | Command::Session | Command::Explain => there(fs::open(
            rt,
            asked.book.text(),
        ))?,
        Command::Clean | Command::Generate => None,
    };
    let state = there(open_state(rt, asked.state.text(), asked.book.text()))?;
    Ok(Files { book, state })
}

// Want of memory is told; every other failure leaves nothing.
fn there<T: Drop>(opened: io::Result<T>) -> Result<Option<T>, NoMemory>
    ensures memory { IfErr result (λ _. IsErrAnd opened (λ e. error_kind e ≡ ErrorKind.OutOfMemory)) }
    ensures value { IfOk result (λ o. IfSome o (λ t. opened ≡ Ok t)) }
{
    match opened {
        Ok(value) => Ok(Some(value)),
        Err(error) if error.kind() == ErrorKind::OutOfMemory => Err(NoMemory),
        Err(_) => Ok(None),
    }
}

/// The state's file, made empty where it isn't there. Nobody else has it, and it is settled on its device: a new one with
/// its folder, since a run that made it may have been cut off before it was found there.
///
/// It fails where another run has the file and doesn't give it back soon, where it is no regular one, and where it is the
/// book's own and so short that it would be written over.
fn open_state(rt: &HostRuntime, path: &str, book: &str) -> io::Result<File> {
    let file = open_or_make(rt, path)?;
    if !file.metadata()?.is_file() {
        return Err(ErrorKind::InvalidInput.into());
    }
    lock(rt, &file)?;
    file.sync_all()?;
    // Its length is looked at once nobody else writes it.
    let state = file.metadata()?;
    if is_new(&state) {
        settle_new(rt, &state, path, book)?;
    }
    Ok(file)
}

// A build takes some milliseconds, so of several at once each has its turn. A wait without end would let a session, which
// has the file as long as its lines come, hold up all others.
fn lock(rt: &HostRuntime, file: &File) -> io::Result<()> {
    for _ in 0..LOCK_TRIES {
        match file.try_lock() {
            Err(TryLockError::WouldBlock) => thread::sleep(rt, Duration::from_millis(LOCK_PAUSE)),
            answered => return Ok(answered?),
        }
    }
    Ok(file.try_lock()?)
}

fn open_or_make(rt: &HostRuntime, path: &str) -> io::Result<File> {
    match state_options(false).open(rt, path) {
        Err(error) if error.kind() == ErrorKind::NotFound => state_options(true).open(rt, path),
        opened => opened,
    }
}

fn state_options(makes: bool) -> OpenOptions
    ensures read { asks_read result ≡ true }
    ensures write { asks_write result ≡ true }
    ensures makes { asks_create result ≡ makes }
    ensures keeps { asks_truncate result ≡ false }
    ensures anywhere { asks_append result ≡ false }
    ensures takes { asks_create_new result ≡ false }
{
    let mut options = OpenOptions::new();
    options.read(true).write(true).create(makes);
    options
}

fn settle_new(rt: &HostRuntime, state: &Metadata, path: &str, book: &str) -> io::Result<()> {
    if is_same(rt, state, book) {
        return Err(ErrorKind::InvalidInput.into());
    }
    sync_folder_of(rt, path)
}

fn is_new(state: &Metadata) -> bool
    ensures { result ≡ nat_le (metadata_len state.now) 9 }
{
    state.len() <= NEW_STATE
}

// By what the system tells of both, so links and other paths to one file are seen.
fn is_same(rt: &HostRuntime, state: &Metadata, path: &str) -> bool {
    match fs::metadata(rt, path) {
        Ok(other) => state.dev() == other.dev() && state.ino() == other.ino(),
        Err(_) => false,
    }
}

fn sync_folder_of(rt: &HostRuntime, path: &str) -> io::Result<()> {
    let path = fs::canonicalize(rt, path)?;
    match path.parent() {
        Some(folder) => File::open(rt, folder)?.sync_all(),
        None => Ok(()),
    }
}
