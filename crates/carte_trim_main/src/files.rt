// The state and the new one, opened as the top call wants them.
ghost use Rattle.std.specs.Prelude.{◌≡◌, true, false, nat_le, None, Err, Ok, IfErr, IfOk, IfSome, IsErrAnd, IsNone};
ghost use Rattle.std.specs.Fs.{asks_read, asks_write, asks_append, asks_truncate, asks_create, asks_create_new, metadata_len};
ghost use Rattle.std.specs.IoError.{error_kind};
ghost use Rattle.carte_trim.specs.Words.{count_of};

use crate::descriptors;
use carte_trim::count_of;
use carte_value::NoMemory;
use carte_words::Word;
use std::fs::{self, File, Metadata, OpenOptions, TryLockError};
use std::io::{self, ErrorKind};
use std::os::unix::fs::MetadataExt;
use std::thread;
use std::time::Duration;

/// A state file of at most so many bytes is a new one.
const NEW_STATE: u64 = 9;

/// How often a file that another run has is asked for again, and the milliseconds before each time: 2 seconds in all.
const LOCK_TRIES: u32 = 200;

const LOCK_PAUSE: u64 = 10;

/// What is there of the files that the words name.
#[derive(Drop)]
pub(crate) struct Files {
    pub(crate) state: Option<File>,
    pub(crate) new: Option<File>,
}

/// The files, opened. One that can't be opened as it has to be isn't there, and neither is the new one beside no state.
/// Where the words ask for nothing none is there, and none was opened.
pub(crate) fn open(rt: &HostRuntime, words: &[Word]) -> Result<Files, NoMemory>
    ensures state { count_of words.now ≡ None → IfOk result (λ f. IsNone f.state) }
    ensures new { count_of words.now ≡ None → IfOk result (λ f. IsNone f.new) }
{
    if count_of(words).is_none() {
        return Ok(none());
    }
    match words {
        [state, new, ..] => open_both(rt, state.text(), new.text()),
        _ => Ok(none()),
    }
}

fn none() -> Files
    ensures state { IsNone result.state }
    ensures new { IsNone result.new }
{
    Files {
        state: None,
        new: None,
    }
}

fn open_both(rt: &HostRuntime, state: &str, new: &str) -> Result<Files, NoMemory> {
    if there(descriptors::hold(rt))?.is_none() {
        return Ok(none());
    }
    let Some(state) = there(open_state(rt, state))? else {
        return Ok(none());
    };
    let new = there(open_new(rt, new, &state))?;
    Ok(Files {
        state: Some(state),
        new,
    })
}

// Want of memory is told; every other failure leaves nothing.
fn there<T: Drop>(opened: io::Result<T>) -> Result<Option<T>, NoMemory>
    ensures memory { IfErr result (λ _. IsErrAnd opened (λ e. error_kind e ≡ ErrorKind.OutOfMemory)) }
    ensures value { IfOk result (λ o. IfSome o (λ t. opened ≡ Ok t)) }
{
    match opened {
        Ok(value) => Ok(Some(value)),
        Err(error) if error.kind() == ErrorKind::OutOfMemory => Err(NoMemory),
        Err(_) => Ok(None),
    }
}

// The state's file, opened to be read alone. No build has it, and what is read of it stands on its device.
fn open_state(rt: &HostRuntime, path: &str) -> io::Result<File> {
    let file = File::open(rt, path)?;
    settle(rt, &file)?;
    Ok(file)
}

// The new file, made where it isn't there. One that is the state's own isn't taken, by whatever path: that is looked at
// first, since this run has that file.
fn open_new(rt: &HostRuntime, path: &str, state: &File) -> io::Result<File> {
    let file = new_options().open(rt, path)?;
    if is_same(&file.metadata()?, &state.metadata()?) {
        return Err(ErrorKind::InvalidInput.into());
    }
    settle(rt, &file)?;
    if is_new(&file.metadata()?) {
        sync_folder_of(rt, path)?;
    }
    Ok(file)
}

fn new_options() -> OpenOptions
    ensures read { asks_read result ≡ true }
    ensures write { asks_write result ≡ true }
    ensures makes { asks_create result ≡ true }
    ensures keeps { asks_truncate result ≡ false }
    ensures anywhere { asks_append result ≡ false }
    ensures takes { asks_create_new result ≡ false }
{
    let mut options = OpenOptions::new();
    options.read(true).write(true).create(true);
    options
}

// A regular file, which nobody else has from then on, with all of it on its device.
fn settle(rt: &HostRuntime, file: &File) -> io::Result<()> {
    if !file.metadata()?.is_file() {
        return Err(ErrorKind::InvalidInput.into());
    }
    lock(rt, file)?;
    file.sync_all()
}

fn lock(rt: &HostRuntime, file: &File) -> io::Result<()> {
    for _ in 0..LOCK_TRIES {
        match file.try_lock() {
            Err(TryLockError::WouldBlock) => thread::sleep(rt, Duration::from_millis(LOCK_PAUSE)),
            answered => return Ok(answered?),
        }
    }
    Ok(file.try_lock()?)
}

fn is_same(one: &Metadata, other: &Metadata) -> bool {
    one.dev() == other.dev() && one.ino() == other.ino()
}

fn is_new(file: &Metadata) -> bool
    ensures { result ≡ nat_le (metadata_len file.now) 9 }
{
    file.len() <= NEW_STATE
}

fn sync_folder_of(rt: &HostRuntime, path: &str) -> io::Result<()> {
    let path = fs::canonicalize(rt, path)?;
    match path.parent() {
        Some(folder) => File::open(rt, folder)?.sync_all(),
        None => Ok(()),
    }
}
