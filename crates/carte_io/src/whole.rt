// Reading a source to its end, within a limit.
ghost use Rattle.std.specs.Prelude.{◌≡◌, ◌≢◌, ◌+◌, ◌-◌, ◌<◌, ◌≤◌, [], length, drop, true, false, vec_len, IfOk, OnOk, OnErr, IsErrOf};
ghost use Rattle.carte_io.specs.Causes.{HasCauseOf};
ghost use Rattle.carte_io.specs.Streams.{Reads, ReadsMore};

use crate::{Failed, Source};
use std::alloc::{AllocError, Global};
use thiserror::Error;

// The most bytes of one call: as std's readers ask for.
const PIECE: usize = 8192;

/// Why a source wasn't read whole.
#[derive(Debug, Drop, Error)]
pub enum ReadEnd {
    /// It had more bytes left than the limit; one more than that was taken.
    #[error("the source has more bytes than the limit")]
    TooLong,
    /// A call of it failed.
    #[error("a read failed")]
    Failed,
    /// There was no memory for its bytes.
    #[error("out of memory")]
    NoMemory,
}

impl From<Failed> for ReadEnd {
    ghost use Rattle.std.specs.Prelude.{◌≡◌};
    ghost use Rattle.carte_io.specs.declared.whole.ReadEnd.TheVariants.{Failed};

    ghost from_gives = { λ _ end. end ≡ Failed };

    fn from(_: Failed) -> ReadEnd {
        ReadEnd::Failed
    }
}

impl From<AllocError> for ReadEnd {
    ghost use Rattle.std.specs.Prelude.{◌≡◌};
    ghost use Rattle.carte_io.specs.declared.whole.ReadEnd.TheVariants.{NoMemory};

    ghost from_gives = { λ _ end. end ≡ NoMemory };

    fn from(_: AllocError) -> ReadEnd {
        ReadEnd::NoMemory
    }
}

/// All the bytes left, of which there may be at most `limit`. It asks for at most one byte more than that.
pub fn read_whole<S: Source>(
    alloc: Global,
    source: &mut S,
    limit: usize,
) -> Result<Vec<u8>, ReadEnd>
    ensures whole { IfOk result (λ read. S.tells → (read.items ≡ (S.state source.old).left) × ((S.state source.new).left ≡ [])) }
    ensures short { IfOk result (λ read. vec_len read ≤ limit) }
    ensures long { IsErrOf result ReadEnd.TooLong
        → Reads (λ read. length read ≡ limit + 1) S.tells (S.state source.old).left (S.state source.new).left }
    ensures rest { OnErr result (Reads (λ read. length read ≤ limit + 1) S.tells (S.state source.old).left (S.state source.new).left) }
    ensures cause { HasCauseOf ReadEnd.Failed (S.state source.old).faults (S.state source.new).faults result }
{
    let mut piece = [0; PIECE];
    let mut bytes = Vec::new(alloc);
    while bytes.len() <= limit {
        let more = read_more(source, &mut piece, &mut bytes, limit)?;
        if !more {
            return Ok(bytes);
        }
    }
    Err(ReadEnd::TooLong)
}

// One call, by way of the piece. Whether there was a byte.
fn read_more<S: Source>(
    source: &mut S,
    piece: &mut [u8],
    bytes: &mut Vec<u8>,
    limit: usize,
) -> Result<bool, ReadEnd>
    requires room { vec_len bytes.old ≤ limit }
    requires piece { 0 < length piece.old }
    ensures within { OnOk result (vec_len bytes.new ≤ limit + 1) }
    ensures more { result ≡ Ok true → vec_len bytes.old < vec_len bytes.new }
    ensures bytes { OnOk result (ReadsMore S.tells (S.state source.old).left (S.state source.new).left bytes.old.items bytes.new.items) }
    ensures none { result ≡ Ok false → bytes.new.items ≡ bytes.old.items }
    ensures end { S.tells → result ≡ Ok false → (S.state source.old).left ≡ [] }
    ensures rest { OnErr result
        (Reads (λ read. length read ≤ limit + 1 - vec_len bytes.old) S.tells (S.state source.old).left (S.state source.new).left) }
    ensures cause { HasCauseOf ReadEnd.Failed (S.state source.old).faults (S.state source.new).faults result }
    ensures long { result ≢ Err ReadEnd.TooLong }
{
    let room = (limit - bytes.len()).min(piece.len() - 1) + 1;
    let count = source.read(&mut piece[..room])?;
    bytes.extend_from_slice(&piece[..count])?;
    Ok(count > 0)
}
