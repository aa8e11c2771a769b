//! A state that is rewritten: how many bytes and calls that takes, and where its frames stand then. The numbers are worked out by hand
//! from the format of a file.

ghost use Rattle.std.specs.Prelude.{◌≡◌, ◌<◌, ◌^◌, None, false, true};
ghost use Rattle.carte_journal.specs.Regions.{IsRewritable};

use crate::record::bytes::small;
use carte_compact::{is_due, live, live_bodies, live_length, rewrite, rewriting_needs};
use carte_io::MemDisk;
use carte_record::Batch;
use carte_state::{ApplyFault, State};
use carte_value::{Name, Names, NoMemory, Seeded};
use std::alloc::Global;
use std::process::Abort;
use std::test::Fail;

// The file of the small example, of 537 bytes: the header, an open frame with a body of 523 bytes, and a closed gate byte.
fn small_file(alloc: Global) -> Result<Vec<u8>, NoMemory> {
    let mut file = Vec::new(alloc);
    file.extend_from_slice(b"CARTE01\n\x01\0\0\x02\x0b")?;
    file.extend_from_slice(small(alloc)?.as_slice())?;
    file.push(0)?;
    Ok(file)
}

// States and batches are boxed here, so that one call drops each.
fn loaded(alloc: Global, disk: &mut MemDisk, limit: u64) -> Result<Box<State>, Fail>
    requires { limit < 2 ^ 32 }
{
    match State::load(alloc, disk, limit, Seeded::of(7)) {
        Ok(state) => Ok(Box::new(alloc, state)?),
        Err(_) => Err(Fail::from("it loads")),
    }
}

fn b1(alloc: Global) -> Result<Names, Fail> {
    let mut names = Names::new(alloc);
    names.push(Name::rule(alloc, "b1")?)?;
    Ok(names)
}

/// How many batches and bodies are live, and how many bytes.
fn measured(alloc: Global, state: &State) -> Result<(usize, usize, u64), NoMemory> {
    let batches = live(alloc, state.kept())?;
    let bodies = live_bodies(alloc, state.kept())?;
    let length = live_length(alloc, state.kept())?;
    Ok((batches.len(), bodies.len(), length))
}

/// The same of a file, of which these keys are marked.
fn live_of(alloc: Global, file: &[u8], stale: &Names) -> Result<(usize, usize, u64), Fail> {
    let mut disk = Box::new(alloc, MemDisk::of(alloc, file, &[])?)?;
    let mut state = loaded(alloc, &mut disk, 537)?;
    marked(alloc, &mut state, stale)
}

fn marked(alloc: Global, state: &mut State, stale: &Names) -> Result<(usize, usize, u64), Fail> {
    state.mark(stale);
    Ok(measured(alloc, state)?)
}

/// A region has 5 bytes beside its body, and a gate byte. A mark of b1 has 3 bytes.
#[test]
fn what_is_live_is_measured(rt: HostRuntime) -> Result<(), Fail> {
    let alloc = rt.alloc();
    let file = small_file(alloc)?;
    let none = Names::new(alloc);
    assert_eq!(&rt; live_of(alloc, b"", &none)?, (0, 0, 1));
    assert_eq!(&rt; live_of(alloc, &file, &none)?, (1, 1, 529));
    assert_eq!(&rt; live_of(alloc, &file, &b1(alloc)?)?, (1, 1, 532));
    Ok(())
}

/// Where the frames of a state start and end, how many there are, and how often it was rewritten.
fn place(state: &State) -> (u64, u64, u64, u64) {
    let bank = state.bank();
    (bank.start, bank.end, bank.frames, bank.generation)
}

fn can_turn(state: &State) -> bool
    ensures whole { result ≡ true → state.now.journal.broken ≡ false }
    ensures rewritable { result ≡ true → IsRewritable state.now.journal }
    ensures new { result ≡ true → state.now.one ≡ None }
{
    let bank = state.bank();
    match state.old() {
        Some(_) => false,
        None => !state.is_broken() && bank.frames > 0 && bank.generation < u64::MAX,
    }
}

// A batch of 38 bytes.
fn marks(alloc: Global) -> Result<Box<Batch>, Fail> {
    let mut marks = Box::new(alloc, Batch::new(alloc, Seeded::of(7)))?;
    marks.stale = b1(alloc)?;
    Ok(marks)
}

fn is_due_now(alloc: Global, state: &mut State) -> Result<bool, Fail> {
    let batch = marks(alloc)?;
    Ok(is_due(alloc, state, &batch, true)?)
}

/// How many bytes the file needs for a rewriting, by what is live and with 529 bytes, and whether that is due before a
/// first batch of 38 bytes.
fn wanted(alloc: Global, disk: &mut MemDisk, limit: u64) -> Result<(u64, u64, bool), Fail>
    requires { limit < 2 ^ 32 }
{
    let mut state = loaded(alloc, disk, limit)?;
    wanted_of(alloc, &mut state)
}

fn wanted_of(alloc: Global, state: &mut State) -> Result<(u64, u64, bool), Fail> {
    let is_due = is_due_now(alloc, state)?;
    let needs = rewriting_needs(alloc, state)?;
    Ok((needs, state.needed_with(529), is_due))
}

/// How many bytes were needed and what the limit was, where there was no room for a rewriting, and where the frames stand
/// behind it.
fn rewritten(
    alloc: Global,
    disk: &mut MemDisk,
    limit: u64,
) -> Result<(Option<(u64, u64)>, (u64, u64, u64, u64)), Fail>
    requires { limit < 2 ^ 32 }
{
    let mut state = loaded(alloc, disk, limit)?;
    turned(alloc, &mut state, disk)
}

fn turned(
    alloc: Global,
    state: &mut State,
    disk: &mut MemDisk,
) -> Result<(Option<(u64, u64)>, (u64, u64, u64, u64)), Fail> {
    if !can_turn(state) {
        return Err(Fail::from("it has a frame"));
    }
    match rewrite(alloc, state, disk) {
        Ok(()) => Ok((None, place(state))),
        Err(ApplyFault::Full { needed, limit }) => Ok((Some((needed, limit)), place(state))),
        Err(_) => Err(Fail::from("nothing else fails")),
    }
}

/// Where the frames stand that are loaded, and whether the one body that is live has these bytes.
fn again(
    alloc: Global,
    disk: &mut MemDisk,
    body: &[u8],
) -> Result<((u64, u64, u64, u64), bool), Fail> {
    let state = loaded(alloc, disk, 1643)?;
    again_of(alloc, &state, body)
}

fn again_of(
    alloc: Global,
    state: &State,
    body: &[u8],
) -> Result<((u64, u64, u64, u64), bool), Fail> {
    let bodies = live_bodies(alloc, state.kept())?;
    let first = bodies.get(0).ok_or("a body")?;
    Ok((place(state), bodies.len() == 1 && first.bytes() == body))
}

type Turn = (
    u64,
    (u64, u64, bool),
    (Option<(u64, u64)>, (u64, u64, u64, u64)),
    (usize, u64),
);

// The limit, what is wanted of a file, what its rewriting gives, and its bytes and the calls that passed then. The closed
// gate byte of the first file is at 536: the move stands behind it up to 551, the roots up to 585, and the 529 bytes of the
// region up to 1114. No place in front of the region is free then, so that the second goes behind it; and the third goes to
// where the first was.
const TURNS: [Turn; 4] = [
    (
        1113,
        (1114, 1114, false),
        (Some((1114, 1113)), (8, 537, 1, 0)),
        (537, 0),
    ),
    (
        1643,
        (1114, 1114, false),
        (None, (585, 1114, 1, 1)),
        (1114, 4),
    ),
    (
        1643,
        (1643, 1643, false),
        (None, (1114, 1643, 1, 2)),
        (1643, 9),
    ),
    (
        1643,
        (1114, 1114, true),
        (None, (585, 1114, 1, 3)),
        (1643, 16),
    ),
];

#[test]
fn a_state_is_rewritten(rt: HostRuntime) -> Result<(), Fail> {
    let alloc = rt.alloc();
    let body = small(alloc)?;
    let mut disk = small_disk(alloc)?;
    for turn in TURNS {
        check_turn(&rt, alloc, &mut disk, &body, turn)?;
    }
    Ok(())
}

fn small_disk(alloc: Global) -> Result<Box<MemDisk>, NoMemory> {
    let file = small_file(alloc)?;
    Ok(Box::new(alloc, MemDisk::of(alloc, &file, &[])?)?)
}

fn check_turn<R: Abort>(
    rt: &R,
    alloc: Global,
    disk: &mut MemDisk,
    body: &[u8],
    turn: Turn,
) -> Result<(), Fail>
    requires { turn.0 < 2 ^ 32 }
{
    let (limit, want, done, size) = turn;
    assert_eq!(rt; wanted(alloc, disk, limit)?, want);
    assert_eq!(rt; rewritten(alloc, disk, limit)?, done);
    assert_eq!(rt; (disk.bytes().len(), disk.passed()), size);
    assert_eq!(rt; again(alloc, disk, body)?, (done.1, true));
    Ok(())
}
