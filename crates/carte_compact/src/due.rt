// When a rewriting is made.
ghost use Rattle.std.specs.Prelude.{◌≡◌, ◌≤◌, ◌&&◌, ◌||◌, true, false, ℕ, List, IfOk, IfSome};
ghost use Rattle.carte_journal.specs.Regions.{IsRewritable};
ghost use Rattle.carte_record.specs.declared.batch.Batch.{Batch as SomeBatch};
ghost use Rattle.carte_compact.specs.Due.{can_turn, is_asked, is_due, is_large, is_over, is_wide, size_of};
ghost use Rattle.carte_compact.specs.Lengths.{region_length};
ghost use Rattle.carte_compact.specs.Live.{IsLive};

use crate::least::least_length;
use crate::rewriting::learned_length;
use carte_codec::Measured;
use carte_record::Batch;
use carte_state::{Bank, State};
use carte_value::NoMemory;
use std::alloc::Global;

/// A bank is never large below so many bytes.
const SMALL: u64 = 65536;

/// What a frame has beside its body.
const BESIDE_BODY: u64 = 5;

/// Whether a rewriting is to be made before this batch is committed: before the first commit of a build where it is
/// possible and the bank is large or the batch doesn't fit, and before a later one where it is possible and the batch
/// doesn't fit. What is kept in version 1 isn't rewritten. The live length is worked out only where the batch doesn't fit,
/// or before a first commit to a bank of more than 65,536 bytes that has more than twice what is live at least, as far as
/// the state knows; what was worked out it knows from then on, and nothing else of it changes. There is no memory either
/// where a length doesn't fit 63 bits.
pub fn is_due(
    alloc: Global,
    state: &mut State,
    batch: &Batch,
    is_first: bool,
) -> Result<bool, NoMemory>
    ensures same { state.new ≡ state.old }
    ensures due { IfOk result (λ due. (Bs : List SomeBatch) → IsLive state.old.kept Bs → due ≡ is_due state.old (region_length Bs) batch.now is_first) }
    ensures possible { IfOk result (λ due. due ≡ true → IsRewritable state.old.journal) }
{
    if state.is_old() {
        return Ok(false);
    }
    is_asked(alloc, state, batch, is_first)
}

// The same where what is kept is of version 2.
fn is_asked(
    alloc: Global,
    state: &mut State,
    batch: &Batch,
    is_first: bool,
) -> Result<bool, NoMemory>
    ensures same { state.new ≡ state.old }
    ensures due { IfOk result (λ due. (Bs : List SomeBatch) → IsLive state.old.kept Bs → due ≡ is_asked state.old (region_length Bs) batch.now is_first) }
    ensures possible { IfOk result (λ due. due ≡ true → IsRewritable state.old.journal) }
{
    let bank = state.bank();
    if batch.is_empty() || !can_turn(&bank) {
        return Ok(false);
    }
    let is_over = is_over(state, batch).ok_or(NoMemory)?;
    if !may_be_wanted(&bank, least_length(state.kept()), is_over, is_first) {
        return Ok(false);
    }
    let live = learned_length(alloc, state)?;
    let is_wanted = is_wanted(&bank, live, is_over, is_first);
    Ok(is_wanted && state.needed_with(live) <= state.limit())
}

// Whether a rewriting may be wanted where so many bytes are live at least.
fn may_be_wanted(bank: &Bank, least: u64, is_over: bool, is_first: bool) -> bool
    ensures { result ≡ false → (live : ℕ) → least ≤ live → (is_over || (is_first && is_large bank.now live)) ≡ false }
{
    is_wanted(bank, least, is_over, is_first)
}

// Whether a rewriting is to be made where it is possible.
fn is_wanted(bank: &Bank, live: u64, is_over: bool, is_first: bool) -> bool
    ensures { result ≡ (is_over || (is_first && is_large bank.now live)) }
{
    is_over || (is_first && is_large(bank, live))
}

// Whether there is no room for a batch: the frames end at the bank's end, and a frame more has a length, the body, and
// the next gate byte.
fn is_over(state: &State, batch: &Batch) -> Option<bool>
    ensures { IfSome result (λ over. over ≡ is_over state.now batch.now) }
{
    let length = batch.length()?.checked_add(BESIDE_BODY)?;
    let needed = state.bank().end.checked_add(length)?;
    Some(needed > state.limit())
}

fn can_turn(bank: &Bank) -> bool
    ensures { result ≡ can_turn bank.now }
{
    bank.frames > 0 && bank.generation < u64::MAX
}

fn size_of(bank: &Bank) -> u64
    ensures { result ≡ size_of bank.now }
{
    bank.end.saturating_sub(bank.start)
}

fn is_wide(bank: &Bank) -> bool
    ensures { result ≡ is_wide bank.now }
{
    size_of(bank) > SMALL
}

fn is_large(bank: &Bank, live: u64) -> bool
    ensures { result ≡ is_large bank.now live }
{
    is_wide(bank) && size_of(bank).saturating_sub(live) > live
}
