ghost use Rattle.std.specs.Prelude.{◌≡◌, true, IfOk, OnOk};
ghost use Rattle.carte_note.specs.Right.{keys_in};
ghost use Rattle.carte_record.specs.Folds.{is_among};
ghost use Rattle.carte_record.specs.Kept.{kept_view};
ghost use Rattle.carte_rebuild.specs.Ends.{IsNewChain};
ghost use Rattle.carte_sound.specs.LeadsTo.{chain_behind};
ghost use Rattle.carte_restart.specs.Chained.{with_other};

use carte_note::FinishedList;
use carte_rebuild::Work;
use carte_record::Kept;
use carte_value::{Name, Names, NoMemory};
use std::alloc::Global;

/// The work of a build with the chain that it leaves.
pub(crate) fn with_chain(alloc: Global, kept: &Kept, work: Work) -> Result<Work, NoMemory>
    ensures finished { IfOk result (λ done. done.finished ≡ work.finished) }
    ensures runs { IfOk result (λ done. done.runs ≡ work.runs) }
    ensures chain { IfOk result (IsNewChain (kept_view kept.now)) }
{
    let mut work = work;
    work.finished.index()?;
    let chain = chain_of(alloc, &kept.chain, &work.finished)?;
    work.chain = Some(chain);
    Ok(work)
}

/// The finished keys, and then the others of the old chain.
fn chain_of(alloc: Global, old: &Names, finished: &FinishedList) -> Result<Names, NoMemory>
    ensures { IfOk result (λ chain. chain ≡ chain_behind (keys_in finished.now) old.now) }
{
    let mut chain = keys(alloc, finished)?;
    let names = old.as_slice();
    for at in 0..names.len() {
        add_other(alloc, finished, at, &names[at], &mut chain)?;
    }
    Ok(chain)
}

fn keys(alloc: Global, finished: &FinishedList) -> Result<Names, NoMemory>
    ensures { IfOk result (λ keys. keys ≡ keys_in finished.now) }
{
    let mut keys = Names::with_room(alloc, finished.len())?;
    for key in finished.as_slice() {
        keys.push(key.made.key().copy(alloc)?)?;
    }
    Ok(keys)
}

fn add_other(
    alloc: Global,
    finished: &FinishedList,
    at: usize,
    name: &Name,
    chain: &mut Names,
) -> Result<(), NoMemory>
    ensures { OnOk result (chain.new ≡ with_other finished.now chain.old name.now) }
{
    if is_finished(finished, at, name) {
        return Ok(());
    }
    chain.push(name.copy(alloc)?)?;
    Ok(())
}

// Mostly keys are finished in the order of the old chain, so the one at the name's place there is looked at first.
fn is_finished(finished: &FinishedList, at: usize, name: &Name) -> bool
    ensures { result ≡ is_among (keys_in finished.now) name.now }
{
    if is_at(finished, at, name) {
        return true;
    }
    finished.find(name).is_some()
}

fn is_at(finished: &FinishedList, at: usize, name: &Name) -> bool
    ensures { result ≡ true → is_among (keys_in finished.now) name.now ≡ true }
{
    match finished.get(at) {
        Some(key) => *key.made.key() == *name,
        None => false,
    }
}
