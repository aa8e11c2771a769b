ghost use Rattle.std.specs.Prelude.{◌≡◌, ◌↔◌, ◌<◌, ℕ, Bool, List, [], ◌∷◌, ◌++◌, Some, true, false, length, get_or, set, slice_get, IfOk, OnOk};
ghost use Rattle.carte_value.specs.Truths.{Among, IsListOf};
ghost use Rattle.carte_book.specs.Book.{book_view};
ghost use Rattle.carte_book.specs.Needs.{IsRule};
ghost use Rattle.carte_record.specs.Kept.{kept_view};
ghost use Rattle.carte_sound.specs.Chains.{ArePicked, IsFirstList};
ghost use Rattle.carte_mark.specs.Puts.{put_all};
ghost use Rattle.carte_restart.specs.Led.{AreLed, AreNeeded, AreTaken, IsOther, IsRuleAmong, PushesIf, needs_in};

use carte_book::{Book, Looked};
use carte_mark::{listed, put_each};
use carte_record::Kept;
use carte_value::{Name, Names, NoMemory, Numbering, Seeded};
use std::alloc::Global;

/// The rules that targets lead to by entries: those of the chain in its order, and then the others in name order.
pub(crate) fn first_list(
    alloc: Global,
    kept: &Kept,
    book: &Book,
    targets: &Names,
) -> Result<Names, NoMemory>
    ensures { IfOk result (IsFirstList (kept_view kept.now) (book_view book.now) targets.now) }
{
    let led = led_to(alloc, kept, targets, book.hasher())?;
    let mut taken = none_taken(alloc, &led)?;
    let mut list = chained(alloc, kept, book, &led, &mut taken)?;
    let others = besides(alloc, book, led.as_slice(), taken.as_slice())?;
    list.append(others)?;
    Ok(list)
}

/// All names that targets lead to. The set is itself the queue of the names whose needs are to come.
fn led_to(
    alloc: Global,
    kept: &Kept,
    targets: &Names,
    hasher: Seeded,
) -> Result<Numbering, NoMemory>
    ensures { IfOk result (λ led. AreLed (kept_view kept.now) targets.now led) }
{
    let mut led = needed(alloc, kept, targets, hasher)?;
    let mut next = 0;
    while next < led.as_slice().len() {
        put_needs_at(alloc, kept, next, &mut led)?;
        next += 1;
    }
    Ok(led)
}

/// The needs that the entries of these keys tell of.
fn needed(alloc: Global, kept: &Kept, keys: &Names, hasher: Seeded) -> Result<Numbering, NoMemory>
    ensures { IfOk result (λ names. AreNeeded (kept_view kept.now) keys.now names) }
{
    let mut names = Numbering::new(alloc, hasher);
    for key in keys.as_slice() {
        put_needs(kept, key, &mut names)?;
    }
    Ok(names)
}

fn put_needs_at(
    alloc: Global,
    kept: &Kept,
    at: usize,
    names: &mut Numbering,
) -> Result<(), NoMemory>
    requires { at < length names.old }
    ensures { OnOk result ((q : List ℕ) → slice_get names.old at ≡ Some q → names.new ≡ put_all names.old (needs_in (kept_view kept.now) q)) }
{
    let key = names.as_slice()[at].copy(alloc)?;
    put_needs(kept, &key, names)
}

// Stale entries and shallow ones tell of needs too.
fn put_needs(kept: &Kept, key: &Name, names: &mut Numbering) -> Result<(), NoMemory>
    ensures { OnOk result (names.new ≡ put_all names.old (needs_in (kept_view kept.now) key.now)) }
{
    match kept.entries.find(key) {
        Some(entry) => put_each(&entry.needs, names),
        None => Ok(()),
    }
}

// Which of the names were taken off the chain, each at its place: none yet.
fn none_taken(alloc: Global, led: &Numbering) -> Result<Vec<bool>, NoMemory>
    ensures { IfOk result (λ taken. AreTaken led.now [] taken.items) }
{
    let count = led.as_slice().len();
    Ok(vec![in alloc; false; count]?)
}

/// Those of the chain that are led to. Each is taken.
fn chained(
    alloc: Global,
    kept: &Kept,
    book: &Book,
    led: &Numbering,
    taken: &mut Vec<bool>,
) -> Result<Names, NoMemory>
    ensures picked { IfOk result (ArePicked (IsRuleAmong (book_view book.now) led.now) (kept_view kept.now).chain) }
    ensures taken { OnOk result (AreTaken led.now [] taken.old.items → AreTaken led.now (kept_view kept.now).chain taken.new.items) }
{
    let mut names = Names::with_room(alloc, kept.chain.len())?;
    for name in kept.chain.as_slice() {
        push_led(alloc, book, led, name, taken, &mut names)?;
    }
    Ok(names)
}

fn push_led(
    alloc: Global,
    book: &Book,
    led: &Numbering,
    name: &Name,
    taken: &mut Vec<bool>,
    names: &mut Names,
) -> Result<(), NoMemory>
    ensures pushes { OnOk result (PushesIf (IsRuleAmong (book_view book.now) led.now) names.old names.new name.now) }
    ensures taken { (ks : List (List ℕ)) → AreTaken led.now ks taken.old.items → AreTaken led.now (ks ++ name.now ∷ []) taken.new.items }
{
    if take(led, name, taken) && is_rule(book, name) {
        names.push(name.copy(alloc)?)?;
    }
    Ok(())
}

// Whether a name is among those that are led to, where it is then taken.
fn take(led: &Numbering, name: &Name, taken: &mut Vec<bool>) -> bool
    ensures among { (result ≡ true) ↔ Among led.now name.now }
    ensures taken { (ks : List (List ℕ)) → AreTaken led.now ks taken.old.items → AreTaken led.now (ks ++ name.now ∷ []) taken.new.items }
{
    match led.find(name) {
        Some(at) => {
            put_true(taken, at as usize);
            true
        }
        None => false,
    }
}

fn put_true(taken: &mut Vec<bool>, at: usize)
    ensures { at < length taken.old.items → taken.new.items ≡ set taken.old.items at true }
{
    if let Some(place) = taken.get_mut(at) {
        *place = true;
    }
}

fn is_rule(book: &Book, name: &Name) -> bool
    ensures { (result ≡ true) ↔ IsRule (book_view book.now) name.now }
{
    match book.lookup(name) {
        Looked::Rule(_) => true,
        Looked::Input(_) => false,
        Looked::None => false,
    }
}

/// Those that are led to and stand in no chain.
fn besides(alloc: Global, book: &Book, led: &[Name], taken: &[bool]) -> Result<Names, NoMemory>
    ensures { IfOk result (λ names. (chain : List (List ℕ)) → AreTaken led.now chain taken.now → IsListOf (λ k. IsRuleAmong (book_view book.now) led.now k × ¬ (Among chain k)) names) }
{
    let mut names = others(alloc, book, led, taken)?;
    names.sort_unstable();
    names.dedup();
    listed(alloc, names)
}

fn others(alloc: Global, book: &Book, led: &[Name], taken: &[bool]) -> Result<Vec<Name>, NoMemory>
    ensures { IfOk result (λ names. (chain : List (List ℕ)) → AreTaken led.now chain taken.now → ArePicked (IsOther (book_view book.now) chain) led.now names.items) }
{
    let mut names = Vec::new(alloc);
    for at in 0..led.len() {
        push_other(alloc, book, &led[at], is_taken(taken, at), &mut names)?;
    }
    Ok(names)
}

fn push_other(
    alloc: Global,
    book: &Book,
    name: &Name,
    taken: bool,
    names: &mut Vec<Name>,
) -> Result<(), NoMemory>
    ensures { OnOk result (PushesIf (λ k. IsRule (book_view book.now) k × (taken ≡ false)) names.old.items names.new.items name.now) }
{
    if !taken && is_rule(book, name) {
        names.push(name.copy(alloc)?)?;
    }
    Ok(())
}

fn is_taken(taken: &[bool], at: usize) -> bool
    ensures { result ≡ get_or taken.now at false }
{
    match taken.get(at) {
        Some(is) => *is,
        None => false,
    }
}
