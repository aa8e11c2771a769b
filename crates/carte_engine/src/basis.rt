// What a build works over.
ghost use Rattle.std.specs.Prelude.{◌≡◌, is_some, IfOk, IfSome, OnErr};
ghost use Rattle.carte_book.specs.Book.{Book as SomeBook, book_view};
ghost use Rattle.carte_mark.specs.Bases.{IsBegun};
ghost use Rattle.carte_record.specs.Kept.{kept_view};
ghost use Rattle.carte_state.specs.States.{Stand, any_in, kept_in};
ghost use Rattle.carte_engine.specs.Working.{IsMarkedIn, StandsApart, StandsOn, base_of};
ghost use Rattle.carte_engine.specs.Versions.{kept_for, kept_or};

use carte_book::Book;
use carte_mark::{Begun, begin};
use carte_migrate::raise;
use carte_record::Kept;
use carte_state::State;
use carte_value::NoMemory;
use std::alloc::Global;

/// What is kept, marked where it stands; or what was made apart from it, where that is of version 1 or names are dropped.
#[derive(Drop)]
pub(crate) struct Basis {
    pub(crate) begun: Begun,
    pub(crate) apart: Option<Kept>,
}

impl Basis {
    /// What is worked over.
    pub(crate) fn base<'a>(&'a self, state: &'a State) -> &'a Kept
        ensures { kept_view result.now ≡ base_of self.now state.now }
    {
        match &self.apart {
            Some(made) => made,
            None => state.kept(),
        }
    }

    /// Takes the marks off again, where they were put on what is kept: all is list for list what it was.
    pub(crate) fn leave(&self, state: &mut State)
        ensures { (before : Stand) → IsMarkedIn self.now.apart self.now.begun.marks before state.old → state.new ≡ before }
    {
        if self.apart.is_none() {
            state.unmark(&self.begun.marks);
        }
    }
}

/// Begins a build: marks what is kept where it stands, or makes a marked copy of it without what is dropped. What that is
/// may be known.
pub(crate) fn begin_on(
    alloc: Global,
    state: &mut State,
    book: &Book,
    known: Option<Begun>,
) -> Result<Basis, NoMemory>
    requires { IfSome known (IsBegun (kept_for (any_in state.old) (book_view book.now)) (book_view book.now)) }
    ensures begins { IfOk result (λ basis. StandsOn (book_view book.now) state.old state.new basis) }
    ensures failed { OnErr result (state.new ≡ state.old) }
{
    match raised(alloc, state, book)? {
        Some(kept) => begin_apart(alloc, &kept, book),
        None => begin_here(alloc, state, book, known),
    }
}

/// What becomes of what is kept of version 1 by the book's rules; none where it is of version 2.
pub(crate) fn raised(alloc: Global, state: &State, book: &Book) -> Result<Option<Kept>, NoMemory>
    ensures finds { IfOk result (λ made. kept_or (kept_in state.now) made ≡ kept_for (any_in state.now) (book_view book.now)) }
    ensures old { IfOk result (λ made. is_some made ≡ is_some state.now.one) }
{
    match state.old() {
        Some(old) => Ok(Some(raise(alloc, old, book)?)),
        None => Ok(None),
    }
}

// Over what is kept: marked where it stands, unless names are dropped.
fn begin_here(
    alloc: Global,
    state: &mut State,
    book: &Book,
    known: Option<Begun>,
) -> Result<Basis, NoMemory>
    requires found { kept_in state.old ≡ kept_for (any_in state.old) (book_view book.now) }
    requires known { IfSome known (IsBegun (kept_for (any_in state.old) (book_view book.now)) (book_view book.now)) }
    ensures begins { IfOk result (λ basis. StandsOn (book_view book.now) state.old state.new basis) }
    ensures failed { OnErr result (state.new ≡ state.old) }
{
    let begun = begun_or(alloc, state.kept(), book, known)?;
    if !begun.gone.is_empty() {
        return apart(alloc, state.kept(), begun);
    }
    state.mark(&begun.marks);
    Ok(Basis { begun, apart: None })
}

fn begun_or(
    alloc: Global,
    kept: &Kept,
    book: &Book,
    known: Option<Begun>,
) -> Result<Begun, NoMemory>
    requires { IfSome known (IsBegun (kept_view kept.now) (book_view book.now)) }
    ensures { IfOk result (IsBegun (kept_view kept.now) (book_view book.now)) }
{
    match known {
        Some(begun) => Ok(begun),
        None => begin(alloc, kept, book),
    }
}

// Over something that isn't kept.
fn begin_apart(alloc: Global, kept: &Kept, book: &Book) -> Result<Basis, NoMemory>
    ensures { IfOk result (StandsApart (kept_view kept.now) (book_view book.now)) }
{
    let begun = begin(alloc, kept, book)?;
    apart(alloc, kept, begun)
}

// A marked copy, without what is dropped.
fn apart(alloc: Global, kept: &Kept, begun: Begun) -> Result<Basis, NoMemory>
    ensures { (b : SomeBook) → IsBegun (kept_view kept.now) b begun → IfOk result (StandsApart (kept_view kept.now) b) }
{
    let mut made = kept.without(alloc, &begun.gone)?;
    made.mark(&begun.marks);
    Ok(Basis {
        begun,
        apart: Some(made),
    })
}
