ghost use Rattle.std.specs.Prelude.{◌≡◌, Some, IfOk};
ghost use Rattle.carte_name.specs.declared.kind.Kind.{Kind as SomeKind};
ghost use Rattle.carte_tree.specs.Code.{tree_of};
ghost use Rattle.carte_tree.specs.Formula.{IsExpr};
ghost use Rattle.carte_book.specs.Book.{book_view, item_view, formula_of};
ghost use Rattle.carte_book.specs.Fits.{FitsRule, FitsItem};
ghost use Rattle.carte_book.specs.Task.{task_code, task_digest_of, task_held, task_now};

use crate::items::find;
use crate::{Book, Item, Rule};
use carte_tree::{Expr, print_expr};
use carte_value::{Digest, Kind, Name, NoMemory};
use sha2::{Digest as Hasher, Sha256};
use std::alloc::Global;

impl Book {
    /// SHA-256 (FIPS 180-4) of a byte for the kind and a rule's printed formula: what its value is worked out by, apart from
    /// the values of names. None exactly where the name is no rule. It is no work where the book knows it.
    pub fn task_digest(&self, alloc: Global, name: &Name) -> Result<Option<Digest>, NoMemory>
        ensures { IfOk result (λ d. d ≡ task_now (book_view self.now) name.now) }
    {
        match find(&self.items, name) {
            Some((_, Item::Rule(rule))) => {
                let mut room = Vec::new(alloc);
                Ok(Some(rule.digest(alloc, &mut room, self.kind)?))
            }
            Some((_, Item::Input(_))) => Ok(None),
            None => Ok(None),
        }
    }

    /// Of so many rules, or of more, the digest of the task is known. It takes no memory.
    pub fn known_tasks(&self) -> usize {
        self.known_tasks
    }
}

impl Item {
    pub(crate) fn learn(&mut self, task: Option<Digest>) -> bool
        ensures fits { (q : SomeKind) → FitsItem q self.old → task ≡ task_held q (Some self.old) → FitsItem q self.new }
        ensures view { item_view self.new ≡ item_view self.old }
    {
        match self {
            Item::Input(_) => false,
            Item::Rule(rule) => rule.learn(task),
        }
    }
}

impl Rule {
    // The digest of its task, which is no work where it is known.
    pub(crate) fn digest(
        &self,
        alloc: Global,
        room: &mut Vec<u8>,
        kind: Kind,
    ) -> Result<Digest, NoMemory>
        requires { FitsRule kind self.now }
        ensures { IfOk result (λ d. d ≡ task_digest_of kind (formula_of self.now)) }
    {
        match self.task {
            Some(digest) => Ok(digest),
            None => digest_of_task(alloc, room, kind, &self.formula),
        }
    }

    // Keeps the digest of its task, and tells whether it wasn't known yet.
    fn learn(&mut self, task: Option<Digest>) -> bool
        ensures fits { (q : SomeKind) → FitsRule q self.old → task ≡ Some (task_digest_of q (formula_of self.old)) → FitsRule q self.new }
        ensures formula { formula_of self.new ≡ formula_of self.old }
    {
        let is_new = self.task.is_none();
        self.task = task;
        is_new
    }
}

/// As many bytes as the tasks of most rules are spelled with.
const MOST_BYTES: usize = 64;

// A formula is short, so it is spelled whole before the hasher sees it.
fn digest_of_task(
    alloc: Global,
    room: &mut Vec<u8>,
    kind: Kind,
    formula: &Expr,
) -> Result<Digest, NoMemory>
    requires { IsExpr (tree_of formula.now) }
    ensures { IfOk result (λ d. d ≡ task_digest_of kind (tree_of formula.now)) }
{
    room.clear();
    room.reserve(MOST_BYTES)?;
    room.push(task_code(kind))?;
    print_expr(alloc, room, formula)?;
    let mut hasher = Sha256::new();
    hasher.update(room.as_slice());
    Ok(Digest(hasher.finalize()))
}

fn task_code(kind: Kind) -> u8
    ensures { result ≡ task_code kind }
{
    match kind {
        Kind::Rules => 2,
        Kind::Sheet => 3,
    }
}
