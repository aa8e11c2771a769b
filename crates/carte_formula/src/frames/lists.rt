// The lists of a formula that is read: what a chain has behind its first operand, and the arguments of a call.
// Trees stay in memory as long as their book, so a finished list of at most five items has no more room than these. To
// make longer ones smaller takes longer than it is worth: what it gives back is seldom of use to the allocator.
ghost use Rattle.std.specs.Prelude.{◌≡◌, ◌++◌, ◌∷◌, [], IfOk, OnOk};

use carte_value::NoMemory;

/// How many items most lists have that have more than one. A list that grows from nothing would have room for four.
const FEW_ITEMS: usize = 2;

/// One more item of a list that goes on. A list takes no memory before it has one.
#[inline(always)]
pub fn add<T: Drop>(list: &mut Vec<T>, item: T) -> Result<(), NoMemory>
    ensures { OnOk result (list.new.items ≡ list.old.items ++ item ∷ []) }
{
    if list.is_empty() {
        list.reserve_exact(FEW_ITEMS)?;
    }
    list.push(item)?;
    Ok(())
}

/// A list with its last item.
#[inline(always)]
pub fn with_last<T: Drop>(mut list: Vec<T>, item: T) -> Result<Vec<T>, NoMemory>
    ensures { IfOk result (λ v. v.items ≡ list.items ++ item ∷ []) }
{
    list.reserve_exact(1)?;
    list.push_reserved(item);
    Ok(list)
}
