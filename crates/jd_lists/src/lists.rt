//! Lists of any items, as those whose last part comes first, and boxes.

ghost use Rattle.std.specs.Prelude.{◌≡◌, ◌++◌, ◌∷◌, [], IfOk, MatchOption, OnOk, reverse};

use jd_base::{NoMemory, both};
use std::alloc::Global;

/// Lets a value go.
pub fn discard<T: Drop>(_value: T) {}

/// The item in a box.
pub fn boxed<T: Drop>(alloc: Global, item: T) -> Result<Box<T>, NoMemory>
    ensures { IfOk result (λ b. b.value ≡ item) }
{
    Ok(Box::new(alloc, item)?)
}

/// Puts an item behind others. Room is made apart from it, so that little is left to do where there is some.
///
/// # Errors
///
/// `NoMemory`.
pub fn put<T: Drop>(items: &mut Vec<T>, item: T) -> Result<(), NoMemory>
    ensures { OnOk result (items.new.items ≡ items.old.items ++ item ∷ []) }
{
    if items.len() == items.capacity() {
        items.reserve(1)?;
    }
    items.push_reserved(item);
    Ok(())
}

/// The list with one more item.
pub fn with<T: Drop>(items: Vec<T>, item: T) -> Result<Vec<T>, NoMemory>
    ensures { IfOk result (λ v. v.items ≡ items.items ++ item ∷ []) }
{
    let mut items = items;
    match items.push(item) {
        Ok(()) => Ok(items),
        Err(_) => Err(NoMemory),
    }
}

/// The items of both.
pub fn appended<T: Drop>(items: Vec<T>, others: Vec<T>) -> Result<Vec<T>, NoMemory>
    ensures { IfOk result (λ v. v.items ≡ items.items ++ others.items) }
{
    let mut items = items;
    let mut others = others;
    match items.append(&mut others) {
        Ok(()) => Ok(items),
        Err(_) => Err(NoMemory),
    }
}

/// The items from the last on.
pub fn in_order<T: Drop>(items: Vec<T>) -> Vec<T>
    ensures { result.items ≡ reverse items.items }
{
    let mut items = items;
    items.reverse();
    items
}

/// The items of three lists whose last part comes first.
pub fn all_of<T: Drop>(first: Vec<T>, second: Vec<T>, third: Vec<T>) -> Result<Vec<T>, NoMemory>
    ensures { IfOk result (λ v. v.items ≡ (third.items ++ second.items) ++ first.items) }
{
    appended(appended(third, second)?, first)
}

/// The list of one item.
pub fn alone<T: Drop>(alloc: Global, item: T) -> Result<Vec<T>, NoMemory>
    ensures { IfOk result (λ v. v.items ≡ item ∷ []) }
{
    with(Vec::new(alloc), item)
}

/// Puts an item before the others.
pub fn put_first<T: Drop>(items: &mut Vec<T>, item: T) -> Result<(), NoMemory>
    ensures { OnOk result (items.new.items ≡ item ∷ items.old.items) }
{
    match items.insert(0, item) {
        Ok(()) => Ok(()),
        Err(_) => Err(NoMemory),
    }
}

/// The list without its last item, and that.
pub fn last_apart<T: Drop>(items: Vec<T>) -> (Vec<T>, Option<T>)
    ensures { MatchOption result.1 ((items.items ≡ []) × (result.0.items ≡ [])) (λ x. items.items ≡ result.0.items ++ x ∷ []) }
{
    let mut items = items;
    let last = items.pop();
    (items, last)
}

/// The list with one more item, if that has been made.
pub fn ended<T: Drop>(items: Vec<T>, item: Result<T, NoMemory>) -> Result<Vec<T>, NoMemory>
    ensures { IfOk result (λ v. (x : T) × (item ≡ Ok x) × (v.items ≡ items.items ++ x ∷ [])) }
{
    let (items, item) = both(Ok(items), item)?;
    with(items, item)
}
