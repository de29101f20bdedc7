//! Numbers without repetition.

ghost use Rattle.std.specs.Prelude.{◌≡◌, IfOk, OnOk, map, nat_eq};
ghost use Rattle.indexmap.specs.IndexSet.{insert_key};
ghost use Rattle.jd_jinfos.specs.Views.{method_number};

use indexmap::IndexSet;
use jd_base::{MethodId, NoMemory};
use jd_lists::put;
use std::alloc::Global;

/// Puts a number behind others, where it is none of them.
pub(crate) fn insert(numbers: &mut IndexSet<u32>, number: u32) -> Result<(), NoMemory>
    ensures { OnOk result (numbers.new.keys ≡ insert_key nat_eq numbers.old.keys number) }
{
    let _place = numbers.insert_full(number)?;
    Ok(())
}

/// The methods of these numbers.
pub(crate) fn methods_of(alloc: Global, numbers: &[u32]) -> Result<Vec<MethodId>, NoMemory>
    ensures { IfOk result (λ v. map method_number v.items ≡ numbers.now) }
{
    let mut made = Vec::new(alloc);
    for number in numbers {
        put(&mut made, MethodId(*number))?;
    }
    Ok(made)
}
