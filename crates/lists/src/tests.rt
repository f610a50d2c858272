//! Lists grow, are read and are copied, at depth one and two.

use crate::{List, OutOfMemory, TryCopy};
use std::alloc::Global;

fn tens(alloc: Global) -> Result<List<u32>, OutOfMemory> {
    let mut numbers = List::new(alloc);
    for k in 1..4u32 {
        numbers.push(10 * k)?;
    }
    Ok(numbers)
}

#[test]
fn a_list_gives_back_its_items(rt: HostRuntime) -> Result<(), OutOfMemory> {
    let numbers = List::from_vec(tens(rt.alloc())?.copy(rt.alloc())?.into_vec());
    assert!(rt; numbers.len() == 3 && *numbers.at(2) == 30);
    assert!(rt; numbers.as_slice() == [10, 20, 30].as_slice());
    Ok(())
}

#[test]
fn a_list_of_lists_is_copied(rt: HostRuntime) -> Result<(), OutOfMemory> {
    let mut lists = List::new(rt.alloc());
    lists.push(tens(rt.alloc())?)?;
    let copied: List<List<u32>> = lists.copy(rt.alloc())?;
    assert!(rt; copied.len() == 1 && copied.at(0).as_slice() == [10, 20, 30].as_slice());
    Ok(())
}
