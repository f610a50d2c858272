use crate::{
    DeviceEntropy, Entropy, EntropyFault, FolderShelf, MemoryEntropy, MemoryShelf, MemorySink,
    OutSink, OutsideFault, Shelf, Sink,
};
use std::process::Abort;
use std::test::Fail;
use std::{env, fs, io};

/// One round of calls on any shelf: put twice, get, remove twice, and a name that was never there.
fn put_get_remove<R: Abort + AllocGlobal, S: Shelf>(
    rt: &R,
    shelf: &mut S,
) -> Result<(), OutsideFault> {
    let alloc = rt.alloc();
    shelf.put(alloc, "k1.now", b"first")?;
    shelf.put(alloc, "k1.now", b"second")?;
    shelf.put(alloc, "letter.txt", b"")?;
    let found = shelf.get(alloc, "k1.now")?;
    assert!(rt; found.is_some_and(|bytes| bytes.as_slice() == b"second".as_slice()));
    let empty = shelf.get(alloc, "letter.txt")?;
    assert!(rt; empty.is_some_and(|bytes| bytes.is_empty()));
    shelf.remove(alloc, "k1.now")?;
    shelf.remove(alloc, "k1.now")?;
    assert!(rt; shelf.get(alloc, "k1.now")?.is_none());
    assert!(rt; shelf.get(alloc, "k9.now")?.is_none());
    assert_eq!(rt; shelf.faults(), 0);
    Ok(())
}

/// Goes into a new folder, which no other program has locked.
fn enter_new_folder(rt: &HostRuntime, name: &str) -> io::Result<()> {
    fs::create_dir(rt, name)?;
    env::set_current_dir(rt, name)
}

/// Goes out of the folder and takes it away.
fn leave_folder(rt: &HostRuntime, name: &str) -> io::Result<()> {
    env::set_current_dir(rt, "..")?;
    fs::remove_dir_all(rt, name)
}

#[test]
fn a_folder_gives_back_what_was_put_and_keeps_no_second_file(rt: HostRuntime) -> Result<(), Fail> {
    enter_new_folder(&rt, "shelf_of_a_test")?;
    let mut shelf = FolderShelf::open_exclusive(&rt, None)?;
    put_get_remove(&rt, &mut shelf)?;
    let count = fs::read_dir(&rt, ".")?.count();
    assert_eq!(rt; count, 1, "the letter alone is there");
    shelf.remove(rt.alloc(), "letter.txt")?;
    fs::create_dir(&rt, "folder")?;
    assert!(rt; shelf.put(rt.alloc(), "folder", b"x") == Err(OutsideFault::Failed));
    assert!(rt; shelf.put(rt.alloc(), "none/x", b"x") == Err(OutsideFault::Failed));
    assert_eq!(rt; shelf.faults(), 2);
    assert!(rt; shelf.get(rt.alloc(), "none/x")?.is_none());
    leave_folder(&rt, "shelf_of_a_test")?;
    Ok(())
}

#[test]
fn a_target_is_told_to_be_there_and_not_replaced(rt: HostRuntime) -> Result<(), Fail> {
    enter_new_folder(&rt, "target_of_a_test")?;
    let mut shelf = FolderShelf::open_exclusive(&rt, Some("target.txt"))?;
    assert!(rt; shelf.put(rt.alloc(), "target.txt", b"here") == Ok(()));
    assert!(rt; shelf.put(rt.alloc(), "target.txt", b"there") == Err(OutsideFault::Failed));
    let told = shelf.get(rt.alloc(), "target.txt")?;
    assert!(rt; told.is_some_and(|bytes| bytes.is_empty()));
    let bytes = fs::read(&rt, "target.txt")?;
    assert!(rt; bytes.as_slice() == b"here".as_slice());
    leave_folder(&rt, "target_of_a_test")?;
    Ok(())
}

#[test]
fn a_shelf_in_memory_gives_back_what_was_put(rt: HostRuntime) -> Result<(), Fail> {
    let mut shelf = MemoryShelf::new(rt.alloc(), Vec::new(rt.alloc()));
    put_get_remove(&rt, &mut shelf)?;
    assert_eq!(rt; shelf.len(), 1);
    Ok(())
}

#[test]
fn two_seeds_of_the_device_differ(rt: HostRuntime) -> Result<(), Fail> {
    let mut entropy = DeviceEntropy::new(&rt);
    let mut first = [0; 32];
    let mut second = [0; 32];
    assert!(rt; entropy.fill(&mut first) == Ok(()));
    assert!(rt; entropy.fill(&mut second) == Ok(()));
    assert!(rt; first != second);
    assert_eq!(rt; entropy.faults(), 0);
    Ok(())
}

#[test]
fn the_calls_with_listed_numbers_fail(rt: HostRuntime) -> Result<(), Fail> {
    let alloc = rt.alloc();
    let mut shelf = MemoryShelf::new(alloc, [0, 2, 3].to_vec(alloc)?);
    assert!(rt;
        shelf.put(alloc, "a", b"1") == Err(OutsideFault::Failed),
        "call 0"
    );
    assert!(rt; shelf.put(alloc, "a", b"2") == Ok(()), "call 1");
    assert!(rt;
        shelf.remove(alloc, "a") == Err(OutsideFault::Failed),
        "call 2"
    );
    assert!(rt; shelf.get(alloc, "a").is_err(), "call 3");
    assert_eq!(rt; (shelf.faults(), shelf.len()), (3, 1));

    let seeds = [[7; 32], [9; 32]].to_vec(alloc)?;
    let mut entropy = MemoryEntropy::new(seeds, [1].to_vec(alloc)?);
    let mut seed = [0; 32];
    let answers = [Ok(7), Err(EntropyFault), Ok(9), Err(EntropyFault)];
    for answer in answers {
        let filled = entropy.fill(&mut seed);
        assert!(rt; filled.map(|_| seed[31]) == answer);
    }
    assert_eq!(rt;
        entropy.faults(),
        2,
        "a listed call, and one without a seed"
    );

    let mut sink = MemorySink::new(alloc, [1].to_vec(alloc)?);
    assert!(rt; sink.put(alloc, b"ab") == Ok(()));
    assert!(rt; sink.put(alloc, b"cd") == Err(OutsideFault::Failed));
    assert!(rt; sink.put(alloc, b"ef") == Ok(()));
    assert_eq!(rt; sink.bytes(), b"abef".as_slice());
    assert_eq!(rt; sink.faults(), 1);
    Ok(())
}

#[test]
fn a_failing_change_is_made_all_the_same(rt: HostRuntime) -> Result<(), Fail> {
    let alloc = rt.alloc();
    let mut shelf = MemoryShelf::made(alloc, [0, 1, 3].to_vec(alloc)?);
    assert!(rt;
        shelf.put(alloc, "a", b"1") == Err(OutsideFault::Failed),
        "call 0"
    );
    assert!(rt; shelf.get(alloc, "a").is_err(), "call 1");
    let found = shelf.get(alloc, "a")?;
    assert!(rt; found.is_some_and(|bytes| bytes.as_slice() == b"1".as_slice()));
    assert!(rt;
        shelf.remove(alloc, "a") == Err(OutsideFault::Failed),
        "call 3"
    );
    assert_eq!(rt; (shelf.faults(), shelf.len()), (3, 0));
    Ok(())
}

#[test]
fn a_stream_gets_all_bytes(rt: HostRuntime) -> Result<(), Fail> {
    let mut bytes = Vec::new(rt.alloc());
    let mut sink = OutSink::new(&mut bytes);
    assert!(rt; sink.put(rt.alloc(), b"two ") == Ok(()));
    assert!(rt; sink.put(rt.alloc(), b"lines") == Ok(()));
    assert_eq!(rt; sink.faults(), 0);
    assert_eq!(rt; bytes.as_slice(), b"two lines".as_slice());
    Ok(())
}
