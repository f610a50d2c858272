//! Steps that more than one command takes: what stands on the shelf.
ghost use Rattle.std.specs.Prelude.{◌≡◌, ℕ, length, IfSome, IfOk, IfErr};
ghost use Rattle.std.specs.Option.{option_map};
ghost use Rattle.std.specs.FinMap as map;
ghost use Rattle.shelf.specs.Causes.{OnlyReads};
ghost use Rattle.sharefile.specs.Reading.{now_at, share_at};
ghost use Rattle.keyroom.specs.Causes.{IsFromShelf, IsFromPlan};
ghost use Rattle.keyroom.specs.Outcome.{AnswersStep};
ghost use Rattle.keyroom.specs.Steps.{now_named, now_of, free_of, bytes_of, is_asked, share_asked, share_of, files_of};

use crate::status::{Status, What};
use crate::text;
use sharefile::{FileFault, KeyName, NowFile, ShareFile, read_now, read_share};
use shelf::Shelf;
use std::alloc::Global;

/// What stands under the name of a member's share file.
#[derive(Clone, Copy, Debug)]
pub enum Found {
    /// The name isn't held.
    Absent,
    /// Bytes that are no valid share file of the member: no share file, or one of another name, member, period or
    /// committee than the now file's.
    Invalid,
    /// The valid share file.
    Valid(ShareFile),
}

/// What stands under a name. It refuses only where the shelf failed, and its count of faults rose, or memory ran out.
pub fn get<H: Shelf>(alloc: Global, name: &str, shelf: &mut H) -> Result<Option<Vec<u8>>, Status>
    ensures reads { OnlyReads H.held H.fault_count H.calm shelf.old shelf.new }
    ensures found { IfOk result (λ found. IfSome (H.held shelf.old) (λ m. option_map (λ bytes. bytes.items) found ≡ map.get m name.now)) }
    ensures cause { IfErr result (IsFromShelf (H.fault_count shelf.old) (H.fault_count shelf.new)) }
{
    match shelf.get(alloc, name) {
        Ok(found) => Ok(found),
        Err(fault) => Err(Status::of_shelf(fault)),
    }
}

/// The now file of a key. It refuses with `NoSuch` where the name isn't held, and with `BadNow` where its bytes are no now
/// file of this key.
pub fn now_of<H: Shelf>(alloc: Global, name: &KeyName, shelf: &mut H) -> Result<NowFile, Status>
    ensures reads { OnlyReads H.held H.fault_count H.calm shelf.old shelf.new }
    ensures gives { IfSome (H.held shelf.old) (λ m. AnswersStep (λ f. f) result (now_of name.now m)) }
    ensures cause { IfErr result (IsFromPlan (H.fault_count shelf.old) (H.fault_count shelf.new)) }
{
    let now_name = text::now_name(alloc, name)?;
    let Some(bytes) = get(alloc, now_name.as_str(), shelf)? else {
        return Err(Status::NoSuch { what: What::Now });
    };
    now_from(name, &bytes)
}

/// The now file that these bytes are, under this name.
fn now_from(name: &KeyName, bytes: &[u8]) -> Result<NowFile, Status>
    ensures gives { AnswersStep (λ f. f) result (now_named name.now (now_at bytes.now)) }
    ensures cause { IfErr result (λ s. (before now : ℕ) → IsFromPlan before now s) }
{
    match read_now(bytes) {
        Ok(now) if now.name.as_str() == name.as_str() => Ok(now),
        Ok(_) => Err(Status::BadNow {
            fault: FileFault::Field { place: 16 },
        }),
        Err(FileFault::OutOfMemory) => Err(Status::OutOfMemory),
        Err(fault) => Err(Status::BadNow { fault }),
    }
}

/// Sees that a name that is to be made isn't held. It refuses with `Exists` where it is.
pub fn check_free<H: Shelf>(alloc: Global, name: &str, shelf: &mut H) -> Result<(), Status>
    ensures reads { OnlyReads H.held H.fault_count H.calm shelf.old shelf.new }
    ensures gives { IfSome (H.held shelf.old) (λ m. AnswersStep (λ done. done) result (free_of name.now m)) }
    ensures cause { IfErr result (IsFromPlan (H.fault_count shelf.old) (H.fault_count shelf.new)) }
{
    match get(alloc, name, shelf)? {
        None => Ok(()),
        Some(_) => Err(Status::Exists),
    }
}

/// The bytes of a document or a box. It refuses with `NoSuch` where the name isn't held.
pub(crate) fn bytes_of<H: Shelf>(
    alloc: Global,
    what: What,
    name: &str,
    shelf: &mut H,
) -> Result<Vec<u8>, Status>
    ensures reads { OnlyReads H.held H.fault_count H.calm shelf.old shelf.new }
    ensures gives { IfSome (H.held shelf.old) (λ m. AnswersStep (λ bytes. bytes.items) result (bytes_of what name.now m)) }
    ensures cause { IfErr result (IsFromPlan (H.fault_count shelf.old) (H.fault_count shelf.new)) }
{
    match get(alloc, name, shelf)? {
        None => Err(Status::NoSuch { what }),
        Some(bytes) => Ok(bytes),
    }
}

/// Whether this is the share file that was asked for, of the now file's committee.
fn is_asked(now: &NowFile, index: u32, f: &ShareFile) -> bool
    ensures { result ≡ is_asked now.now index f.now }
{
    f.name.as_str() == now.name.as_str()
        && f.period == now.period
        && f.n == now.n
        && f.t == now.t
        && f.committee == now.committee()
        && f.index == index
}

/// The share file that these bytes are.
fn share_from(now: &NowFile, index: u32, bytes: &[u8]) -> Result<Found, Status>
    ensures found { IfOk result (λ found. found ≡ share_asked now.now index (share_at bytes.now)) }
    ensures cause { IfErr result (λ s. s ≡ Status.OutOfMemory) }
{
    match read_share(bytes) {
        Ok(f) if is_asked(now, index, &f) => Ok(Found::Valid(f)),
        Err(FileFault::OutOfMemory) => Err(Status::OutOfMemory),
        _ => Ok(Found::Invalid),
    }
}

/// What stands under the name of a member's share file.
fn share_of<H: Shelf>(
    alloc: Global,
    now: &NowFile,
    index: u32,
    shelf: &mut H,
) -> Result<Found, Status>
    ensures reads { OnlyReads H.held H.fault_count H.calm shelf.old shelf.new }
    ensures found { IfOk result (λ found. IfSome (H.held shelf.old) (λ m. found ≡ share_of now.now m index)) }
    ensures cause { IfErr result (IsFromShelf (H.fault_count shelf.old) (H.fault_count shelf.new)) }
{
    let share_name = text::share_name(alloc, &now.name, now.period, index)?;
    match get(alloc, share_name.as_str(), shelf)? {
        None => Ok(Found::Absent),
        Some(bytes) => share_from(now, index, &bytes),
    }
}

/// What stands under the name of each member's share file in the period of the now file, by member. All of them are asked
/// for. It refuses only where the shelf failed, and its count of faults rose, or memory ran out.
pub fn files_of<H: Shelf>(alloc: Global, now: &NowFile, shelf: &mut H) -> Result<Vec<Found>, Status>
    ensures reads { OnlyReads H.held H.fault_count H.calm shelf.old shelf.new }
    ensures count { IfOk result (λ files. length files.items ≡ now.now.n) }
    ensures found { IfOk result (λ files. IfSome (H.held shelf.old) (λ m. files.items ≡ files_of now.now m)) }
    ensures cause { IfErr result (IsFromShelf (H.fault_count shelf.old) (H.fault_count shelf.new)) }
{
    let mut files = Vec::new(alloc);
    for index in 1..now.n + 1 {
        let found = share_of(alloc, now, index, shelf)?;
        files.push(found)?;
    }
    Ok(files)
}
