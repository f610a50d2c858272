//! The current folder as a shelf.
ghost use Rattle.std.specs.Prelude.{◌≡◌, None, IfOk};
ghost use Rattle.shelf.specs.Causes.{HasCause};

use super::answered;
use super::names::{folder_of, is_second, is_share, longest};
use crate::fault::OutsideFault;
use crate::outside::Shelf;
use std::alloc::Global;
use std::fs::{self, File, Metadata, OpenOptions, Permissions};
use std::io::{self, Error, ErrorKind, Read, Write};
use std::os::unix::fs::{OpenOptionsExt, PermissionsExt};
use std::random::RandomSource;
use std::rt::Files;

/// The files of the current folder, which is locked as long as the shelf lives. Where the file
/// system has no locks, the shelf works without.
///
/// - `put` writes a second file under a name of its own, `.`, 32 digits and `..share`, which no
///   command can name. It syncs that file, gives it the name and syncs the folder that both stand
///   in, and only then answers `Ok`. A target gets the name only where nothing stands there.
/// - Each file that is put can be read and written by its owner alone.
/// - `get` reads a file to one byte past the longest that it may be. What is no regular file isn't
///   opened: in the place of a share file (a name that ends in `.share`) it is held and empty,
///   elsewhere a fault.
/// - Of a target `get` tells only whether it is there: no command asks for its bytes.
/// - A name that the folder can't have, and a path through a file or through a folder that isn't
///   there, is not held; to put it is a fault. Any other error is a fault.
#[derive(Drop)]
pub struct FolderShelf<'a, R: Files<File = File> + RandomSource + AllocGlobal> {
    rt: &'a R,
    lock: File,
    target: Option<&'a str>,
    faults: u64,
}

impl<'a, R: Files<File = File> + RandomSource + AllocGlobal> FolderShelf<'a, R> {
    /// Opens the folder for a command that only asks. It waits while another program changes the
    /// folder, and shares it with those that only ask.
    ///
    /// # Errors
    /// The folder can't be opened or locked.
    pub fn open_shared(rt: &'a R) -> io::Result<Self>
        ensures { IfOk result (λ shelf. ⟦<FolderShelf<'a, R> as Shelf>⟧.fault_count shelf ≡ 0) }
    {
        let lock = fs::open(rt, ".")?;
        is_locked(lock.lock_shared())?;
        Ok(FolderShelf {
            rt,
            lock,
            target: None,
            faults: 0,
        })
    }

    /// Opens the folder for a command that changes it, and that makes the target where it has one.
    /// It waits while any other program has the folder, and removes what killed ones left.
    ///
    /// # Errors
    /// The folder can't be opened or locked.
    pub fn open_exclusive(rt: &'a R, target: Option<&'a str>) -> io::Result<Self>
        ensures { IfOk result (λ shelf. ⟦<FolderShelf<'a, R> as Shelf>⟧.fault_count shelf ≡ 0) }
    {
        let lock = fs::open(rt, ".")?;
        if is_locked(lock.lock())? {
            sweep(rt, ".");
        }
        Ok(FolderShelf {
            rt,
            lock,
            target,
            faults: 0,
        })
    }

    fn is_target(&self, name: &str) -> bool {
        matches!(self.target, Some(target) if target == name)
    }

    /// What stands under a name, a target's link itself, or `None` where nothing does.
    fn look(&self, name: &str) -> io::Result<Option<Metadata>> {
        let found = if self.is_target(name) {
            fs::symlink_metadata(self.rt, name)
        } else {
            fs::metadata(self.rt, name)
        };
        match found {
            Ok(metadata) => Ok(Some(metadata)),
            Err(error) if is_absence(&error) => Ok(None),
            Err(error) => Err(error),
        }
    }

    fn read(&self, alloc: Global, name: &str) -> io::Result<Option<Vec<u8>>> {
        let unread = Ok(Some(Vec::new(alloc)));
        match self.look(name) {
            Ok(None) => Ok(None),
            Ok(Some(found)) if self.is_target(name) && (found.is_file() || found.is_symlink()) => {
                unread
            }
            Ok(Some(found)) if found.is_file() => {
                Ok(Some(self.read_file(alloc, name, found.len())?))
            }
            Ok(Some(_)) if is_share(name) => unread,
            Ok(Some(_)) => Err(Error::from(ErrorKind::InvalidInput)),
            Err(error) if error.kind() == ErrorKind::FilesystemLoop && is_share(name) => unread,
            Err(error) => Err(error),
        }
    }

    fn read_file(&self, alloc: Global, name: &str, length: u64) -> io::Result<Vec<u8>> {
        let most = longest(name) + 1;
        let mut bytes = Vec::with_capacity(alloc, length.min(most) as usize)?;
        fs::open(self.rt, name)?.take(most).read_to_end(&mut bytes)?;
        Ok(bytes)
    }

    /// A name for the second file of one put, in the folder of the name.
    fn second_name(&mut self, alloc: Global, name: &str) -> Result<String, OutsideFault>
        ensures { HasCause self.old.faults self.new.faults result }
    {
        let mut mark = [0; 16];
        answered(&mut self.faults, self.rt.fill_bytes(&mut mark))?;
        let mark = u128::from_be_bytes(mark);
        Ok(format!(in alloc; "{}.{mark:032x}..share", folder_of(name))?)
    }

    fn replace(&self, second: &str, name: &str, bytes: &[u8]) -> io::Result<()> {
        let folder = fs::open(self.rt, folder_of(name))?;
        // Any other folder than the current one is swept where no other program has it.
        if folder.try_lock().is_ok() {
            sweep(self.rt, folder_of(name));
        }
        let mut how = OpenOptions::new();
        how.write(true).create_new(true).mode(0o600);
        let file = how.open(self.rt, second)?;
        let put = fill(file, bytes).and_then(|()| self.give_name(second, name));
        if put.is_err() {
            let _ = fs::remove_file(self.rt, second);
        }
        put?;
        folder.sync_all()
    }

    fn give_name(&self, second: &str, name: &str) -> io::Result<()> {
        if !self.is_target(name) {
            return fs::rename(self.rt, second, name);
        }
        match fs::hard_link(self.rt, second, name) {
            Ok(()) => fs::remove_file(self.rt, second),
            // So answers a file system without hard links.
            Err(error)
                if error.kind() == ErrorKind::PermissionDenied && self.look(name)?.is_none() => {
                fs::rename(self.rt, second, name)
            }
            Err(error) => Err(error),
        }
    }

    fn take_away(&self, name: &str) -> io::Result<()> {
        match fs::remove_file(self.rt, name) {
            Ok(()) => fs::open(self.rt, folder_of(name))?.sync_all(),
            Err(error) if is_absence(&error) => Ok(()),
            Err(error) => Err(error),
        }
    }
}

/// Whether the folder was locked. It wasn't where its file system has no locks.
fn is_locked(answer: io::Result<()>) -> io::Result<bool> {
    match answer {
        Ok(()) => Ok(true),
        Err(error) if error.kind() == ErrorKind::Unsupported => Ok(false),
        Err(error) => Err(error),
    }
}

/// Removes the second files that killed programs left in a folder which no other program has.
fn sweep<R: Files + AllocGlobal>(rt: &R, folder: &str) {
    let Ok(entries) = fs::read_dir(&rt, folder) else {
        return;
    };
    for entry in entries {
        match entry {
            Ok(entry) if is_second(entry.file_name()) => {
                let _ = fs::remove_file(rt, entry.path());
            }
            _ => {}
        }
    }
}

/// Writes a new file and syncs it. Its mode is set once more, since the process may take bits of it
/// from its owner; a file system without modes refuses that.
fn fill(mut file: File, bytes: &[u8]) -> io::Result<()> {
    let _ = file.set_permissions(Permissions::from_mode(0o600));
    file.write_all(bytes)?;
    file.sync_all()
}

fn is_absence(error: &Error) -> bool {
    matches!(
        error.kind(),
        ErrorKind::NotFound | ErrorKind::NotADirectory | ErrorKind::InvalidFilename
    )
}

impl<'a, R: Files<File = File> + RandomSource + AllocGlobal> Shelf for FolderShelf<'a, R> {
    ghost held = { λ s. None };

    ghost fault_count = { λ s. s.faults };

    ghost calm = { λ s. ⊥ };

    ghost calm_has_no_faults = { λ s calm. absurd calm };

    fn faults(&self) -> u64 {
        self.faults
    }

    fn get(&mut self, alloc: Global, name: &str) -> Result<Option<Vec<u8>>, OutsideFault> {
        match self.read(alloc, name) {
            Err(error) if error.kind() == ErrorKind::OutOfMemory => Err(OutsideFault::OutOfMemory),
            found => answered(&mut self.faults, found),
        }
    }

    fn put(&mut self, alloc: Global, name: &str, bytes: &[u8]) -> Result<(), OutsideFault> {
        let second = self.second_name(alloc, name)?;
        let put = self.replace(&second, name, bytes);
        answered(&mut self.faults, put)
    }

    fn remove(&mut self, _alloc: Global, name: &str) -> Result<(), OutsideFault> {
        let removed = self.take_away(name);
        answered(&mut self.faults, removed)
    }
}
