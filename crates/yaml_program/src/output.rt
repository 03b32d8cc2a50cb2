//! A file that is written beside the one that it replaces, so that the latter changes as a whole or not at all.
//!
//! (`create` and `replace` aren't inlined: in each call of the system a name takes 4 KB of stack, which is free again before texts are written.)
ghost use Rattle.std.specs.Prelude.{◌≡◌};

use std::fs::{File, TryLockError};
use std::io::ErrorKind;
use std::os::unix::fs::MetadataExt;
use std::path::Path;
use std::{fs, io};

/// The maximum number of runs that can write the same file at the same time.
const MOST_NAMES: u32 = 20;

/// The maximum number of bytes in a file's name, by the file systems of Linux (`NAME_MAX`).
const MOST_NAME_BYTES: usize = 255;

/// The maximum length of a chain of links that is followed, as by the system.
const MOST_LINKS: u32 = 40;

/// The system's number of the error for a longer chain (`ELOOP`).
const TOO_MANY_LINKS: i32 = 40;

/// Returns whether the file of this name is no regular file, but a device or a pipe, say, which is written itself and not replaced.
pub fn is_written_in_place(rt: &HostRuntime, name: &str) -> bool {
    match fs::metadata(rt, name) {
        Ok(found) => !found.is_file(),
        Err(_) => false,
    }
}

/// Returns the name of the file to which a link of this name leads, whether that file exists or not; the name itself if it is no link's.
fn target_of(rt: &HostRuntime, name: &str) -> io::Result<String> {
    let mut target = String::from_str(rt.alloc(), name)?;
    for _ in 0..MOST_LINKS {
        match fs::read_link(rt, target.as_str()) {
            Ok(path) => {
                // (a relative path begins at the link's folder)
                let folder = match Path::new(target.as_str()).parent() {
                    Some(folder) => folder,
                    None => Path::new(""),
                };
                let meant = folder.join(rt.alloc(), path.into_string().as_str())?;
                target = meant.into_string();
            }
            Err(error) => {
                return match error.kind() {
                    // (it is no link, or nothing has this name)
                    ErrorKind::InvalidInput | ErrorKind::NotFound => Ok(target),
                    _ => Err(error),
                };
            }
        }
    }
    Err(io::Error::from_raw_os_error(TOO_MANY_LINKS))
}

/// Returns the longest start of a path that has at most this many bytes of the file's name.
fn with_short_name(path: &str, most: usize) -> &str {
    let folder = match path.rfind('/') {
        Some(slash) => slash + 1,
        None => 0,
    };
    match path.get(..path.floor_char_boundary(folder.saturating_add(most))) {
        Some(start) => start,
        None => path,
    }
}

/// Returns the name of a temporary file beside this one. It begins with the name of this one, or with as much of it as the file system
/// has room for, and has the name of the program.
fn temporary_name(
    rt: &HostRuntime,
    program: &str,
    target: &str,
    number: u32,
) -> io::Result<String> {
    let ending = format!(in rt.alloc(); ".{program}-{number}.tmp")?;
    let start = with_short_name(target, MOST_NAME_BYTES.saturating_sub(ending.len()));
    Ok(format!(in rt.alloc(); "{start}{ending}")?)
}

/// Removes the temporary file of this name if it isn't locked, since a run that was cut off has left it then.
fn remove_if_left(rt: &HostRuntime, name: &str) -> io::Result<()> {
    if fs::symlink_metadata(rt, name)?.is_file() {
        let file = File::open(rt, name)?;
        if file.try_lock().is_ok() {
            // (the name may be that of another file by now)
            let open = file.metadata()?;
            let named = fs::symlink_metadata(rt, name)?;
            if open.dev() == named.dev() && open.ino() == named.ino() {
                return fs::remove_file(rt, name);
            }
        }
    }
    Ok(())
}

/// Removes the temporary files beside this one that were left by runs that were cut off.
fn remove_all_left(rt: &HostRuntime, program: &str, target: &str) -> io::Result<()> {
    for number in 0..MOST_NAMES {
        let name = temporary_name(rt, program, target, number)?;
        let _done = remove_if_left(rt, name.as_str());
    }
    Ok(())
}

/// Makes a file and locks it, so that no other run removes it. Returns `None` if a file has this name, or another run has removed the new
/// one, or is about to.
fn create_kept(rt: &HostRuntime, name: &str) -> io::Result<Option<File>> {
    match File::create_new(rt, name) {
        Ok(file) => {
            let is_kept = !matches!(file.try_lock(), Err(TryLockError::WouldBlock))
                && match file.metadata() {
                    Ok(found) => found.nlink() > 0,
                    Err(_) => true,
                };
            Ok(if is_kept { Some(file) } else { None })
        }
        Err(error) => {
            if error.kind() == ErrorKind::AlreadyExists {
                Ok(None)
            } else {
                Err(error)
            }
        }
    }
}

/// A file that will replace another beside it. It is locked as long as it is open.
#[derive(Drop)]
pub struct Beside {
    file: File,
    name: String,
    target: String,
}

impl Beside {
    /// Makes a program's file beside the one of this name, with the permissions of that one, if it exists. They are set before anything
    /// is written; if that fails, the new file is removed.
    #[inline(never)]
    pub fn create(rt: &HostRuntime, program: &str, name: &str) -> io::Result<Beside> {
        let target = target_of(rt, name)?;
        remove_all_left(rt, program, target.as_str())?;
        for number in 0..MOST_NAMES {
            let name = temporary_name(rt, program, target.as_str(), number)?;
            if let Some(file) = create_kept(rt, name.as_str())? {
                let beside = Beside { file, name, target };
                let given = match fs::metadata(rt, beside.target.as_str()) {
                    Ok(found) => beside.file.set_permissions(found.permissions()),
                    Err(_) => Ok(()),
                };
                return match given {
                    Ok(()) => Ok(beside),
                    Err(error) => {
                        beside.remove(rt);
                        Err(error)
                    }
                };
            }
        }
        Err(io::Error::from(ErrorKind::AlreadyExists))
    }

    /// Returns the file that is written.
    pub fn file(&self) -> &File
        ensures { result.now ≡ self.now.file }
    {
        &self.file
    }

    /// Gives the file the name of the one that it replaces, or removes it if that fails.
    #[inline(never)]
    pub fn replace(&self, rt: &HostRuntime) -> io::Result<()> {
        let renamed = fs::rename(rt, self.name.as_str(), self.target.as_str());
        if renamed.is_err() {
            self.remove(rt);
        }
        renamed
    }

    /// Removes the file.
    pub fn remove(&self, rt: &HostRuntime) {
        let _gone = fs::remove_file(rt, self.name.as_str());
    }
}
