//! Making a file of the system hold new bytes, all of them or none.

use crate::pieces::write_pieces;
use std::alloc::Global;
use std::fs::{OpenFile, OpenOptions, Permissions};
use std::io;
use std::os::unix::fs::{OpenOptionsExt, PermissionsExt};
use std::path::{Path, PathBuf};
use std::rt::Files;

/// The permission bits of a file that is created, less those of the process's umask: what is written is a program.
const NEW_FILE_MODE: u32 = 0o777;

/// The permission bits of a draft that is to take the place of a file that is there, until it gets the file's own.
const DRAFT_MODE: u32 = 0o600;

/// The bits of a mode that say who may read, write and run a file.
const PERMISSION_BITS: u32 = 0o777;

/// How many names of drafts are tried in a folder.
const DRAFTS: u32 = 1_000;

/// Makes the file at `path` hold `bytes`.
///
/// The bytes are written to a draft beside the file, which then takes the file's place at once: after an error, and after the
/// process or the machine stopped in between, the file has what it had. A file that is there keeps its permission bits, and a
/// link to a file is followed. What is no file, such as a device, a pipe or a link to nothing, is written in place, and so is
/// what a path below /dev or /proc leads to.
pub(crate) fn write_file<R: Files>(
    files: &R,
    alloc: Global,
    path: &str,
    bytes: &[u8],
) -> io::Result<()> {
    if path.starts_with("/dev/") || path.starts_with("/proc/") {
        return write_in_place(files, path, bytes);
    }
    match files.metadata(path) {
        Ok(there) if there.is_file() => {
            let target = files.canonicalize(alloc, path)?;
            let bits = there.permissions().mode() & PERMISSION_BITS;
            replace(files, alloc, target.as_str(), Some(bits), bytes)
        }
        Ok(_) => write_in_place(files, path, bytes),
        Err(_) => match files.symlink_metadata(path) {
            Ok(_) => write_in_place(files, path, bytes),
            Err(_) => replace(files, alloc, path, None, bytes),
        },
    }
}

/// Writes `bytes` over what is at `path`.
fn write_in_place<R: Files>(files: &R, path: &str, bytes: &[u8]) -> io::Result<()> {
    let mut file = OpenOptions::new()
        .write(true)
        .create(true)
        .truncate(true)
        .mode(NEW_FILE_MODE)
        .open(files, path)?;
    write_pieces(&mut file, bytes)
}

/// Has a draft with `bytes` take the place of the file at `target`, with these permission bits, or those of a new file. After
/// an error there is no draft.
fn replace<R: Files>(
    files: &R,
    alloc: Global,
    target: &str,
    bits: Option<u32>,
    bytes: &[u8],
) -> io::Result<()> {
    let mode = bits.map_or(NEW_FILE_MODE, |_| DRAFT_MODE);
    let (draft, mut file) = create_draft(files, alloc, target, mode)?;
    let replaced = match fill(&mut file, bits, bytes) {
        Ok(()) => files.rename(draft.as_str(), target),
        Err(error) => Err(error),
    };
    if replaced.is_err() {
        // the first error is the one that tells
        let _ = files.remove_file(draft.as_str());
    }
    replaced
}

/// Creates a file beside `target`, under a name that no file has.
fn create_draft<R: Files>(
    files: &R,
    alloc: Global,
    target: &str,
    mode: u32,
) -> io::Result<(PathBuf, R::File)> {
    for number in 0..DRAFTS {
        let name = format!(in alloc; ".multiverse-{number}")?;
        let draft = Path::new(target).with_file_name(alloc, name.as_str())?;
        let created = OpenOptions::new()
            .write(true)
            .create_new(true)
            .mode(mode)
            .open(files, draft.as_str());
        match created {
            Ok(file) => return Ok((draft, file)),
            Err(error) if error.kind() == io::ErrorKind::AlreadyExists => {}
            Err(error) => return Err(error),
        }
    }
    Err(io::Error::from(io::ErrorKind::AlreadyExists))
}

/// Writes `bytes` to a draft, gives it these permission bits, and has the system store both.
fn fill<F: io::Write + OpenFile>(file: &mut F, bits: Option<u32>, bytes: &[u8]) -> io::Result<()> {
    write_pieces(file, bytes)?;
    if let Some(bits) = bits {
        file.set_permissions(Permissions::from_mode(bits))?;
    }
    file.sync_all()
}
