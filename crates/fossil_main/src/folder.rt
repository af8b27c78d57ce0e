//! Brings the name of a new file onto the disk: a folder has it, and a sync of the file alone needn't bring it there.
use std::fs::File;
use std::io::ErrorKind;
use std::{fs, io};

/// Tells whether the name of a file that was just opened outlasts a power failure. A file without bytes is new, or a
/// process made it that ended before this point: its folder is synced. A file with bytes got the first of them behind
/// such a sync. It is false where a call fails, and where the program is out of memory for the path of the folder.
pub fn has_name_on_disk(rt: &HostRuntime, file: &File, path: &str) -> bool {
    match file.metadata() {
        Ok(found) if found.len() > 0 => true,
        Ok(_) => sync_folder(rt, path).is_ok(),
        Err(_) => false,
    }
}

/// Syncs the folder that has a file, also where the path is a link to the file. Where the path of the file itself can't be
/// told, as one that isn't UTF-8, it is the folder of the path as it is given. It fails as the calls for it do.
fn sync_folder(rt: &HostRuntime, path: &str) -> io::Result<()> {
    match fs::canonicalize(rt, path) {
        Ok(real) => {
            let answer = sync_at(rt, folder_of(real.as_str()));
            drop(real);
            answer
        }
        Err(_) => sync_at(rt, folder_of(path)),
    }
}

/// The folder of a path: the part before its last `/`.
fn folder_of(path: &str) -> &str {
    match path.rsplit_once('/') {
        Some(("", _)) => "/",
        Some((folder, _)) => folder,
        None => ".",
    }
}

/// Syncs a folder. A system that syncs no folders says so by EINVAL: it keeps names by its own rules, and this is no error.
fn sync_at(rt: &HostRuntime, path: &str) -> io::Result<()> {
    let folder = File::open(rt, path)?;
    let answer = folder.sync_all();
    drop(folder);
    match answer {
        Err(fault) if fault.kind() == ErrorKind::InvalidInput => Ok(()),
        answer => answer,
    }
}
