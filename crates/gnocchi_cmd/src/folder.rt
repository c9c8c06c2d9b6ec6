// The files that a store is kept in. No contract says what a file or a folder holds.
use command_line::Text;
use gno_disk::FileDisk;
use gno_num::Failed;
use std::alloc::Global;
use std::fs::{self, File, OpenOptions};
use std::path::Path;

/// Opens the files of a store, in the order of its plan; where a store is to be made, the folder and the files are made
/// where they aren't there. No other program may have the first file open: its lock is taken before anything is read, and
/// ends with the disk.
pub fn open_all(
    rt: &HostRuntime,
    alloc: Global,
    names: &[Text],
    is_new: bool,
) -> Result<Vec<FileDisk>, Failed> {
    let Some(first) = names.first() else {
        return Err(Failed);
    };
    let folder = folder_of(first.as_str());
    if is_new {
        make_folders(rt, folder)?;
    }
    let lock = open_file(rt, first.as_str(), is_new)?;
    if lock.try_lock().is_err() {
        return Err(Failed);
    }
    let Ok(mut disks) = Vec::with_capacity(alloc, names.len()) else {
        return Err(Failed);
    };
    put(&mut disks, lock)?;
    for name in names.iter().skip(1) {
        let file = open_file(rt, name.as_str(), is_new)?;
        put(&mut disks, file)?;
    }
    if is_new {
        sync_folder(rt, folder)?;
    }
    Ok(disks)
}

// Adds the disk over a file.
fn put(disks: &mut Vec<FileDisk>, file: File) -> Result<(), Failed> {
    let disk = FileDisk::new(file)?;
    match disks.push(disk) {
        Ok(()) => Ok(()),
        Err(_) => Err(Failed),
    }
}

// The folder of a file.
fn folder_of(name: &str) -> &str {
    match Path::new(name).parent() {
        Some(above) if !above.as_str().is_empty() => above.as_str(),
        _ => ".",
    }
}

fn open_file(rt: &HostRuntime, name: &str, create: bool) -> Result<File, Failed> {
    let opened = OpenOptions::new()
        .read(true)
        .write(true)
        .create(create)
        .open(rt, name);
    match opened {
        Ok(file) => Ok(file),
        Err(_) => Err(Failed),
    }
}

// Makes a folder and those above it, from the top on.
fn make_folders(rt: &HostRuntime, folder: &str) -> Result<(), Failed> {
    for end in 1..folder.len() {
        if let Some((above, rest)) = folder.split_at_checked(end) {
            if rest.starts_with('/') {
                make_folder(rt, above)?;
            }
        }
    }
    make_folder(rt, folder)
}

// Makes a folder where there is none, and syncs the folder above it, so that its name outlives a stop of the machine. One
// that is there may be of a run that was stopped in between, so that is synced then too, where it can be.
fn make_folder(rt: &HostRuntime, folder: &str) -> Result<(), Failed> {
    let path = Path::new(folder);
    let made = fs::create_dir(rt, path).is_ok();
    if !made && !path.is_dir(rt) {
        return Err(Failed);
    }
    let synced = sync_folder(rt, folder_of(folder));
    if made { synced } else { Ok(()) }
}

// Syncs the names in a folder.
fn sync_folder(rt: &HostRuntime, folder: &str) -> Result<(), Failed> {
    match File::open(rt, folder) {
        Ok(file) if file.sync_all().is_ok() => Ok(()),
        _ => Err(Failed),
    }
}
