//! A store on a file.

use crate::store::{Store, StoreFailed};
use std::alloc::Global;
use std::fs::{File, Files, OpenFile, OpenOptions};
use std::io::{Read, Seek, SeekFrom, Write};
use std::path::Path;

/// A store on a file of its own, which stays open as long as this value exists. Make sure that only one program has the file: `try_lock`
/// locks a file of the system.
#[derive(Drop)]
pub struct FileStore<F> {
    file: F,
}

impl<F: Read + Write + Seek + OpenFile> FileStore<F> {
    /// Opens the file at this path, and creates it if there is none. Its folder is synced, so that the file itself survives a loss of
    /// power.
    ///
    /// # Errors
    /// `StoreFailed` if the file can't be opened for reading and writing, or its folder can't be synced.
    pub fn open<R: Files<File = F>>(rt: &R, path: &str) -> Result<FileStore<F>, StoreFailed> {
        let file = OpenOptions::new()
            .read(true)
            .append(true)
            .create(true)
            .open(rt, path)?;
        sync_folder(rt, path)?;
        Ok(FileStore { file })
    }
}

impl FileStore<File> {
    /// Locks the file until it is closed, so that no other program that takes this lock resumes from it.
    ///
    /// # Errors
    /// `StoreFailed`, with the kind `WouldBlock` if another program has locked it.
    pub fn try_lock(&self) -> Result<(), StoreFailed> {
        match self.file.try_lock() {
            Ok(()) => Ok(()),
            Err(error) => Err(StoreFailed::from(std::io::Error::from(error))),
        }
    }
}

impl<F: Read + Write + Seek + OpenFile> Store for FileStore<F> {
    fn read(&mut self, alloc: Global) -> Result<Vec<u8>, StoreFailed> {
        let mut bytes = Vec::new(alloc);
        self.file.seek(SeekFrom::Start(0))?;
        self.file.read_to_end(&mut bytes)?;
        Ok(bytes)
    }

    fn append(&mut self, bytes: &[u8]) -> Result<(), StoreFailed> {
        self.file.write_all(bytes)?;
        Ok(())
    }

    fn sync(&mut self) -> Result<(), StoreFailed> {
        self.file.sync_all()?;
        Ok(())
    }

    fn cut(&mut self, len: u64) -> Result<(), StoreFailed> {
        self.file.set_len(len)?;
        Ok(())
    }
}

/// Syncs the folder of this path.
fn sync_folder<R: Files>(rt: &R, path: &str) -> Result<(), StoreFailed> {
    let folder = match Path::new(path).parent() {
        Some(folder) if !folder.as_str().is_empty() => folder.as_str(),
        _ => ".",
    };
    std::fs::open(rt, folder)?.sync_all()?;
    Ok(())
}
