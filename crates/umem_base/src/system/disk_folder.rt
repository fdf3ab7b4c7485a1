ghost use Rattle.std.specs.Prelude.{◌≡◌, None};
ghost use Rattle.umem_base.specs.Disk.{activity_of};
ghost use Rattle.umem_base.specs.Folder.{Idle};

use super::open_file::OpenFile;
use crate::outside::{Failed, Folder};
use crate::text::Text;
use std::io::{ErrorKind, Read, Write};
use std::rt::Files;
use std::{fs, io};

/// The files of the system, by their paths. It tells nothing of content. A name that is no UTF-8 can't be
/// opened, which is a fault; so is every refusal of the system but that there is no such file.
#[derive(Drop)]
pub struct DiskFolder<'a, R: Files> {
    system: &'a R,
    pub opened: OpenFile<R::File>,
    pub read_faults: u64,
    pub write_faults: u64,
}

impl<'a, R: Files> DiskFolder<'a, R> {
    /// A folder that is idle.
    pub fn new(system: &'a R) -> DiskFolder<'a, R>
        ensures activity { activity_of result.opened ≡ Idle }
        ensures faults { (result.read_faults ≡ 0) × (result.write_faults ≡ 0) }
    {
        DiskFolder {
            system,
            opened: OpenFile::Nothing,
            read_faults: 0,
            write_faults: 0,
        }
    }
}

impl<R: Files> Folder for DiskFolder<'_, R> {
    ghost files = { λ _. None };

    ghost activity = { λ f. activity_of f.opened };

    ghost read_faults = { λ f. f.read_faults };

    ghost write_faults = { λ f. f.write_faults };

    fn open_read(&mut self, name: &Text) -> Result<bool, Failed> {
        match open(self.system, name) {
            Ok(file) => {
                self.opened = OpenFile::Read(file);
                Ok(true)
            }
            Err(e) if e.kind() == ErrorKind::NotFound => Ok(false),
            Err(_) => {
                self.read_faults = self.read_faults.saturating_add(1);
                Err(Failed)
            }
        }
    }

    fn read(&mut self, buffer: &mut [u8]) -> Result<usize, Failed> {
        let OpenFile::Read(file) = &mut self.opened else {
            unreachable!()
        };
        match file.read(buffer) {
            Ok(count) => Ok(count),
            Err(_) => {
                self.read_faults = self.read_faults.saturating_add(1);
                Err(Failed)
            }
        }
    }

    fn create(&mut self, name: &Text) -> Result<(), Failed> {
        match create(self.system, name) {
            Ok(file) => {
                self.opened = OpenFile::Written(file);
                Ok(())
            }
            Err(_) => {
                self.write_faults = self.write_faults.saturating_add(1);
                Err(Failed)
            }
        }
    }

    fn write(&mut self, bytes: &[u8]) -> Result<usize, Failed> {
        let OpenFile::Written(file) = &mut self.opened else {
            unreachable!()
        };
        match file.write(bytes) {
            Ok(count) if count > 0 || bytes.is_empty() => Ok(count),
            _ => {
                self.write_faults = self.write_faults.saturating_add(1);
                Err(Failed)
            }
        }
    }
}

// The path that a name spells.
fn path_of(name: &Text) -> io::Result<&str> {
    std::str::from_utf8(name.as_slice()).map_err(|_| io::Error::from(ErrorKind::InvalidInput))
}

fn open<R: Files>(system: &R, name: &Text) -> io::Result<R::File> {
    fs::open(system, path_of(name)?)
}

fn create<R: Files>(system: &R, name: &Text) -> io::Result<R::File> {
    fs::create(system, path_of(name)?)
}
