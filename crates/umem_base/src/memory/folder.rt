ghost use Rattle.std.specs.Prelude.{◌≡◌, ◌≢◌, ◌<◌, ◌≤◌, ◌++◌, ℕ, List, [], length, min, take, Some, None, is_err, is_some, IfOk, IfSome, OnOk, OnErr, MatchOption};
ghost use Rattle.std.specs.Option.{option_map};
ghost use Rattle.umem_base.specs.Faults.{Counts};
ghost use Rattle.umem_base.specs.Folder.{Files, Activity, IsReading, IsWriting, Opens, ReadsOn, Sets, Grows, told_name, left_of};
ghost use Rattle.umem_base.specs.Folder as folder;
ghost use Rattle.umem_base.specs.FaultPlan.{fails_next, after_next_call, counted_if};
ghost use Rattle.umem_base.specs.MemFolder.{IsFirstAt, file_named, contents, create_fails, append_fails, activity_after_read, with_file_bytes, with_appended};

use super::fault_plan::FaultPlan;
use super::open::Open;
use super::table::Table;
use crate::no_memory::NoMemory;
use crate::outside::{Failed, Folder};
use crate::text::Text;
use std::alloc::Global;
use std::marker::Model;

/// A folder of files in memory. Only names that were put can be created.
#[derive(Debug, Drop)]
pub struct MemFolder {
    files: Table,
    opened: Open,
    plan: FaultPlan,
    read_faults: u64,
    write_faults: u64,
}

impl Model for MemFolder {
    ghost use Rattle.umem_base.specs.Files.{activity_in, IsOpenFile};
    ghost use Rattle.umem_base.specs.MemFolder.{MemFolder};

    ghost Value = { MemFolder };

    ghost view = { λ f. record {
      files = f.files;
      activity = activity_in f.files f.opened;
      plan = f.plan;
      read_faults = f.read_faults;
      write_faults = f.write_faults;
    } };

    ghost invariant = { λ f. IsOpenFile f.files f.opened };
}

impl MemFolder {
    /// An idle folder with no file, of whose calls the ones with these numbers fail. The calls of the
    /// four kinds are numbered together.
    pub fn new(alloc: Global, failing: Vec<u64>) -> MemFolder
        ensures files { result.files ≡ [] }
        ensures activity { result.activity ≡ folder.Idle }
        ensures plan { result.plan ≡ record { failing = failing.items; calls = 0 } }
        ensures faults { (result.read_faults ≡ 0) × (result.write_faults ≡ 0) }
    {
        MemFolder {
            files: Table::new(alloc),
            opened: Open::Nothing,
            plan: FaultPlan::new(failing),
            read_faults: 0,
            write_faults: 0,
        }
    }

    /// Puts a file of these bytes, which can be created again with room for so many. It hides an older file of
    /// that name. The folder is then idle; on refusal it is as before.
    pub fn put(&mut self, name: &Text, bytes: &[u8], room: usize) -> Result<(), NoMemory>
        ensures put { OnOk result (file_named self.new.files name.now
            ≡ Some (record { name = name.now; bytes = bytes.now; room = room })) }
        ensures others { (other : List ℕ) → other ≢ name.now →
            file_named self.new.files other ≡ file_named self.old.files other }
        ensures activity { OnOk result (self.new.activity ≡ folder.Idle) }
        ensures err { OnErr result (self.new ≡ self.old) }
        ensures plan { self.new.plan ≡ self.old.plan }
        ensures read_faults { self.new.read_faults ≡ self.old.read_faults }
        ensures write_faults { self.new.write_faults ≡ self.old.write_faults }
    {
        self.files.add(name, bytes, room)?;
        self.opened = Open::Nothing;
        Ok(())
    }

    /// The bytes of a file, if there is one of that name.
    pub fn file(&self, name: &Text) -> Option<&[u8]>
        ensures { option_map (λ bytes. bytes.now) result ≡ contents self.now.files name.now }
    {
        let at = self.files.position(name)?;
        Some(self.files.bytes_at(at))
    }
}

impl Folder for MemFolder {
    ghost files = { λ f. Some (contents f.files) };

    ghost activity = { λ f. f.activity };

    ghost read_faults = { λ f. f.read_faults };

    ghost write_faults = { λ f. f.write_faults };

    fn open_read(&mut self, name: &Text) -> Result<bool, Failed>
        ensures opens { Opens (Some (contents self.old.files)) name.now self.old.activity self.new.activity result }
        ensures files { self.new.files ≡ self.old.files }
        ensures fails { is_err result ≡ fails_next self.old.plan }
        ensures plan { self.new.plan ≡ after_next_call self.old.plan }
        ensures read_faults { self.new.read_faults ≡ counted_if (is_err result) self.old.read_faults }
        ensures cause { Counts self.old.read_faults self.new.read_faults result }
        ensures write_faults { self.new.write_faults ≡ self.old.write_faults }
    {
        if self.plan.fails_next() {
            self.read_faults = self.read_faults.saturating_add(1);
            return Err(Failed);
        }
        let Some(file) = self.files.position(name) else {
            return Ok(false);
        };
        self.opened = Open::Read { file, at: 0 };
        Ok(true)
    }

    /// Moves as many bytes as are left and fit.
    fn read(&mut self, buffer: &mut [u8]) -> Result<usize, Failed>
        requires { IsReading self.old.activity }
        ensures bound { IfOk result (λ n. n ≤ length buffer.new) }
        ensures moved { ReadsOn self.old.activity self.new.activity result buffer.new }
        ensures activity { self.new.activity ≡ activity_after_read self.old (length buffer.old) }
        ensures files { self.new.files ≡ self.old.files }
        ensures fails { is_err result ≡ fails_next self.old.plan }
        ensures plan { self.new.plan ≡ after_next_call self.old.plan }
        ensures read_faults { self.new.read_faults ≡ counted_if (is_err result) self.old.read_faults }
        ensures cause { Counts self.old.read_faults self.new.read_faults result }
        ensures write_faults { self.new.write_faults ≡ self.old.write_faults }
    {
        if self.plan.fails_next() {
            self.read_faults = self.read_faults.saturating_add(1);
            return Err(Failed);
        }
        let Open::Read { file, at } = self.opened else {
            unreachable!()
        };
        let left = &self.files.bytes_at(file)[at..];
        let count = left.len().min(buffer.len());
        buffer[..count].copy_from_slice(&left[..count]);
        self.opened = Open::Read {
            file,
            at: at + count,
        };
        Ok(count)
    }

    /// It fails where the name was never put.
    fn create(&mut self, name: &Text) -> Result<(), Failed>
        ensures writing { OnOk result (self.new.activity ≡ folder.Writing (Some name.now)) }
        ensures emptied { OnOk result
            (Sets (Some (contents self.old.files)) (Some (contents self.new.files)) name.now (Some [])) }
        ensures files { OnOk result (self.new.files ≡ with_file_bytes self.old.files name.now []) }
        ensures err { OnErr result ((self.new.activity ≡ self.old.activity) × (self.new.files ≡ self.old.files)) }
        ensures fails { is_err result ≡ create_fails self.old name.now }
        ensures plan { self.new.plan ≡ after_next_call self.old.plan }
        ensures write_faults { self.new.write_faults ≡ counted_if (is_err result) self.old.write_faults }
        ensures cause { Counts self.old.write_faults self.new.write_faults result }
        ensures read_faults { self.new.read_faults ≡ self.old.read_faults }
    {
        let fails = self.plan.fails_next();
        let place = self.files.position(name);
        let (false, Some(file)) = (fails, place) else {
            self.write_faults = self.write_faults.saturating_add(1);
            return Err(Failed);
        };
        self.files.empty_at(file);
        self.opened = Open::Written { file };
        Ok(())
    }

    /// Takes the whole piece. It fails where that is more than there is room left for.
    fn write(&mut self, bytes: &[u8]) -> Result<usize, Failed>
        requires { IsWriting self.old.activity }
        ensures bound { IfOk result (λ n. n ≤ length bytes.now) }
        ensures whole { IfOk result (λ n. n ≡ length bytes.now) }
        ensures grows { IfOk result (λ n. Grows self.old.activity
            (Some (contents self.old.files)) (Some (contents self.new.files)) (take n bytes.now)) }
        ensures files { OnOk result (self.new.files ≡ with_appended self.old.files self.old.activity bytes.now) }
        ensures activity { self.new.activity ≡ self.old.activity }
        ensures err { OnErr result (self.new.files ≡ self.old.files) }
        ensures fails { is_err result ≡ append_fails self.old bytes.now }
        ensures plan { self.new.plan ≡ after_next_call self.old.plan }
        ensures write_faults { self.new.write_faults ≡ counted_if (is_err result) self.old.write_faults }
        ensures cause { Counts self.old.write_faults self.new.write_faults result }
        ensures read_faults { self.new.read_faults ≡ self.old.read_faults }
    {
        let fails = self.plan.fails_next();
        let Open::Written { file } = self.opened else {
            unreachable!()
        };
        if fails || !self.files.append_at(file, bytes) {
            self.write_faults = self.write_faults.saturating_add(1);
            return Err(Failed);
        }
        Ok(bytes.len())
    }
}
