//! A host in memory.

ghost use Rattle.std.specs.Prelude.{◌≡◌, ◌==◌, ℕ, List, [], ◌++◌, Some, None, if◌then◌else◌, length, ◌<◌, slice_index_or, MatchOption, IfOk, IfSome, OnOk, OnErr};
ghost use Rattle.std.specs.Cmp.Lexicographic.{pointwise};
ghost use Rattle.device_mem.specs.Databases.{disk_of, IsNew};
ghost use Rattle.device_mem.specs.Scripts.{bytes_of};
ghost use Rattle.device_mem.specs.declared.disk.MemDisk.{MemDisk};
ghost use Rattle.device_mem.specs.declared.host.Database.{Database};

use crate::disk::MemDisk;
use crate::failing::Failing;
use crate::source::MemSource;
use device::{Failed, Host};
use std::alloc::{AllocError, Global};

/// A script that was put, and which reads of it are to fail.
#[derive(Debug, Drop)]
pub struct Script {
    name: Vec<u8>,
    bytes: Vec<u8>,
    failing_reads: Vec<u64>,
}

/// A database that was put.
#[derive(Drop)]
struct Database {
    name: Vec<u8>,
    disk: MemDisk,
}

/// A host that gives the scripts that were put; others it can't open. It gives a disk that was put once, and a new one where there is none.
#[derive(Drop)]
pub struct MemHost {
    alloc: Global,
    databases: Vec<Database>,
    scripts: Vec<Script>,
    faults: u64,
    failing: Failing,
}

impl Host for MemHost {
    ghost use Rattle.std.specs.Prelude.{ℕ, List};
    ghost use Rattle.device.specs.Streams.{HostSeen};
    ghost use Rattle.device_mem.specs.Scripts.{bytes_of};

    type Disk = MemDisk;

    type Script = MemSource;

    ghost seen = { λ h. record { scripts = bytes_of h.scripts.items; faults = h.faults } };

    fn open(&mut self, name: &str) -> Result<MemDisk, Failed> {
        if self.failing.is_next() {
            self.faults = self.faults.saturating_add(1);
            return Err(Failed);
        }
        Ok(taken(self.alloc, &mut self.databases, name.as_bytes()))
    }

    fn script(&mut self, name: &str) -> Result<MemSource, Failed> {
        if self.failing.is_next() {
            self.faults = self.faults.saturating_add(1);
            return Err(Failed);
        }
        match opened(self.alloc, self.scripts.as_slice(), name.as_bytes()) {
            Some(source) => Ok(source),
            None => {
                self.faults = self.faults.saturating_add(1);
                Err(Failed)
            }
        }
    }

    fn faults(&self) -> u64 {
        self.faults
    }
}

fn is_same(a: &[u8], b: &[u8]) -> bool
    ensures { result ≡ pointwise (λ x y. x == y) a.now b.now }
{
    a == b
}

/// Where the disk of this name stands that was put last.
fn place(databases: &[Database], name: &[u8]) -> Option<usize>
    ensures { MatchOption result (disk_of databases.now name.now ≡ None) (λ i. (i < length databases.now) × ((d : Database) → disk_of databases.now name.now ≡ Some (slice_index_or databases.now i d).disk)) }
{
    for i in 0..databases.len() {
        if is_same(databases[i].name.as_slice(), name) {
            return Some(i);
        }
    }
    None
}

/// The disk that was put last under this name, which is put no more, or a new one.
fn taken(alloc: Global, databases: &mut Vec<Database>, name: &[u8]) -> MemDisk
    ensures { MatchOption (disk_of databases.old.items name.now) (IsNew result) (λ d. result ≡ d) }
{
    match place(databases.as_slice(), name) {
        Some(i) => {
            let Database { name: _name, disk } = databases.remove(i);
            disk
        }
        None => MemDisk::new(alloc),
    }
}

/// A source of the script of this name, if it was put and there is memory for it.
fn opened(alloc: Global, scripts: &[Script], name: &[u8]) -> Option<MemSource>
    ensures unread { IfSome result (λ s. (s.read ≡ 0) × (Some s.bytes.items ≡ bytes_of scripts.now name.now)) }
    ensures well { IfSome result (λ s. s.faults ≡ 0) }
{
    for script in scripts {
        if is_same(script.name.as_slice(), name) {
            return source_of(alloc, script).ok();
        }
    }
    None
}

/// A source of the script's bytes, none of them read.
fn source_of(alloc: Global, script: &Script) -> Result<MemSource, AllocError>
    ensures unread { IfOk result (λ s. (s.read ≡ 0) × (s.bytes.items ≡ script.now.bytes.items)) }
    ensures well { IfOk result (λ s. s.faults ≡ 0) }
{
    let mut failing = Failing::new(alloc);
    failing.list(script.failing_reads.as_slice())?;
    let bytes = Vec::from_slice(alloc, script.bytes.as_slice())?;
    Ok(MemSource::new(bytes, failing))
}

impl MemHost {
    /// A host without scripts that fails at no call.
    pub fn new(alloc: Global) -> MemHost
        ensures empty { (result.scripts.items ≡ []) × (result.databases.items ≡ []) }
        ensures well { (result.faults ≡ 0) × (result.failing.listed.items ≡ []) }
    {
        MemHost {
            alloc,
            databases: Vec::new(alloc),
            scripts: Vec::new(alloc),
            faults: 0,
            failing: Failing::new(alloc),
        }
    }

    /// Puts the script of a name, in place of one that stood under it.
    pub fn put_script(&mut self, name: &str, text: &[u8]) -> Result<(), AllocError>
        ensures ok { OnOk result ((n : List ℕ) → bytes_of self.new.scripts.items n ≡ (if pointwise (λ a b. a == b) name.now n then Some text.now else bytes_of self.old.scripts.items n)) }
        ensures err { OnErr result (self.new.scripts.items ≡ self.old.scripts.items) }
        ensures same { (self.new.faults ≡ self.old.faults) × (self.new.databases ≡ self.old.databases) }
    {
        let script = Script {
            name: Vec::from_slice(self.alloc, name.as_bytes())?,
            bytes: Vec::from_slice(self.alloc, text)?,
            failing_reads: Vec::new(self.alloc),
        };
        self.scripts.insert(0, script)?;
        Ok(())
    }

    /// Puts the disk of a name, in place of one that stood under it.
    pub fn put_disk(&mut self, name: &str, disk: MemDisk) -> Result<(), AllocError>
        ensures ok { OnOk result ((n : List ℕ) → disk_of self.new.databases.items n ≡ (if pointwise (λ a b. a == b) name.now n then Some disk else disk_of self.old.databases.items n)) }
        ensures err { OnErr result (self.new.databases.items ≡ self.old.databases.items) }
        ensures same { (self.new.faults ≡ self.old.faults) × (self.new.scripts ≡ self.old.scripts) }
    {
        let name = Vec::from_slice(self.alloc, name.as_bytes())?;
        self.databases.insert(0, Database { name, disk })?;
        Ok(())
    }

    /// The calls of `open` and `script` with these numbers, counted from 0, fail.
    pub fn fail_at(&mut self, calls: &[u64]) -> Result<(), AllocError>
        ensures ok { OnOk result (self.new.failing.listed.items ≡ self.old.failing.listed.items ++ calls.now) }
        ensures same { (self.new.faults ≡ self.old.faults) × (self.new.scripts ≡ self.old.scripts) × (self.new.databases ≡ self.old.databases) }
    {
        self.failing.list(calls)
    }

    /// The reads with these numbers, counted from 0, of the script of this name fail. It was put before.
    pub fn fail_reads(&mut self, name: &str, calls: &[u64]) -> Result<(), AllocError>
        ensures same { (self.new.faults ≡ self.old.faults) × (self.new.databases ≡ self.old.databases) }
    {
        for script in self.scripts.iter_mut() {
            if is_same(script.name.as_slice(), name.as_bytes()) {
                script.failing_reads.extend_from_slice(calls)?;
            }
        }
        Ok(())
    }
}
