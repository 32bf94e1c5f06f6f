//! Real files and standard output. What they contain is not told.

ghost use Rattle.std.specs.Prelude.{◌≡◌, ◌+◌, ◌<◌, ◌≤◌, ℕ, List, None};

use device::{Failed, Host, Sink, Source};
use std::fs::{self, File};
use std::io::{self, Read, Write};
use std::rt::Files;

#[derive(Drop)]
pub struct FileSource<F> {
    file: F,
    faults: u64,
}

impl<F: Read + Drop> Source for FileSource<F> {
    ghost use Rattle.std.specs.Prelude.{None};
    ghost use Rattle.device.specs.Streams.{SourceSeen};

    ghost seen = { λ s. record { content = None; faults = s.faults } };

    fn read(&mut self, into: &mut [u8]) -> Result<usize, Failed> {
        match self.file.read(into) {
            Ok(n) => Ok(n),
            Err(_error) => {
                self.faults = self.faults.saturating_add(1);
                Err(Failed)
            }
        }
    }

    fn faults(&self) -> u64 {
        self.faults
    }
}

#[derive(Drop)]
pub struct StreamSink<W> {
    stream: W,
    faults: u64,
    nones: u64,
}

impl<W: Write + Drop> Sink for StreamSink<W> {
    ghost use Rattle.std.specs.Prelude.{None};
    ghost use Rattle.device.specs.Streams.{SinkSeen};

    ghost seen = { λ s. record { taken = None; faults = s.faults; nones = s.nones } };

    fn write(&mut self, from: &[u8]) -> Result<usize, Failed> {
        match self.stream.write(from) {
            Ok(n) => {
                if n == 0 && !from.is_empty() {
                    self.nones = self.nones.saturating_add(1);
                }
                Ok(n)
            }
            Err(_error) => {
                self.faults = self.faults.saturating_add(1);
                Err(Failed)
            }
        }
    }

    fn faults(&self) -> u64 {
        self.faults
    }
}

/// The real host: files by their paths. It opens no disk yet.
#[derive(Drop)]
pub struct FileHost<'a, R> {
    rt: &'a R,
    faults: u64,
}

/// No disk.
#[derive(Drop)]
pub struct NoDisk;

impl<R: Files> Host for FileHost<'_, R> {
    type Disk = NoDisk;

    type Script = FileSource<R::File>;

    ghost use Rattle.std.specs.Prelude.{None};
    ghost use Rattle.device.specs.Streams.{HostSeen};

    ghost seen = { λ h. record { scripts = λ name. None; faults = h.faults } };

    fn open(&mut self, _name: &str) -> Result<NoDisk, Failed> {
        Ok(NoDisk)
    }

    fn script(&mut self, name: &str) -> Result<FileSource<R::File>, Failed> {
        match fs::open(self.rt, name) {
            Ok(file) => Ok(FileSource { file, faults: 0 }),
            Err(_error) => {
                self.faults = self.faults.saturating_add(1);
                Err(Failed)
            }
        }
    }

    fn faults(&self) -> u64 {
        self.faults
    }
}

impl<'a, R> FileHost<'a, R> {
    pub fn new(rt: &'a R) -> FileHost<'a, R> {
        FileHost { rt, faults: 0 }
    }
}

impl<W> StreamSink<W> {
    pub fn new(stream: W) -> StreamSink<W> {
        StreamSink {
            stream,
            faults: 0,
            nones: 0,
        }
    }
}
