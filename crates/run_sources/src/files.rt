//! Files are opened by their names and read, one after the other.

ghost use Rattle.std.specs.Prelude.{◌≡◌, ◌<◌, ◌≤◌, ◌++◌, ◌∷◌, [], map, string_bytes, length, IfSome, vec_len, vec_capacity};
ghost use Rattle.run_sources.specs.Files.{IsFile, ReadsFile, ReadsFiles, ReadsNext, Opens, why_of, why_first, ReadsAs, why_read, Judges};
ghost use Rattle.run_sources.specs.Whole.{IsShort};

use crate::whole::{FileRead, read_whole};
use dby_types::seq::Seq;
use dby_types::value::Txt;
use device::Host;
use std::alloc::Global;

/// Why a file isn't read.
#[derive(Clone, Copy, Debug, PartialEq, Eq)]
pub enum ReadError {
    /// It couldn't be opened, or not be read to its end.
    Failed,
    /// It has more than 1,048,576 bytes.
    TooLong,
    /// It isn't UTF-8.
    NotText,
    /// Want of memory.
    Memory,
}

/// The first of several files that isn't read, counted from 0, and why.
#[derive(Clone, Copy, Debug, PartialEq, Eq)]
pub struct FileError {
    pub file: usize,
    pub why: ReadError,
}

/// Puts a source where there is room for it.
fn put_source<P: Drop>(sources: &mut Vec<P>, source: P)
    requires { vec_len sources.old < vec_capacity sources.old }
    ensures { sources.new.items ≡ sources.old.items ++ source ∷ [] }
{
    let _ = sources.push(source);
}

/// Opens a file and reads its bytes.
fn read_bytes<H: Host>(
    alloc: Global,
    host: &mut H,
    name: &str,
    sources: &mut Vec<H::Script>,
) -> FileRead
    ensures opens { Opens (why_read result) (H.seen host.old) (H.seen host.new) (map H.Script.seen sources.old.items) (map H.Script.seen sources.new.items) }
    ensures read { IfSome ((H.seen host.old).scripts name.now) (λ bytes. ReadsAs bytes result) }
    ensures short { IsShort result }
{
    if sources.reserve(1).is_err() {
        return FileRead::Memory;
    }
    match host.script(name) {
        Err(_failed) => FileRead::Failed,
        Ok(mut source) => {
            let read = read_whole(alloc, &mut source);
            put_source(sources, source);
            read
        }
    }
}

/// The text that was read.
fn text_of(read: FileRead) -> Result<Txt, ReadError>
    requires { IsShort read }
    ensures { Judges read result }
{
    match read {
        FileRead::Failed => Err(ReadError::Failed),
        FileRead::TooLong => Err(ReadError::TooLong),
        FileRead::Memory => Err(ReadError::Memory),
        FileRead::Whole(bytes) => {
            if str::from_utf8(bytes.as_slice()).is_err() {
                return Err(ReadError::NotText);
            }
            Ok(Seq::from_vec(bytes))
        }
    }
}

/// Opens a file and reads its text. A source that was opened stands at the end of the list.
pub fn read_file<H: Host>(
    alloc: Global,
    host: &mut H,
    name: &str,
    sources: &mut Vec<H::Script>,
) -> Result<Txt, ReadError>
    // The text is that of the file, or shows why it isn't read.
    ensures reads { ReadsFile ((H.seen host.old).scripts name.now) result }
    // It can't be read only where the host or the file's source failed.
    ensures cause { Opens (why_of result) (H.seen host.old) (H.seen host.new) (map H.Script.seen sources.old.items) (map H.Script.seen sources.new.items) }
{
    text_of(read_bytes(alloc, host, name, sources))
}

/// Reads one text more.
fn read_next<H: Host>(
    alloc: Global,
    host: &mut H,
    name: &str,
    sources: &mut Vec<H::Script>,
    texts: &mut Vec<Txt>,
) -> Result<(), ReadError>
    ensures reads { ReadsNext ((H.seen host.old).scripts name.now) texts.old.items texts.new.items result }
    ensures cause { Opens (why_of result) (H.seen host.old) (H.seen host.new) (map H.Script.seen sources.old.items) (map H.Script.seen sources.new.items) }
{
    if texts.reserve(1).is_err() {
        return Err(ReadError::Memory);
    }
    match read_file(alloc, host, name, sources) {
        Err(why) => Err(why),
        Ok(text) => {
            let _ = texts.push(text);
            Ok(())
        }
    }
}

/// Reads the texts of files, in order, up to the first that isn't read. The sources that were opened stand at the end of the list.
pub fn read_files<H: Host>(
    alloc: Global,
    host: &mut H,
    names: &[String],
    sources: &mut Vec<H::Script>,
) -> Result<Seq<Txt>, FileError>
    // The texts are those of the files; or the first that isn't read shows why, and those before it are files' texts.
    ensures reads { ReadsFiles (H.seen host.old).scripts (map string_bytes names.now) result }
    // It can't be read only where the host or its source failed.
    ensures cause { Opens (why_first result) (H.seen host.old) (H.seen host.new) (map H.Script.seen sources.old.items) (map H.Script.seen sources.new.items) }
{
    let mut texts = Vec::new(alloc);
    for (file, name) in names.iter().enumerate() {
        if let Err(why) = read_next(alloc, host, name.as_str(), sources, &mut texts) {
            return Err(FileError { file, why });
        }
    }
    Ok(Seq::from_vec(texts))
}
