//! The segments of the log as they read now.

ghost use Rattle.std.specs.Prelude.{◌≡◌, ◌≤◌, ◌<◌, ◌+◌, ℕ, List, [], ◌++◌, ◌-◌, take, drop, replicate, true, false, nat_eq, length, IsSome, ◌^◌, if◌then◌else◌, ◌==◌};
ghost use Rattle.std.specs.HashMap.{get};
ghost use Rattle.device.specs.Disk.{GivesLog, written_at};
ghost use Rattle.device_mem.specs.Segments.{bytes_in};

use std::alloc::Global;
use std::collections::HashMap;

/// Copies bytes from a place to the front of the buffer, and answers how many.
pub fn copy_from(bytes: &[u8], at: usize, into: &mut [u8]) -> usize
    ensures within { result ≤ length into.old }
    ensures gives { GivesLog bytes.now at into.old into.new result }
{
    if at >= bytes.len() {
        return 0;
    }
    let n = into.len().min(bytes.len() - at);
    into[..n].copy_from_slice(&bytes[at..at + n]);
    n
}

/// Lengthens the bytes by bytes 0. Where there is no memory they are as before.
fn grow(bytes: &mut Vec<u8>, end: usize) -> bool
    ensures yes { result ≡ true → bytes.new.items ≡ bytes.old.items ++ replicate (end - length bytes.old.items) 0 }
    ensures otherwise { result ≡ false → bytes.new.items ≡ bytes.old.items }
{
    bytes.len() >= end || bytes.resize(end, 0).is_ok()
}

/// Writes bytes over others.
fn paste(bytes: &mut [u8], at: usize, from: &[u8])
    requires { at + length from.now ≤ length bytes.old }
    ensures { bytes.new ≡ take at bytes.old ++ (from.now ++ drop (at + length from.now) bytes.old) }
{
    bytes[at..at + from.len()].copy_from_slice(from);
}

/// Writes bytes at a place, with bytes 0 where there are none so far. Where there is no memory all is as before.
fn overwrite(bytes: &mut Vec<u8>, at: usize, from: &[u8]) -> bool
    requires { at + length from.now < 2 ^ 63 }
    ensures yes { result ≡ true → bytes.new.items ≡ written_at bytes.old.items at from.now }
    ensures otherwise { result ≡ false → bytes.new.items ≡ bytes.old.items }
{
    if !grow(bytes, at + from.len()) {
        return false;
    }
    paste(bytes.as_mut_slice(), at, from);
    true
}

/// Makes the segment, without bytes where there was none. Where there is no memory all is as before.
pub fn make(alloc: Global, segments: &mut HashMap<u32, Vec<u8>>, seg: u32) -> bool
    ensures same { (s : ℕ) → bytes_in segments.new s ≡ bytes_in segments.old s }
    ensures there { result ≡ true → IsSome (get nat_eq segments.new seg) }
{
    segments.contains_key(&seg) || segments.insert(seg, Vec::new(alloc)).is_ok()
}

/// Writes bytes into a segment that is there. Where there is no memory all is as before.
pub fn write(segments: &mut HashMap<u32, Vec<u8>>, seg: u32, at: usize, from: &[u8]) -> bool
    requires small { at + length from.now < 2 ^ 63 }
    ensures yes { result ≡ true → (s : ℕ) → bytes_in segments.new s ≡ (if seg == s then written_at (bytes_in segments.old s) at from.now else bytes_in segments.old s) }
    ensures otherwise { result ≡ false → (s : ℕ) → bytes_in segments.new s ≡ bytes_in segments.old s }
{
    match segments.get_mut(&seg) {
        Some(bytes) => overwrite(bytes, at, from),
        None => false,
    }
}

/// Takes a segment away.
pub fn clear(segments: &mut HashMap<u32, Vec<u8>>, seg: u32)
    ensures { (s : ℕ) → bytes_in segments.new s ≡ (if seg == s then [] else bytes_in segments.old s) }
{
    segments.remove(&seg);
}
