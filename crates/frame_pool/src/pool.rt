//! The pool and the numbers of its frames.

ghost use Rattle.std.specs.Borrow.{sem};
ghost use Rattle.std.specs.Prelude.{◌≡◌, ◌↔◌, [], ◌∷◌, ◌++◌, length, IfOk, IfSome, IsNone};

use std::alloc::{AllocError, Global};
use std::marker::Model;

/// The number of a lent frame. It can't be copied.
#[derive(Debug, Drop)]
pub struct FrameNo {
    number: u32,
}

impl Model for FrameNo {
    ghost use Rattle.std.specs.Prelude.{ℕ};

    ghost Value = { ℕ };

    ghost view = { λ f. f.number };
}

/// Frames of 4,096 bytes in one region.
#[derive(Drop)]
pub struct Pool {
    frames: Vec<[u8; 4096]>,
    /// The numbers that are not lent are the first `count` of these.
    numbers: Vec<u32>,
    count: usize,
}

impl Model for Pool {
    ghost use Rattle.std.specs.Prelude.{◌≡◌, ◌≤◌, length, take};
    ghost use Rattle.frame_pool.specs.Frames.{Frames, AreFree};

    ghost Value = { Frames };

    ghost view = { λ p. record { contents = p.frames.items; free = take p.count p.numbers.items } };

    ghost invariant = { λ p. (length p.numbers.items ≡ length p.frames.items) × (p.count ≤ length p.numbers.items) × AreFree (length p.frames.items) (take p.count p.numbers.items) };
}

impl Pool {
    ghost use Rattle.frame_pool.specs.Frames.{Frames, AreFree, IsFrame, IsLent, content_of};
    ghost use Rattle.frame_pool.specs.Lending.{LendsFrame};

    /// A pool of n frames, none of them lent.
    pub fn new(alloc: Global, n: u32) -> Result<Pool, AllocError>
        ensures room { IfOk result (λ p. length p.contents ≡ n) }
        ensures ok { IfOk result (λ p. length p.free ≡ n) }
        ensures others { IfOk result (λ p. AreFree n p.free) }
    {
        let mut frames = Vec::with_capacity(alloc, n as usize)?;
        let mut numbers = Vec::with_capacity(alloc, n as usize)?;
        for number in 0..n {
            frames.push(blank())?;
            numbers.push(number)?;
        }
        Ok(Pool {
            frames,
            numbers,
            count: n as usize,
        })
    }

    /// Lends a frame; none exactly where all are lent.
    pub fn take(&mut self) -> Option<FrameNo>
        ensures none { IsNone result ↔ (self.old.free ≡ []) }
        ensures ok { IfSome result (λ f. self.old.free ≡ self.new.free ++ f ∷ []) }
        ensures held { IfSome result (λ f. IsLent self.new f) }
        ensures same { self.new.contents ≡ self.old.contents }
    {
        if self.count == 0 {
            return None;
        }
        self.count -= 1;
        let number = self.numbers[self.count];
        Some(FrameNo { number })
    }

    /// Takes a frame back.
    pub fn give(&mut self, f: FrameNo)
        requires { IsLent self.old f }
        ensures ok { self.new.free ≡ self.old.free ++ f ∷ [] }
        ensures same { self.new.contents ≡ self.old.contents }
    {
        let FrameNo { number } = f;
        self.numbers[self.count] = number;
        self.count += 1;
    }

    /// The bytes of a frame.
    pub fn bytes(&self, f: &FrameNo) -> &[u8; 4096]
        requires { IsFrame self.now f.now }
        ensures exact { result.now ≡ content_of self.now f.now }
    {
        &self.frames[f.number as usize]
    }

    /// The bytes of a frame, to be written. All other frames stay as they are.
    pub fn bytes_mut(&mut self, f: &FrameNo) -> &mut [u8; 4096]
        requires { IsFrame self.old f.now }
        ensures* others { sem 𝓛 (LendsFrame self.entry f.now result) }
        ensures exact { result.now ≡ content_of self.old f.now }
    {
        &mut self.frames[f.number as usize]
    }
}

/// The bytes of a frame that was never written.
fn blank() -> [u8; 4096] {
    [0; 4096]
}
