//! The bytes that were fed to a reader and not given.

ghost use Rattle.std.specs.Prelude.{◌≡◌, ◌≤◌, ◌++◌, [], length, drop, OnOk, OnErr};

use mx_word::NoMemory;
use std::alloc::Global;
use std::marker::Model;

/// Bytes that come at the end and go at the front, which contracts see as the list of those that
/// are there.
#[derive(Drop)]
pub struct Input {
    /// The bytes before `start` are gone.
    buffer: Vec<u8>,
    start: usize,
}

impl Model for Input {
    ghost use Rattle.std.specs.Prelude.{List, ℕ, ◌≤◌, length, drop};

    ghost Value = { List ℕ };

    ghost view = { λ i. drop i.start i.buffer.items };

    ghost invariant = { λ i. i.start ≤ length i.buffer.items };
}

/// Takes away the bytes before a place.
fn drop_front(bytes: &mut Vec<u8>, count: usize)
    requires { count ≤ length bytes.old.items }
    ensures { bytes.new.items ≡ drop count bytes.old.items }
{
    bytes.copy_within(count.., 0);
    bytes.truncate(bytes.len() - count);
}

impl Input {
    /// No bytes. It takes no memory.
    pub fn new(alloc: Global) -> Input
        ensures { result ≡ [] }
    {
        Input {
            buffer: Vec::new(alloc),
            start: 0,
        }
    }

    /// The bytes.
    #[inline(always)]
    pub fn bytes(&self) -> &[u8]
        ensures { result.now ≡ self.now }
    {
        &self.buffer[self.start..]
    }

    /// How many bytes there are.
    pub fn len(&self) -> usize
        ensures { result ≡ length self.now }
    {
        self.buffer.len() - self.start
    }

    /// Adds a piece at the end. Nothing changes where there is no memory.
    pub fn add(&mut self, piece: &[u8]) -> Result<(), NoMemory>
        ensures ok { OnOk result (self.new ≡ self.old ++ piece.now) }
        ensures err { OnErr result (self.new ≡ self.old) }
    {
        self.make_room();
        self.hold(piece)
    }

    /// Takes bytes away from the front.
    #[inline(always)]
    pub fn advance(&mut self, size: usize)
        requires { size ≤ length self.old }
        ensures { self.new ≡ drop size self.old }
    {
        self.start += size;
    }

    /// Holds a piece more.
    fn hold(&mut self, piece: &[u8]) -> Result<(), NoMemory>
        ensures ok { OnOk result (self.new ≡ self.old ++ piece.now) }
        ensures err { OnErr result (self.new ≡ self.old) }
    {
        self.buffer.extend_from_slice(piece)?;
        Ok(())
    }

    /// Lets go of the bytes that are gone, once they are half of what is held, so that all moves
    /// together cost no more than the input.
    fn make_room(&mut self)
        ensures { self.new ≡ self.old }
    {
        if self.start >= self.buffer.len() - self.start {
            drop_front(&mut self.buffer, self.start);
            self.start = 0;
        }
    }
}
