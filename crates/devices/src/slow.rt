//! Sources and sinks of one byte at a time.
ghost use Rattle.std.specs.Prelude.{◌≡◌, Some, []};

use std::alloc::{Allocator, Global};
use streams::{DeviceFault, Failures, Sink, Source};

/// Bytes in memory, given one at a time. It never fails.
#[derive(Drop)]
pub struct SlowSource<'a> {
    rest: &'a [u8],
}

impl<'a> SlowSource<'a> {
    /// All of the bytes are left.
    pub fn new(bytes: &'a [u8]) -> SlowSource<'a>
        ensures { ⟦<SlowSource<'a> as Source>⟧.left result ≡ Some bytes.entry.now }
    {
        SlowSource { rest: bytes }
    }
}

impl Source for SlowSource<'_> {
    ghost left = { λ s. Some s.rest.now };

    ghost failures = { λ _. 0 };

    fn read(&mut self, buf: &mut [u8]) -> Result<usize, DeviceFault> {
        if self.rest.is_empty() {
            return Ok(0);
        }
        let (front, back) = self.rest.split_at(1);
        buf[..1].copy_from_slice(front);
        self.rest = back;
        Ok(1)
    }
}

/// Takes bytes into memory, one at a time. It fails where no memory is found.
#[derive(Drop)]
pub struct SlowSink<A: Allocator = Global> {
    bytes: Vec<u8, A>,
    failed: Failures,
}

impl<A: Allocator> SlowSink<A> {
    /// Nothing was taken yet, and nothing failed.
    pub fn new(alloc: A) -> SlowSink<A>
        ensures taken { ⟦<SlowSink<A> as Sink>⟧.taken result ≡ Some [] }
        ensures failures { ⟦<SlowSink<A> as Sink>⟧.failures result ≡ 0 }
    {
        SlowSink {
            bytes: Vec::new(alloc),
            failed: Failures::new(),
        }
    }

    /// The bytes taken so far.
    pub fn bytes(&self) -> &[u8]
        ensures { ⟦<SlowSink<A> as Sink>⟧.taken self.now ≡ Some result.now }
    {
        &self.bytes
    }
}

impl<A: Allocator> Sink for SlowSink<A> {
    ghost taken = { λ s. Some s.bytes.items };

    ghost failures = { λ s. s.failed.count };

    fn write(&mut self, bytes: &[u8]) -> Result<usize, DeviceFault> {
        if self.bytes.push(bytes[0]).is_err() {
            self.failed.add();
            return Err(DeviceFault);
        }
        Ok(1)
    }
}
