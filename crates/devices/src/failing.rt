//! Sources and sinks that fail at one call.
ghost use Rattle.std.specs.Prelude.{◌≡◌, ◌+◌, ◌-◌, ◌↔◌, IsTrue};

use streams::{DeviceFault, Failures, Sink, Source};

/// Counts a call, and answers whether it is the one to fail.
fn is_due(until: &mut u64) -> bool
    ensures due { IsTrue result ↔ (until.old ≡ 1) }
    ensures nearer { until.new ≡ until.old - 1 }
{
    let is_due = *until == 1;
    *until = until.saturating_sub(1);
    is_due
}

/// A source that fails at one read, and else is the one within.
#[derive(Drop)]
pub struct FailingSource<S> {
    within: S,
    until: u64,
    failed: Failures,
}

impl<S: Source> FailingSource<S> {
    /// It fails at its nth read, and at none where n is 0.
    pub fn new(within: S, n: u64) -> FailingSource<S>
        ensures left { ⟦<FailingSource<S> as Source>⟧.left result ≡ S.left within }
        ensures failures { ⟦<FailingSource<S> as Source>⟧.failures result ≡ S.failures within }
    {
        FailingSource {
            within,
            until: n,
            failed: Failures::new(),
        }
    }
}

impl<S: Source> Source for FailingSource<S> {
    ghost left = { λ s. S.left s.within };

    ghost failures = { λ s. S.failures s.within + s.failed.count };

    fn read(&mut self, buf: &mut [u8]) -> Result<usize, DeviceFault> {
        if is_due(&mut self.until) {
            self.failed.add();
            return Err(DeviceFault);
        }
        self.within.read(buf)
    }
}

/// A sink that fails at one write, and else is the one within.
#[derive(Drop)]
pub struct FailingSink<W> {
    within: W,
    until: u64,
    failed: Failures,
}

impl<W: Sink> FailingSink<W> {
    /// It fails at its nth write, and at none where n is 0.
    pub fn new(within: W, n: u64) -> FailingSink<W>
        ensures taken { ⟦<FailingSink<W> as Sink>⟧.taken result ≡ W.taken within }
        ensures failures { ⟦<FailingSink<W> as Sink>⟧.failures result ≡ W.failures within }
    {
        FailingSink {
            within,
            until: n,
            failed: Failures::new(),
        }
    }

    /// The sink within.
    pub fn within(&self) -> &W
        ensures { ⟦<FailingSink<W> as Sink>⟧.taken self.now ≡ W.taken result.now }
    {
        &self.within
    }
}

impl<W: Sink> Sink for FailingSink<W> {
    ghost taken = { λ s. W.taken s.within };

    ghost failures = { λ s. W.failures s.within + s.failed.count };

    fn write(&mut self, bytes: &[u8]) -> Result<usize, DeviceFault> {
        if is_due(&mut self.until) {
            self.failed.add();
            return Err(DeviceFault);
        }
        self.within.write(bytes)
    }
}
