//! The source and the sink over a reader and a writer of the runtime.
ghost use Rattle.std.specs.Prelude.{◌≡◌};

use crate::streams::{Sink, Source};
use dk_fault::{Failed, next_count};
use std::io::{ErrorKind, Read, Write};

/// A reader or a writer, as that of standard input or output, and how often it failed. A call that a signal broke off
/// is made again. What is left and what was taken is what the reader and the writer tell, and the runtime's tell
/// nothing.
#[derive(Debug, Drop)]
pub struct StdStream<T> {
    stream: T,
    faults: u64,
}

impl<R: Read> StdStream<R> {
    /// A source over a reader that has met no fault.
    pub fn source(stream: R) -> StdStream<R>
        ensures left { ⟦<StdStream<R> as Source>⟧.left result ≡ R.remaining stream }
        ensures faults { ⟦<StdStream<R> as Source>⟧.faults result ≡ 0 }
    {
        StdStream { stream, faults: 0 }
    }
}

impl<W: Write> StdStream<W> {
    /// A sink over a writer that has met no fault.
    pub fn sink(stream: W) -> StdStream<W>
        ensures taken { ⟦<StdStream<W> as Sink>⟧.taken result ≡ W.contents stream }
        ensures faults { ⟦<StdStream<W> as Sink>⟧.faults result ≡ 0 }
    {
        StdStream { stream, faults: 0 }
    }
}

impl<R: Read> Source for StdStream<R> {
    ghost left = { λ s. R.remaining s.stream };

    ghost faults = { λ s. s.faults };

    fn read(&mut self, buf: &mut [u8]) -> Result<usize, Failed> {
        'tries: for _ in 0..u64::MAX {
            match self.stream.read(buf) {
                Ok(count) => return Ok(count),
                Err(e) if e.kind() == ErrorKind::Interrupted => {}
                Err(_) => break 'tries,
            }
        }
        self.faults = next_count(self.faults);
        Err(Failed)
    }
}

impl<W: Write> Sink for StdStream<W> {
    ghost taken = { λ s. W.contents s.stream };

    ghost faults = { λ s. s.faults };

    // A write that takes nothing is a fault.
    fn write(&mut self, bytes: &[u8]) -> Result<usize, Failed> {
        'tries: for _ in 0..u64::MAX {
            match self.stream.write(bytes) {
                Ok(0) => break 'tries,
                Ok(count) => return Ok(count),
                Err(e) if e.kind() == ErrorKind::Interrupted => {}
                Err(_) => break 'tries,
            }
        }
        self.faults = next_count(self.faults);
        Err(Failed)
    }
}
