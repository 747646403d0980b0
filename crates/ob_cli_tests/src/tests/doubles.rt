//! A reader or a writer that passes on one byte a call, and fails.

use std::io::{self, Error, ErrorKind, Read, Write};

/// A reader or a writer in front of another, of which some calls fail.
#[derive(Drop)]
pub struct Failing<T> {
    pub inner: T,
    /// How many calls come before the first that fails.
    pub calls: u32,
    /// How many calls fail, one after the other.
    pub failures: u32,
    pub failure: ErrorKind,
}

impl<T> Failing<T> {
    /// After *n* calls the pipe is broken for one call.
    pub fn new(inner: T, calls: u32) -> Failing<T> {
        Failing {
            inner,
            calls,
            failures: 1,
            failure: ErrorKind::BrokenPipe,
        }
    }

    fn call(&mut self) -> io::Result<()> {
        if self.calls > 0 {
            self.calls -= 1;
            Ok(())
        } else if self.failures > 0 {
            self.failures -= 1;
            Err(Error::from(self.failure))
        } else {
            Ok(())
        }
    }
}

impl<T: Read> Read for Failing<T> {
    fn read(&mut self, buf: &mut [u8]) -> io::Result<usize> {
        self.call()?;
        let count = buf.len().min(1);
        self.inner.read(&mut buf[..count])
    }
}

impl<T: Write> Write for Failing<T> {
    fn write(&mut self, buf: &[u8]) -> io::Result<usize> {
        self.call()?;
        let count = buf.len().min(1);
        self.inner.write(&buf[..count])
    }

    fn flush(&mut self) -> io::Result<()> {
        self.call()?;
        self.inner.flush()
    }
}
