//! Standard output as the place where frames go.
ghost use Rattle.std.specs.Prelude.{◌≡◌};
ghost use Rattle.house_next.specs.Written.{Anything};

use outbox::Output;
use std::alloc::Global;
use std::io;
use std::io::{BufWriter, Write};

/// Frames through a buffer. Once something can't be written it stays broken, and the program ends.
#[derive(Drop)]
pub struct FrameWriter<W: Write + Drop> {
    writer: BufWriter<W>,
    // A flag: `Output` has no error to answer, and the program ends in the same way whatever it was.
    broken: bool,
}

impl<W: Write + Drop> FrameWriter<W> {
    pub fn new(alloc: Global, writer: W) -> io::Result<FrameWriter<W>> {
        Ok(FrameWriter {
            writer: BufWriter::new(alloc, writer)?,
            broken: false,
        })
    }

    /// Whether something could not be written.
    pub fn is_broken(&self) -> bool
        ensures { result ≡ self.now.broken }
    {
        self.broken
    }
}

impl<W: Write + Drop> Output for FrameWriter<W> {
    ghost writes = { Anything };

    fn write(&mut self, bytes: &[u8]) {
        if self.writer.write_all(bytes).is_err() {
            self.broken = true;
        }
    }

    fn flush(&mut self) {
        if self.writer.flush().is_err() {
            self.broken = true;
        }
    }
}
