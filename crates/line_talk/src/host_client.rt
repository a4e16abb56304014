//! Streams of std as a client.
ghost use Rattle.std.specs.Prelude.{None};

use crate::client::Client;
use srx_edge::Failed;
use std::io::{Read, Write};

/// A reader and a writer of std as a client. It tells nothing. A writer that keeps bytes back isn't
/// flushed, so give it one that doesn't. An interrupted call is a fault, as any error of the system.
#[derive(Drop)]
pub struct HostClient<R, W> {
    reader: R,
    writer: W,
}

impl<R, W> HostClient<R, W> {
    /// A client that is heard by the reader and told by the writer.
    pub fn new(reader: R, writer: W) -> HostClient<R, W> {
        HostClient { reader, writer }
    }
}

impl<R: Read, W: Write> Client for HostClient<R, W> {
    ghost talk = { λ _. None };

    fn hear(&mut self, into: &mut [u8]) -> Result<usize, Failed> {
        self.reader.read(into).map_err(|_| Failed)
    }

    fn say(&mut self, piece: &[u8]) -> Result<usize, Failed> {
        match self.writer.write(piece) {
            Ok(count) if count > 0 => Ok(count),
            Ok(_) | Err(_) => Err(Failed),
        }
    }
}
