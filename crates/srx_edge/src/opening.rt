//! What opens files by name, and all that is read of one.
ghost use Rattle.std.specs.Prelude.{List, ℕ, Option};
ghost use Rattle.srx_edge.specs.WholeReads.{Opened, ReadsWhole};

use crate::input::{DrawFault, Failed};
use std::alloc::Global;
use std::io::Read;

/// What opens files by name.
pub trait Opens {
    /// What is read of a file that was opened.
    type Reader: Read + Drop;

    /// The names of its files with their bytes, where they are told.
    ghost told: { Self → Option (List (List ℕ × List ℕ)) };

    /// The file of this name, of which all bytes are left. One that is told to be missing is
    /// refused; so is one that can't be opened.
    fn open(&self, name: &str) -> Result<Self::Reader, Failed>
        ensures { Opened name.now (told self.now) Self.Reader.remaining result };
}

const PIECE: usize = 4096;

/// Takes all that a reader has left, at most `limit` bytes. TooBig comes exactly where one byte
/// more than `limit` was taken, and no more. By its code alone, since a `Read` tells neither its
/// end nor its faults, nothing is read after the end or after a read that failed.
pub fn read_whole<R: Read>(
    alloc: Global,
    reader: &mut R,
    limit: usize,
) -> Result<Vec<u8>, DrawFault>
    ensures { ReadsWhole limit result (R.remaining reader.old) (R.remaining reader.new) }
{
    let mut bytes = Vec::new(alloc);
    let mut piece = [0; PIECE];
    'pieces: loop {
        let room = limit - bytes.len();
        // One byte more than there is room for shows that there is more than the limit.
        let most = if room < PIECE { room + 1 } else { PIECE };
        match reader.read(&mut piece[..most]) {
            Ok(0) => return Ok(bytes),
            Ok(count) if count > room => return Err(DrawFault::TooBig { limit }),
            Ok(count) => {
                if bytes.extend_from_slice(&piece[..count]).is_err() {
                    return Err(DrawFault::NoMemory);
                }
            }
            Err(_) => return Err(DrawFault::Failed),
        }
    }
}
