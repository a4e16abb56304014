//! What gives bytes, in pieces.
ghost use Rattle.srx_edge.specs.Sources.{SourceSeen, Reads};
ghost use Rattle.srx_edge.specs.SourcesTerms.{Draws};

use std::alloc::Global;

/// A read that failed.
#[derive(Clone, Copy, Debug, PartialEq, Eq)]
pub struct Failed;

/// What gives bytes, in pieces.
pub trait Source {
    /// What is seen of it: the bytes that are left, where they are told, the faults, the ends that
    /// were found, and whether it is stopped.
    ghost seen: { Self → SourceSeen };

    /// Takes the first bytes of what is left, puts them at the front of the slice, and says how
    /// many they are. The rest of the slice stays. 0 is the end, unless the slice is empty: then
    /// nothing changes. A read that fails takes and gives nothing, and is one fault, after which
    /// the source is stopped until a read passes.
    fn read(&mut self, into: &mut [u8]) -> Result<usize, Failed>
        ensures { Reads into.old into.new result (seen self.old) (seen self.new) };
}

/// Why a source was not drawn to its end.
#[derive(Clone, Copy, Debug, PartialEq, Eq)]
pub enum DrawFault {
    /// A read failed.
    Failed,
    /// There are more than `limit` bytes.
    TooBig {
        /// The limit, in bytes.
        limit: usize,
    },
    /// Want of memory.
    NoMemory,
}

const PIECE: usize = 4096;

/// Takes all that is left, at most `limit` bytes, and finds the end once. TooBig comes exactly
/// where one byte more than `limit` was taken, and no more, Failed only where the source's count of
/// faults rose. No fault and no end is followed by another read: after Failed the source has one
/// fault more and is stopped. After a refusal the bytes that were taken stay taken.
pub fn draw<S: Source>(alloc: Global, source: &mut S, limit: usize) -> Result<Vec<u8>, DrawFault>
    ensures { Draws limit result (S.seen source.old) (S.seen source.new) }
{
    let mut bytes = Vec::new(alloc);
    let mut piece = [0; PIECE];
    'pieces: loop {
        let room = limit - bytes.len();
        // One byte more than there is room for shows that there is more than the limit.
        let most = if room < PIECE { room + 1 } else { PIECE };
        match source.read(&mut piece[..most]) {
            Ok(0) => return Ok(bytes),
            Ok(count) if count > room => return Err(DrawFault::TooBig { limit }),
            Ok(count) => {
                if bytes.extend_from_slice(&piece[..count]).is_err() {
                    return Err(DrawFault::NoMemory);
                }
            }
            Err(Failed) => return Err(DrawFault::Failed),
        }
    }
}
