//! What takes bytes, in pieces.
ghost use Rattle.srx_edge.specs.Sinks.{SinkSeen, Writes};
ghost use Rattle.srx_edge.specs.SinksTerms.{Pours};

/// Why a piece was not written.
#[derive(Clone, Copy, Debug, PartialEq, Eq)]
pub enum SinkFault {
    /// The write failed.
    Failed,
    /// Want of memory.
    NoMemory,
}

/// What takes bytes, in pieces.
pub trait Sink {
    /// What is seen of it: the bytes that it holds, where they are told, the faults, the wants of
    /// memory, and whether it is stopped.
    ghost seen: { Self → SinkSeen };

    /// Appends the first bytes of the piece, and says how many they are. An empty piece changes
    /// nothing. A write of another one that takes no byte counts as a fault, as Failed does: one
    /// fault, after which the sink is stopped until a write takes a byte. NoMemory is one want, and
    /// stops the sink too. Both refusals append nothing.
    fn write(&mut self, piece: &[u8]) -> Result<usize, SinkFault>
        ensures { Writes piece.now result (seen self.old) (seen self.new) };
}

/// Why not all bytes went out, and how many did, counted from the first.
#[derive(Clone, Copy, Debug, PartialEq, Eq)]
pub enum PourFault {
    /// A write failed, or took no byte.
    Failed {
        /// How many bytes went out.
        written: usize,
    },
    /// Want of memory in the sink.
    NoMemory {
        /// How many bytes went out.
        written: usize,
    },
}

/// Writes all the bytes. After a fault exactly the first `written` of them went out, which are not
/// all; Failed comes only where the sink's count of faults rose, NoMemory only where its count of
/// wants did. Neither is followed by another write: the sink has one fault or one want more, and is
/// stopped.
pub fn pour<O: Sink>(sink: &mut O, bytes: &[u8]) -> Result<(), PourFault>
    ensures { Pours bytes.now result (O.seen sink.old) (O.seen sink.new) }
{
    let mut written = 0;
    while written < bytes.len() {
        match sink.write(bytes.split_at(written).1) {
            Ok(0) => return Err(PourFault::Failed { written }),
            Ok(count) => written += count,
            Err(SinkFault::Failed) => return Err(PourFault::Failed { written }),
            Err(SinkFault::NoMemory) => return Err(PourFault::NoMemory { written }),
        }
    }
    Ok(())
}
