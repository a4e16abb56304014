//! A program that answers lines, from the first read to the last write.
ghost use Rattle.std.specs.Prelude.{◌≡◌, ◌<◌, length, Some};
ghost use Rattle.line_talk.specs.Talk.{Talk, begun};
ghost use Rattle.line_talk.specs.Talked.{Talked, exit_number};
ghost use Rattle.line_talk.specs.TalkTerms.{status_by};

use crate::client::Client;
use crate::desk::{Desk, Turn};
use crate::engine::Engine;
use crate::stop::Stop;
use std::alloc::Global;

/// The most bytes that are taken by one read: 64 KiB.
pub const PIECE: usize = 65_536;

/// How a talk ended.
#[derive(Clone, Copy, Debug, PartialEq, Eq)]
pub enum Status {
    /// All lines are answered, and the client is at its end.
    Done,
    /// A read failed; all lines that were heard whole are answered.
    ReadFailed,
    /// A write failed.
    WriteFailed,
    /// Want of memory, even for a reply.
    NoMemory,
    /// 2^64 - 1 bytes or more have come, and no end.
    Endless,
}

impl Status {
    /// The exit status of a program that ends so: 0 for Done, 5 where the outside failed, 6 for
    /// want of memory.
    pub fn exit_number(self) -> u8
        ensures { result ≡ exit_number self }
    {
        match self {
            Status::Done => 0,
            Status::ReadFailed | Status::WriteFailed | Status::Endless => 5,
            Status::NoMemory => 6,
        }
    }
}

/// The status of a talk that stopped.
fn status_of(stop: Stop) -> Status
    ensures { result ≡ status_by stop }
{
    match stop {
        Stop::WriteFailed => Status::WriteFailed,
        Stop::NoMemory => Status::NoMemory,
    }
}

/// Answers each line of the client, in order, before more is asked for, until the client ends. Bytes
/// come by way of this room.
fn serve_by<E: Engine, C: Client>(
    alloc: Global,
    engine: &mut E,
    room: &mut [u8],
    client: &mut C,
) -> Status
    requires { 0 < length room.old }
    ensures { C.talk client.old ≡ Some begun
        → (talk : Talk) × (C.talk client.new ≡ Some talk)
        × Talked E.rules (E.seen engine.old) result talk (E.seen engine.new) }
{
    let mut desk = Desk::new(alloc);
    for _ in 0..u64::MAX {
        match desk.take_turn(alloc, engine, room, client) {
            Turn::More => {}
            Turn::End => match desk.finish(alloc, engine, client) {
                Ok(()) => return Status::Done,
                Err(stop) => return status_of(stop),
            },
            Turn::ReadFailed => return Status::ReadFailed,
            Turn::Stopped(stop) => return status_of(stop),
        }
    }
    Status::Endless
}

/// Answers each line of the client, in order, before more is asked for, until the client ends.
pub fn serve_client<E: Engine, C: Client>(alloc: Global, engine: &mut E, client: &mut C) -> Status
    ensures { C.talk client.old ≡ Some begun
        → (talk : Talk) × (C.talk client.new ≡ Some talk)
        × Talked E.rules (E.seen engine.old) result talk (E.seen engine.new) }
{
    let Ok(mut room) = Vec::from_elem(alloc, 0, PIECE) else {
        return Status::NoMemory;
    };
    serve_by(alloc, engine, room.as_mut_slice(), client)
}
