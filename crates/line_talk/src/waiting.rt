//! The replies that wait to be said.
ghost use Rattle.std.specs.Prelude.{◌≡◌, ◌++◌, [], OnOk, OnErr, Err};
ghost use Rattle.line_talk.specs.declared.stop.Stop.TheVariants as stops;
ghost use Rattle.line_talk.specs.TalkTerms.{SaysAll, SaysOn};

use crate::buffer::{MAX_ROOM, empty};
use crate::client::Client;
use crate::stop::Stop;
use srx_edge::Failed;
use std::alloc::Global;
use std::marker::Model;

/// The bytes that wait to be said.
#[derive(Drop)]
pub(crate) struct Waiting {
    bytes: Vec<u8>,
}

impl Model for Waiting {
    ghost use Rattle.std.specs.Prelude.{ℕ, List};

    ghost Value = { List ℕ };

    ghost view = { λ w. w.bytes.items };
}

/// Gives the client all the bytes.
fn say_all<C: Client>(client: &mut C, bytes: &[u8]) -> Result<(), Failed>
    ensures { SaysAll bytes.now result (C.talk client.old) (C.talk client.new) }
{
    let mut said = 0;
    while said < bytes.len() {
        match client.say(bytes.split_at(said).1) {
            Ok(count) => said += count,
            Err(Failed) => return Err(Failed),
        }
    }
    Ok(())
}

impl Waiting {
    /// Nothing waits.
    pub(crate) fn new(alloc: Global) -> Waiting
        ensures { result ≡ [] }
    {
        Waiting {
            bytes: Vec::new(alloc),
        }
    }

    /// Says all that waits.
    pub(crate) fn pour<C: Client>(&mut self, client: &mut C) -> Result<(), Stop>
        ensures says { SaysOn [] result self.old self.new (C.talk client.old) (C.talk client.new) }
        ensures all { OnOk result (self.new ≡ []) }
    {
        match say_all(client, self.bytes.as_slice()) {
            Ok(()) => {
                empty(&mut self.bytes);
                Ok(())
            }
            Err(Failed) => Err(Stop::WriteFailed),
        }
    }

    /// Lets bytes wait behind the others.
    fn push(&mut self, bytes: &[u8]) -> Result<(), Stop>
        ensures waits { OnOk result (self.new ≡ self.old ++ bytes.now) }
        ensures memory { OnErr result (result ≡ Err stops.NoMemory) }
    {
        match self.bytes.extend_from_slice(bytes) {
            Ok(()) => Ok(()),
            Err(_) => Err(Stop::NoMemory),
        }
    }

    /// Gives bytes where nothing waits: more than `MAX_ROOM` of them are said at once.
    fn give_alone<C: Client>(&mut self, bytes: &[u8], client: &mut C) -> Result<(), Stop>
        requires { self.old ≡ [] }
        ensures { SaysOn bytes.now result self.old self.new
            (C.talk client.old) (C.talk client.new) }
    {
        if bytes.len() <= MAX_ROOM {
            return self.push(bytes);
        }
        match say_all(client, bytes) {
            Ok(()) => Ok(()),
            Err(Failed) => Err(Stop::WriteFailed),
        }
    }

    /// Lets bytes wait behind the others. Where there would be more than `MAX_ROOM`, the others are
    /// said first.
    pub(crate) fn give<C: Client>(&mut self, bytes: &[u8], client: &mut C) -> Result<(), Stop>
        ensures { SaysOn bytes.now result self.old self.new
            (C.talk client.old) (C.talk client.new) }
    {
        if bytes.len() <= MAX_ROOM.saturating_sub(self.bytes.len()) {
            return self.push(bytes);
        }
        self.pour(client)?;
        self.give_alone(bytes, client)
    }
}
