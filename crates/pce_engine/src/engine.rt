//! The engine: the networks that are held, and the files that it reads.

ghost use Rattle.std.specs.Prelude.{◌≡◌, [], Result, Err};
ghost use Rattle.text_faults.specs.TextReading.{Gives};
ghost use Rattle.text_faults.specs.declared.fault.OrNoMemory.TheVariants as reads;
ghost use Rattle.pce_protocol.specs.declared.request.Request.{Request as Wanted};
ghost use Rattle.pce_protocol.specs.declared.request.RequestFault.{RequestFault as Fault};
ghost use Rattle.pce_engine.specs.EngineReplies.{engine_rules};
ghost use Rattle.pce_engine.specs.EngineTerms.{pce_seen, state_of, AnswersOr, WantsOr};

use crate::doing::replied;
use crate::done::{Done, make};
use crate::networks::Networks;
use base::NoMemory;
use line_talk::{Engine, MAX_LINE};
use pce_protocol::{Id, ReadLine, ReplyError, read_request, write_reply};
use srx_edge::Files;
use std::alloc::Global;

/// The networks that are held, and the files that requests name.
#[derive(Drop)]
pub struct Pce<F> {
    networks: Networks,
    files: F,
}

impl<F: Files> Pce<F> {
    /// No network is held.
    pub fn new(alloc: Global, files: F) -> Pce<F>
        ensures { pce_seen F.seen result ≡ state_of [] (F.seen files) }
    {
        Pce {
            networks: Networks::new(alloc),
            files,
        }
    }

    /// The reply to a line that was read. What the line asks for is done once its reply is written,
    /// so that want of memory leaves all networks as they were.
    fn answer_read(&mut self, alloc: Global, read: &ReadLine) -> Result<Vec<u8>, NoMemory>
        ensures answers { (asked : Result Wanted Fault) → Gives (λ r. r) read.now.request asked
            → AnswersOr (pce_seen F.seen self.old) read.now.id asked result
            (pce_seen F.seen self.new) }
        ensures wanting { read.now.request ≡ Err reads.NoMemory
            → WantsOr (pce_seen F.seen self.old) read.now.id result (pce_seen F.seen self.new) }
    {
        let done = replied(alloc, &self.networks, &mut self.files, &read.request);
        let text = write_reply(alloc, &read.id, &done.reply)?;
        let Done { change, .. } = done;
        make(&mut self.networks, change)?;
        Ok(text)
    }
}

impl<F: Files> Engine for Pce<F> {
    ghost use Rattle.pce_engine.specs.EngineReplies.{PceState, engine_rules};
    ghost use Rattle.pce_engine.specs.EngineTerms.{pce_seen};

    ghost State = { PceState };

    ghost seen = { pce_seen F.seen };

    ghost rules = { engine_rules };

    fn answer(&mut self, alloc: Global, line: &[u8]) -> Result<Vec<u8>, NoMemory> {
        let read = read_request(alloc, line);
        match self.answer_read(alloc, &read) {
            Ok(text) => Ok(text),
            Err(NoMemory) => write_reply(alloc, &read.id, &Err(ReplyError::NoMemory)),
        }
    }

    fn too_big(&self, alloc: Global) -> Result<Vec<u8>, NoMemory> {
        write_reply(alloc, &Id::Null, &Err(ReplyError::TooBig(MAX_LINE)))
    }
}
