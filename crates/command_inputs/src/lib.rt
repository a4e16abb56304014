//! What commands read: files and words that are judged, choices, schedules and events, and the
//! packets of the input.
//!
//! `specs/Judgements.antt` says what each file and word gives, or its refusal, `specs/ChoiceWords.antt`
//! which numbers the words of choices, of a schedule and of events give, and `specs/InputPackets.antt`
//! which packets an input has.
#![tactic(auto)]

mod choices;
pub mod figures;
mod file_judge;
mod frames;
mod input_bytes;
mod input_packets;
mod limits;
mod sources;

pub use choices::{Picks, choices_of_words, events_of, picks_of_words};
pub use file_judge::{
    BothIntents, cert_of_file, intent_of_file, intent_of_text, intents_of_file, network_of_file,
    network_of_text, node_of_name, trace_of_file,
};
pub use frames::{Found, Frames, Puts, put_frames};
pub use input_bytes::InputBytes;
pub use input_packets::{Packets, packets_of_input};
pub use limits::{MAX_CHOICES, MAX_SCHEDULE};
pub use sources::{BareFrames, CaptureFrames, NgFrames, PacketFrames};
