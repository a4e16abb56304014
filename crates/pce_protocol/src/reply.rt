//! Replies.

use crate::request::RequestFault;
use crate::text::Text;
use base::Seq;
use net_model::Name;
use v6_addr::{Addr, Prefix};

/// A network that came to be held.
#[derive(Debug, Drop)]
pub struct Held {
    /// How many links it has.
    pub links: usize,
    /// How many nodes it has.
    pub nodes: usize,
    /// How many routes it has.
    pub routes: usize,
    /// How many SIDs it has.
    pub sids: usize,
    /// Why it isn't flat; `None` where it is.
    pub not_flat: Option<Text>,
}

/// A SID of a list.
#[derive(Clone, Copy, Debug)]
pub struct PathSid {
    /// Its prefix.
    pub prefix: Prefix,
    /// Whether it stands in the container of the SID before it.
    pub stays: bool,
}

/// A compiled list.
#[derive(Debug, Drop)]
pub struct ListReply {
    /// How many containers of 16 bytes it has.
    pub containers: u32,
    /// How many bytes stand in front of the inner packet.
    pub header: u64,
    /// How often the outer hop limit is lowered on the way: the hop limit has to be above it.
    pub need: u32,
    /// Its SIDs, in the order in which they are executed.
    pub path: Seq<PathSid>,
    /// Its segments, in the order in which they are visited.
    pub segments: Seq<Addr>,
    /// How many SIDs it has.
    pub sids: usize,
}

/// What compiling an intent gives.
#[derive(Debug, Drop)]
pub enum Compiled {
    /// The chosen list.
    List(ListReply),
    /// No list realizes the intent.
    NoList,
    /// The chosen list has more containers than the intent allows.
    TooLong(ListReply),
    /// The chosen list needs a higher hop limit than the intent's.
    HopLimit(ListReply),
}

/// A list that realizes an intent.
#[derive(Clone, Copy, Debug, PartialEq, Eq)]
pub struct RealizedReply {
    /// How many containers of 16 bytes it has.
    pub containers: u32,
    /// Whether it is as good as the chosen list.
    pub least: bool,
    /// How often the outer hop limit is lowered on the way.
    pub need: u32,
    /// How many SIDs it has.
    pub sids: usize,
    /// Whether it keeps to the intent's most containers and its hop limit.
    pub within: bool,
}

/// Why a list doesn't realize an intent.
#[derive(Clone, Copy, Debug, PartialEq, Eq)]
pub enum Cause {
    /// The packet is dropped or delivered, or leaves the network elsewhere.
    Lost,
    /// It crosses a link, or executes a function, that isn't the next of the steps.
    Astray,
    /// The SID is executed at different nodes, or after different numbers of steps.
    Apart,
    /// The inner packet is handed over before the steps are done.
    Early,
    /// The steps are done and the SID wasn't executed.
    Unexecuted,
}

/// What judging a list gives.
#[derive(Clone, Copy, Debug, PartialEq, Eq)]
pub enum Judged {
    /// It realizes the intent.
    Realizes(RealizedReply),
    /// No legal list is spelled so.
    NotLegal,
    /// It doesn't realize the intent.
    No {
        /// Why.
        cause: Cause,
        /// The number of the first SID that isn't executed for all choices alike, counted from 1; 0
        /// where all are.
        sid: usize,
    },
}

/// What a request gives.
#[derive(Debug, Drop)]
pub enum Answer {
    /// The program and the version of the protocol.
    Version,
    /// A network is held.
    Held(Held),
    /// A network is held no longer.
    Dropped,
    /// An intent is compiled, with the certificate where it was asked for.
    Compiled(Compiled, Option<Text>),
    /// A list is judged.
    Judged(Judged),
    /// A packet is traced, with the text of the trace.
    Traced(Text),
}

/// Why a request gives nothing.
#[derive(Debug, Drop)]
pub enum ReplyError {
    /// The line asks for nothing that can be done.
    Request(RequestFault),
    /// A line, a text or the number of networks is above this limit.
    TooBig(usize),
    /// No network, link or node has this name.
    UnknownName(Name),
    /// A file can't be read.
    BadFile,
    /// A text is refused, with the line that says why.
    Refused(Text),
    /// The network isn't flat, with the line that says why.
    NotFlat(Text),
    /// Memory is wanting.
    NoMemory,
}

/// What a request gives, or why it gives nothing.
pub type Reply = Result<Answer, ReplyError>;
