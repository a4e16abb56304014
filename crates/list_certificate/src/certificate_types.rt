//! Certificates as they are read, their forms, and verdicts.

ghost use Rattle.std.specs.Prelude.{◌≡◌};
ghost use Rattle.list_certificate.specs.Spelling.{form_of};

use base::{NoMemory, Seq};
use list_pack::{PathStep, Potential, State};

/// A line with the potential of a state.
#[derive(Clone, Copy, Debug, PartialEq, Eq)]
pub struct PotentialLine {
    /// The state and its potential.
    pub potential: Potential,
    /// The line's number, counted from 1.
    pub line: u32,
}

/// A line with a step of the path.
#[derive(Clone, Copy, Debug, PartialEq, Eq)]
pub struct PathLine {
    /// The step: a SID by its prefix, in the container of the SID before it or in a new one.
    pub step: PathStep,
    /// The line's number, counted from 1.
    pub line: u32,
}

/// A certificate: potentials of states, and a path from the start to the end or the word that there
/// is none. Lines count from 1.
#[derive(Debug, Drop)]
pub struct Cert {
    /// The line of the head.
    pub head: u32,
    /// The potentials, in the order of their lines.
    pub potentials: Seq<PotentialLine>,
    /// The steps of the path, in the order of their lines; empty where there is no path.
    pub path: Seq<PathLine>,
    /// The line that says that there is no path, where there is one.
    pub none: Option<u32>,
    /// The line of the end.
    pub end: u32,
}

/// What is wrong at a line of a certificate.
#[derive(Clone, Copy, Debug, PartialEq, Eq)]
pub enum Why {
    /// Along an edge from the line's state to a listed one or to the end the potential falls by
    /// more than the edge costs.
    Edge,
    /// An edge leads from this state, which is not listed, to a listed one or to the end.
    Unlisted {
        /// The state.
        state: State,
    },
    /// The path goes along no edge here, or there is none though the start is listed.
    Path,
    /// What the path costs is not the start's potential.
    Tight,
}

/// What a certificate shows.
#[derive(Clone, Copy, Debug, PartialEq, Eq)]
pub enum Verdict {
    /// The least cost of a path from the start to the end.
    Least {
        /// How many containers of 16 bytes the list has.
        containers: u32,
        /// What its SIDs cost: as many as they are where the legs count them, else 0.
        sids: u32,
        /// How often the hop limit is lowered.
        hops: u32,
    },
    /// No path leads from the start to the end.
    NoList,
    /// It shows nothing.
    No {
        /// The line of the first test that fails, counted from 1.
        line: u32,
        /// What is wrong there.
        why: Why,
    },
}

/// The form of a certificate's text, which the head tells.
#[derive(Clone, Copy, Debug, PartialEq, Eq)]
pub enum Form {
    /// `srv6 certificate 1`: a cost is its containers and its hops. SIDs cost nothing.
    First,
    /// `srv6 certificate 2`: a cost is its containers, its SIDs and its hops.
    Second,
}

/// The form of certificates for legs by which a SID costs so much.
pub(crate) fn form_of(sid_cost: u32) -> Form
    ensures { result ≡ form_of sid_cost }
{
    if sid_cost == 0 {
        Form::First
    } else {
        Form::Second
    }
}

/// Why a text gives no certificate.
#[derive(Clone, Copy, Debug, PartialEq, Eq)]
pub enum CertFault {
    /// A line is outside the grammar or names no state.
    BadCert {
        /// The first such line, counted from 1; where there is none and the text ends too early,
        /// the line after the last.
        line: u32,
    },
    /// Want of memory.
    NoMemory,
}

impl From<NoMemory> for CertFault {
    ghost use Rattle.std.specs.Prelude.{◌≡◌};
    ghost use Rattle.list_certificate.specs.declared.certificate_types.CertFault.TheVariants as faults;

    ghost from_gives = { λ _ e. e ≡ faults.NoMemory };

    fn from(_: NoMemory) -> CertFault {
        CertFault::NoMemory
    }
}
