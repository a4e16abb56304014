//! A whole intent.

ghost use Rattle.std.specs.Prelude.{◌≡◌};
ghost use Rattle.toml.specs.View.{table_view};
ghost use Rattle.text_faults.specs.TextReading.{Gives};
ghost use Rattle.net_syntax.specs.TextWords.{family_of, mode_of, prefer_of};
ghost use Rattle.net_syntax.specs.IntentText.{intent_of, intent_in};
ghost use Rattle.net_syntax.specs.Preferring.{sid_cost_of};

use crate::limits::{DEFAULT_CONTAINERS, MAX_CONTAINERS};
use crate::numbers::octet_at;
use crate::step_table::{DescribedStep, steps_at};
use crate::words::{Word, needed_word, optional_word};
use base::Seq;
use net_model::{DEFAULT_HOP_LIMIT, LAST_FLOW_LABEL, Name};
use srv6_rules::Family;
use std::alloc::Global;
use text_faults::{FaultPlace, Key, NetFault, TableKind};
use toml::Table;
use toml_reader::{document, needed, only, optional_number};
use v6_addr::Addr;

/// The form of the header that a headend writes (RFC 8986 sections 5.1 and 5.2).
#[derive(Clone, Copy, Debug, PartialEq, Eq)]
pub enum Mode {
    /// Each segment stands in the segment routing header.
    Full,
    /// The first segment is left out.
    Reduced,
}

/// Which of the shortest lists an intent prefers: of the lists of fewest containers the one of least
/// need, or the one of fewest SIDs and then least need (own rule).
#[derive(Clone, Copy, Debug, PartialEq, Eq)]
pub enum Prefer {
    /// The one of least need.
    Need,
    /// The one of fewest SIDs, and of these the one of least need.
    Sids,
}

impl Prefer {
    /// What each SID of a list costs, compared behind the list's containers and before its need: 1
    /// where fewer SIDs are preferred, else 0.
    pub fn sid_cost(self) -> u32
        ensures { result ≡ sid_cost_of self }
    {
        match self {
            Prefer::Need => 0,
            Prefer::Sids => 1,
        }
    }
}

/// What an intent says.
#[derive(Debug, Drop)]
pub struct DescribedIntent {
    /// The name of the node where packets enter and are encapsulated.
    pub headend: Name,
    /// The source of the outer header.
    pub source: Addr,
    /// The family of the packets that are encapsulated.
    pub inner: Family,
    /// The form of the outer header.
    pub mode: Mode,
    /// The hop limit of the outer header, from 1 to 255; by default 64.
    pub hop_limit: u8,
    /// The most containers of 16 bytes that a list may have, from 1 to 127; by default 10.
    pub max_containers: u32,
    /// The traffic class of the outer header; by default 0.
    pub traffic_class: u8,
    /// The flow label of the outer header, a number of 20 bits; by default 0.
    pub flow_label: u32,
    /// Which of the shortest lists is preferred; by default the one of least need.
    pub prefer: Prefer,
    /// What is crossed, executed and reached, in order: 1 to 48 steps.
    pub steps: Seq<DescribedStep>,
}

impl Word for Family {
    ghost meaning = { family_of };

    #[tactic(auto, unfolding(crate::specs::TextWords::family_of))]
    fn meant_by(word: &str) -> Option<Family> {
        match word {
            "ipv6" => Some(Family::V6),
            "ipv4" => Some(Family::V4),
            _ => None,
        }
    }
}

impl Word for Mode {
    ghost meaning = { mode_of };

    #[tactic(auto, unfolding(crate::specs::TextWords::mode_of))]
    fn meant_by(word: &str) -> Option<Mode> {
        match word {
            "full" => Some(Mode::Full),
            "reduced" => Some(Mode::Reduced),
            _ => None,
        }
    }
}

impl Word for Prefer {
    ghost meaning = { prefer_of };

    #[tactic(auto, unfolding(crate::specs::TextWords::prefer_of))]
    fn meant_by(word: &str) -> Option<Prefer> {
        match word {
            "need" => Some(Prefer::Need),
            "sids" => Some(Prefer::Sids),
            _ => None,
        }
    }
}

/// What the tree of an intent says, or its first fault: another key than those of an
/// intent comes first, then each key in its order, and last the steps. `NoMemory` may come at any
/// time.
pub fn describe_intent(alloc: Global, root: &Table) -> Result<DescribedIntent, NetFault>
    ensures { Gives (λ i. i) result (intent_of (table_view root.now)) }
{
    let keys = [
        Key::Headend,
        Key::Source,
        Key::Inner,
        Key::Mode,
        Key::HopLimit,
        Key::MaxContainers,
        Key::TrafficClass,
        Key::FlowLabel,
        Key::Prefer,
        Key::Step,
    ];
    let whole = FaultPlace::whole(TableKind::Intent);
    only(root, &keys, whole)?;
    let headend = needed::<Name>(alloc, root, whole, Key::Headend)?;
    let source = needed::<Addr>(alloc, root, whole, Key::Source)?;
    let inner = needed_word::<Family>(root, whole, Key::Inner)?;
    let mode = needed_word::<Mode>(root, whole, Key::Mode)?;
    let hop_limit = octet_at(1, DEFAULT_HOP_LIMIT as u8, root, whole, Key::HopLimit)?;
    let containers = (1, MAX_CONTAINERS);
    let max_containers = optional_number(
        containers,
        DEFAULT_CONTAINERS,
        root,
        whole,
        Key::MaxContainers,
    )?;
    let traffic_class = octet_at(0, 0, root, whole, Key::TrafficClass)?;
    let flow_label = optional_number((0, LAST_FLOW_LABEL), 0, root, whole, Key::FlowLabel)?;
    let prefer = optional_word::<Prefer>(Prefer::Need, root, whole, Key::Prefer)?;
    let steps = steps_at(alloc, root)?;
    Ok(DescribedIntent {
        headend,
        source,
        inner,
        mode,
        hop_limit,
        max_containers,
        traffic_class,
        flow_label,
        prefer,
        steps,
    })
}

/// What an intent's text says, or its first fault: `NotToml` exactly where the bytes
/// are not UTF-8 or not TOML, and else as `describe_intent`. `NoMemory` may come at any time.
pub fn read_intent_words(alloc: Global, text: &[u8]) -> Result<DescribedIntent, NetFault>
    ensures { Gives (λ i. i) result (intent_in text.now) }
{
    let root = document(alloc, text, FaultPlace::whole(TableKind::Intent))?;
    describe_intent(alloc, &root)
}
