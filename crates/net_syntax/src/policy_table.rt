//! Policies.

ghost use Rattle.net_syntax.specs.DescriptionText.{policy_of};

use crate::numbers::octet_at;
use base::Seq;
use net_model::{DEFAULT_HOP_LIMIT, LAST_FLOW_LABEL, Name};
use srv6_rules::numbers::MAX_SEGMENTS;
use std::alloc::Global;
use text_faults::{FaultPlace, Key, NetFault};
use toml::Table;
use toml_reader::{Describes, needed, needed_list, only, optional_number};
use v6_addr::Addr;

/// A policy, as it is described: what a packet is encapsulated with (RFC 8986 section 4.13).
#[derive(Debug, Drop)]
pub struct DescribedPolicy {
    /// Its name.
    pub name: Name,
    /// The outer header's source.
    pub source: Addr,
    /// The segments in the order in which they are visited, at most 127.
    pub segments: Seq<Addr>,
    /// The outer header's traffic class; by default 0.
    pub traffic_class: u8,
    /// The outer header's flow label, a number of 20 bits; by default 0.
    pub flow_label: u32,
    /// The outer header's hop limit, from 1 to 255; by default 64.
    pub hop_limit: u8,
}

/// Tables of policies.
pub(crate) struct Policies;

impl Describes<DescribedPolicy> for Policies {
    ghost of = { policy_of };

    fn read(alloc: Global, table: &Table, place: FaultPlace) -> Result<DescribedPolicy, NetFault> {
        let keys = [
            Key::Name,
            Key::Source,
            Key::Segments,
            Key::TrafficClass,
            Key::FlowLabel,
            Key::HopLimit,
        ];
        only(table, &keys, place)?;
        let name = needed::<Name>(alloc, table, place, Key::Name)?;
        let source = needed::<Addr>(alloc, table, place, Key::Source)?;
        let segments = needed_list::<Addr>(alloc, MAX_SEGMENTS, table, place, Key::Segments)?;
        let traffic_class = octet_at(0, 0, table, place, Key::TrafficClass)?;
        let flow_label = optional_number((0, LAST_FLOW_LABEL), 0, table, place, Key::FlowLabel)?;
        let hop_limit = octet_at(1, DEFAULT_HOP_LIMIT as u8, table, place, Key::HopLimit)?;
        Ok(DescribedPolicy {
            name,
            source,
            segments,
            traffic_class,
            flow_label,
            hop_limit,
        })
    }
}
