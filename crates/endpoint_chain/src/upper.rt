//! What stands after the extension headers.

ghost use Rattle.std.specs.Prelude.{◌≡◌};
ghost use Rattle.srv6_rules.specs.Behaviours.{family_inside};
ghost use Rattle.srv6_rules.specs.Endpoint.{is_allowed};

use srv6_rules::Family;
use srv6_rules::numbers::IPV4_INSIDE;

/// The upper layer is one that the node takes at its SIDs (RFC 8986 section 4.1.1).
pub fn is_allowed(allow: &[u8], kind: u8) -> bool
    ensures { result ≡ is_allowed allow.now kind }
{
    allow.iter().any(|k| *k == kind)
}

/// The family of a packet inside, by its kind as an upper layer (RFC 8986 sections 4.6 and 4.7).
pub fn family_inside(kind: u8) -> Family
    ensures { result ≡ family_inside kind }
{
    if kind == IPV4_INSIDE {
        Family::V4
    } else {
        Family::V6
    }
}
