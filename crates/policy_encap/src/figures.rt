//! The figure of the limit that the definitions cite, written out: the contract of a function that
//! does nothing.

ghost use Rattle.std.specs.Prelude.{◌≡◌};
ghost use Rattle.policy_encap.specs.declared.policy_headers.TheConstants.{MAX_FRONT};

/// The longest header of a policy has 2,080 bytes: an IPv6 header of 40, and a segment routing
/// header of 8 and 16 for each of 127 segments (RFC 8200 section 3, RFC 8754 section 2; that a
/// policy has at most 127 is an own rule).
pub fn limits_have_their_figures()
    ensures { MAX_FRONT ≡ 2080 }
{}
