//! The figures of the limits that the definitions cite, each written out: the contract of a
//! function that does nothing.

ghost use Rattle.std.specs.Prelude.{◌≡◌};
ghost use Rattle.net_model.specs.declared.limits.TheConstants as n;

/// How many parts a network and a description have at most, and of what size; the least
/// and the largest MTU of a link (RFC 8200 sections 3 and 5), and the largest numbers of fields
/// (RFC 8200 section 3, RFC 791 section 3.1).
pub fn limits_have_their_figures()
    ensures parts { (n.MAX_NODES ≡ 256) × (n.MAX_LINKS ≡ 4096) × (n.MAX_ROUTES ≡ 65536)
        × (n.MAX_POLICIES ≡ 256) × (n.MAX_BLOCKS ≡ 64) × (n.MAX_SIDS ≡ 4096)
        × (n.MAX_SIDS_OF_NODE ≡ 64) × (n.MAX_LINKS_OF_SET ≡ 64) × (n.MAX_ALLOWED_TYPES ≡ 16) }
    ensures texts { (n.MAX_NAME_BYTES ≡ 32) × (n.MAX_TEXT_BYTES ≡ 4194304) }
    ensures links { (n.MIN_LINK_MTU ≡ 1280) × (n.MAX_LINK_MTU ≡ 65575) }
    ensures numbers { (n.LAST_TABLE ≡ 65535) × (n.LAST_OCTET ≡ 255)
        × (n.LAST_FLOW_LABEL ≡ 1048575) × (n.DEFAULT_HOP_LIMIT ≡ 64) }
    ensures lengths { (n.BLOCK_UNIT ≡ 16) × (n.MAX_BLOCK_LEN ≡ 64)
        × (n.MAX_IPV4_PREFIX_LEN ≡ 32) × (n.SHORT_CSID ≡ 16) × (n.LONG_CSID ≡ 32) }
{}
