//! The type-length-value area of a segment routing header (RFC 8754 section 2.1).

ghost use Rattle.std.specs.Prelude.{◌≡◌, ◌+◌, ◌^◌, ◌<◌, ◌≤◌, length};
ghost use Rattle.srv6_rules.specs.Areas.{area_fault, tlv_fault, tlvs_fault};
ghost use Rattle.srv6_rules.specs.Srh.{entries_of};
ghost use Rattle.ip6_headers.specs.Items.{first_fault};

use crate::view::SrhView;
use ip6_headers::{Fault, item_len};
use srv6_rules::Reason;
use srv6_rules::numbers::{HMAC, MAX_PACKET_LEN, SEGMENT_LEN, SEGMENT_LIST_AT};

/// Looks at the items of an area that begins at a place.
fn items(area: &[u8], start: usize) -> Result<(), Fault>
    requires { start + length area.now < 2 ^ 64 }
    ensures { first_fault result ≡ area_fault tlv_fault 0 start area.now }
{
    let mut rest = area;
    let mut at = start;
    'items: while !rest.is_empty() {
        if rest[0] == HMAC {
            return Err(Fault {
                reason: Reason::HmacTlv,
                at,
            });
        }
        let Some(len) = item_len(rest) else {
            return Err(Fault {
                reason: Reason::BadTlv,
                at,
            });
        };
        at += len;
        rest = rest.split_at(len).1;
    }
    Ok(())
}

/// Looks at the type-length-value area of a header whose entry at Last Entry is there, and which
/// stands at a place in bytes from the packet's first. The first item with a fault decides, with
/// its place: an HMAC is `HmacTlv`, also where it passes the header's end or lacks its length, and
/// any other item that does is `BadTlv`; Pad1 is its type alone, and other items are skipped (own
/// rule; RFC 8754 section 2.1).
pub fn tlvs(srh: &SrhView<'_>, at: usize) -> Result<(), Fault>
    requires entry { srh.now.last_entry < entries_of srh.now }
    requires place { at ≤ MAX_PACKET_LEN }
    ensures { first_fault result ≡ tlvs_fault at srh.now }
{
    let start = SEGMENT_LIST_AT + SEGMENT_LEN * (usize::from(srh.last_entry()) + 1);
    items(srh.tlv_bytes(), at + start)
}
