//! The room that is left in a container after a SID.

ghost use Rattle.std.specs.Prelude.{◌≡◌};
ghost use Rattle.list_pack.specs.LegsValue.{same_block, units_of};
ghost use Rattle.list_pack.specs.LegsValueTerms.{IsShape};
ghost use Rattle.list_pack.specs.Rooms.{full_room, packed_room, kept_room, stay_room, new_room, room_behind, top_room};

use crate::types::Shape;
use srv6_rules::Csid;

/// Both lie in one block
fn same_block(a: Option<u32>, b: Option<u32>) -> bool
    ensures { result ≡ same_block a b }
{
    match (a, b) {
        (Some(x), Some(y)) => x == y,
        (None, _) | (Some(_), None) => false,
    }
}

/// How many 16-bit units the prefix has after the bits of its block
fn units_of(shape: &Shape) -> u8
    requires { IsShape shape.now }
    ensures { result ≡ units_of shape.now }
{
    shape.prefix.len().saturating_sub(shape.lbl) / 16
}

/// The room after a SID that opens a full container (RFC 9800 section 4.1): the whole 16-bit units
/// after the prefix of a NEXT SID, 0 after any other.
pub fn full_room(shape: &Shape) -> u8
    ensures { result ≡ full_room shape.now }
{
    let len = shape.prefix.len();
    match shape.csid {
        Csid::Next => (128 - len) / 16,
        Csid::Plain | Csid::Replace => 0,
    }
}

/// The room after a SID that opens a REPLACE container (RFC 9800 section 4.2): the CSIDs that
/// follow its own
fn packed_room(shape: &Shape) -> u8
    requires { IsShape shape.now }
    ensures { result ≡ packed_room shape.now }
{
    match shape.csid {
        Csid::Replace => 128 / (shape.prefix.len() - shape.lbl) - 1,
        Csid::Plain | Csid::Next => 0,
    }
}

/// The most room that there is after a SID: 16-bit units after a NEXT SID, CSIDs after a REPLACE
/// SID, 0 after any other. (RFC 9800 sections 4.1 and 4.2)
pub fn top_room(shape: &Shape) -> u8
    requires { IsShape shape.now }
    ensures { result ≡ top_room shape.now }
{
    match shape.csid {
        Csid::Plain => 0,
        Csid::Next => full_room(shape),
        Csid::Replace => packed_room(shape),
    }
}

/// What is left after a SID that may hold further ones
fn kept_room(csid: Csid, left: u8) -> u8
    ensures { result ≡ kept_room csid left }
{
    match csid {
        Csid::Plain => 0,
        Csid::Next | Csid::Replace => left,
    }
}

/// The room after the next SID in the same container, where it may stand there
fn stay_room(from: &Shape, room: u8, next: &Shape) -> Option<u8>
    requires { IsShape next.now }
    ensures { result ≡ stay_room from.now room next.now }
{
    let taken = match from.csid {
        Csid::Plain => return None,
        Csid::Next => units_of(next),
        Csid::Replace => 1,
    };
    if same_block(from.block, next.block) && taken <= room {
        Some(kept_room(next.csid, room - taken))
    } else {
        None
    }
}

/// The room after the next SID in a new container, where it may open one
fn new_room(from: &Shape, room: u8, next: &Shape) -> Option<u8>
    requires { IsShape next.now }
    ensures { result ≡ new_room from.now room next.now }
{
    match from.csid {
        Csid::Replace if room == 0 => {
            if same_block(from.block, next.block) {
                Some(packed_room(next))
            } else {
                None
            }
        }
        Csid::Plain | Csid::Next | Csid::Replace => Some(full_room(next)),
    }
}

/// The room after the next SID, which stays in the container of the SID before it or opens a new
/// one; none where it can't stand so. After a NEXT SID the next one stays where it is of the same
/// block and its 16-bit units are within the room, after a REPLACE SID where it is of the same
/// block and room is left. A new container is a REPLACE container after a REPLACE SID without
/// room, and the next SID is then of the same block; else it is a full one, also from the start,
/// where no SID was executed (RFC 9800 sections 6.2 to 6.4, and own rule).
pub fn room_behind(stays: bool, from: &Option<Shape>, room: u8, next: &Shape) -> Option<u8>
    requires { IsShape next.now }
    ensures { result ≡ room_behind stays from.now room next.now }
{
    match from {
        None if stays => None,
        None => Some(full_room(next)),
        Some(shape) if stays => stay_room(shape, room, next),
        Some(shape) => new_room(shape, room, next),
    }
}
