//! Packets of two descriptions whose routes lead different ways.

use crate::networks::{Asked, Bytes, Said, Sequence, expect_rows};
use net_model::EntryId;
use std::test::Fail;
use update_flight::Edit;
use walk_rules::Outcome;

/// The old description leads over B.
const OVER_B: &str = r#"
route = [
    { node = "A", prefix = "2001:db8:1::/48", via = ["ab"] },
    { node = "B", prefix = "2001:db8:1::/48", via = ["bo"] },
]
"#;

/// The new one leads over C.
const OVER_C: &str = r#"
route = [
    { node = "A", prefix = "2001:db8:2::/48", via = ["ac"] },
    { node = "C", prefix = "2001:db8:2::/48", via = ["co"] },
]
"#;

/// To 2001:db8:1::1, no next header, no payload.
const TO_OLD: [u8; 40] = [
    0x60, 0x00, 0x00, 0x00, 0x00, 0x00, 0x3b, 0x40, 0x20, 0x01, 0x0d, 0xb8, 0x00, 0x00, 0x00, 0x00,
    0x00, 0x00, 0x00, 0x00, 0x00, 0x00, 0x00, 0x01, 0x20, 0x01, 0x0d, 0xb8, 0x00, 0x01, 0x00, 0x00,
    0x00, 0x00, 0x00, 0x00, 0x00, 0x00, 0x00, 0x01,
];

/// To 2001:db8:2::1.
const TO_NEW: [u8; 40] = [
    0x60, 0x00, 0x00, 0x00, 0x00, 0x00, 0x3b, 0x40, 0x20, 0x01, 0x0d, 0xb8, 0x00, 0x00, 0x00, 0x00,
    0x00, 0x00, 0x00, 0x00, 0x00, 0x00, 0x00, 0x01, 0x20, 0x01, 0x0d, 0xb8, 0x00, 0x02, 0x00, 0x00,
    0x00, 0x00, 0x00, 0x00, 0x00, 0x00, 0x00, 0x01,
];

/// Packets to the prefix of the description in which they are.
const BYTES: Bytes = Bytes {
    old: &TO_OLD,
    new: &TO_NEW,
};

/// A packet is sent over each link.
const SENT_AB: Said = Said::Stage(Some(Outcome::Send { link: 0 }));

const SENT_AC: Said = Said::Stage(Some(Outcome::Send { link: 1 }));

const SENT_BO: Said = Said::Stage(Some(Outcome::Send { link: 2 }));

const SENT_CO: Said = Said::Stage(Some(Outcome::Send { link: 3 }));

/// The routes of the new description are added, and those of the old one are removed.
const A_ADDED: Said = Said::Edited(Edit::Added {
    entry: EntryId::Route(2),
});

const C_ADDED: Said = Said::Edited(Edit::Added {
    entry: EntryId::Route(3),
});

const SWITCHED: Said = Said::Edited(Edit::Switched);

const A_REMOVED: Said = Said::Edited(Edit::Removed {
    entry: EntryId::Route(0),
});

const B_REMOVED: Said = Said::Edited(Edit::Removed {
    entry: EntryId::Route(1),
});

const FINISHED: Said = Said::Edited(Edit::Finished);

/// A packet has a turn before, between and after the additions, and takes the old way.
const BETWEEN_ADDITIONS: &[(Asked, Said)] = &[
    (Asked::Enter, Said::Entered(1)),
    (Asked::Edit, A_ADDED),
    (Asked::Turn(1), SENT_AB),
    (Asked::Edit, C_ADDED),
    (Asked::Turn(1), SENT_BO),
    (Asked::Turn(1), Said::Stage(None)),
];

/// A packet that entered before the switch takes the old way to its end, and the removals wait for
/// it; one that entered after it takes the new way, and none waits for that.
const OVER_THE_SWITCH: &[(Asked, Said)] = &[
    (Asked::Enter, Said::Entered(1)),
    (Asked::Turn(1), SENT_AB),
    (Asked::Edit, A_ADDED),
    (Asked::Edit, C_ADDED),
    (Asked::Edit, SWITCHED),
    (Asked::Enter, Said::Entered(2)),
    (Asked::Edit, Said::Busy(1)),
    (Asked::Turn(2), SENT_AC),
    (Asked::Turn(1), SENT_BO),
    (Asked::Edit, A_REMOVED),
    (Asked::Edit, B_REMOVED),
    (Asked::Turn(2), SENT_CO),
    (Asked::Edit, FINISHED),
    (Asked::Edit, FINISHED),
];

/// Of the packets that keep a removal waiting the first is named that is still in flight.
const BUSY: &[(Asked, Said)] = &[
    (Asked::Enter, Said::Entered(1)),
    (Asked::Enter, Said::Entered(2)),
    (Asked::Enter, Said::Entered(3)),
    (Asked::Edit, A_ADDED),
    (Asked::Edit, C_ADDED),
    (Asked::Edit, SWITCHED),
    (Asked::Edit, Said::Busy(1)),
    (Asked::Turn(3), SENT_AB),
    (Asked::Turn(3), SENT_BO),
    (Asked::Turn(1), SENT_AB),
    (Asked::Turn(1), SENT_BO),
    (Asked::Edit, Said::Busy(2)),
    (Asked::Turn(2), SENT_AB),
    (Asked::Turn(2), SENT_BO),
    (Asked::Edit, A_REMOVED),
];

/// Equal descriptions have the switch alone.
const EQUAL: &[(Asked, Said)] = &[(Asked::Edit, SWITCHED), (Asked::Edit, FINISHED)];

/// The old entries, the new ones, and what is asked and said.
const UPDATES: &[Sequence] = &[
    (OVER_B, OVER_C, BETWEEN_ADDITIONS),
    (OVER_B, OVER_C, OVER_THE_SWITCH),
    (OVER_B, OVER_C, BUSY),
    (OVER_B, OVER_B, EQUAL),
];

#[test]
fn packets_keep_the_way_of_their_description(rt: HostRuntime) -> Result<(), Fail> {
    for (old, new, rows) in UPDATES {
        expect_rows(&rt, rt.alloc(), (*old, *new), BYTES, rows)?;
    }
    Ok(())
}
