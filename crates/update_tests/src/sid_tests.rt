//! SIDs that come and go under packets, and routes of their prefixes.

use crate::networks::{Asked, Bytes, Said, Sequence, expect_rows};
use net_model::EntryId;
use srv6_rules::Reason;
use std::test::Fail;
use update_flight::Edit;
use walk_rules::{How, Outcome};

/// A's SID sends over the link to B.
const SID_AT_A: &str = r#"
sid = [{ node = "A", prefix = "fcbb:bb00:2::/48", behaviour = "End.X", links = ["ab"] }]
"#;

/// Beside it a route of the same prefix, over the link to C.
const SID_AND_ROUTE: &str = r#"
route = [{ node = "A", prefix = "fcbb:bb00:2::/48", via = ["ac"] }]
sid = [{ node = "A", prefix = "fcbb:bb00:2::/48", behaviour = "End.X", links = ["ab"] }]
"#;

/// Neither.
const NEITHER: &str = "";

/// To fcbb:bb00:2::, hop limit 64, with a routing header: Segments Left 1, then fcbb:bb00:4::.
const TO_SID: [u8; 80] = [
    0x60, 0x00, 0x00, 0x00, 0x00, 0x28, 0x2b, 0x40, 0x20, 0x01, 0x0d, 0xb8, 0x00, 0x01, 0x00, 0x00,
    0x00, 0x00, 0x00, 0x00, 0x00, 0x00, 0x00, 0x01, 0xfc, 0xbb, 0xbb, 0x00, 0x00, 0x02, 0x00, 0x00,
    0x00, 0x00, 0x00, 0x00, 0x00, 0x00, 0x00, 0x00, 0x3b, 0x04, 0x04, 0x01, 0x01, 0x00, 0x00, 0x00,
    0xfc, 0xbb, 0xbb, 0x00, 0x00, 0x04, 0x00, 0x00, 0x00, 0x00, 0x00, 0x00, 0x00, 0x00, 0x00, 0x00,
    0xfc, 0xbb, 0xbb, 0x00, 0x00, 0x02, 0x00, 0x00, 0x00, 0x00, 0x00, 0x00, 0x00, 0x00, 0x00, 0x00,
];

/// The same packets before the switch and after it.
const BYTES: Bytes = Bytes {
    old: &TO_SID,
    new: &TO_SID,
};

/// A packet is sent over the links to B and to C.
const SENT_AB: Said = Said::Stage(Some(Outcome::Send { link: 0 }));

const SENT_AC: Said = Said::Stage(Some(Outcome::Send { link: 1 }));

/// A's SID is executed, and the packet stands through it.
const THROUGH_SID: Said = Said::Stage(Some(Outcome::Again {
    sid: 0,
    how: How::Through {
        sid: 0,
        lower: false,
    },
}));

/// No route is there, and an error is sent.
const NO_ROUTE: Said = Said::Stage(Some(Outcome::Drop {
    reason: Reason::NoRoute,
    error: true,
}));

/// The route and the SID are added, and removed.
const ROUTE_ADDED: Said = Said::Edited(Edit::Added {
    entry: EntryId::Route(0),
});

const SID_ADDED: Said = Said::Edited(Edit::Added {
    entry: EntryId::Sid(0),
});

const SWITCHED: Said = Said::Edited(Edit::Switched);

const ROUTE_REMOVED: Said = Said::Edited(Edit::Removed {
    entry: EntryId::Route(0),
});

const SID_REMOVED: Said = Said::Edited(Edit::Removed {
    entry: EntryId::Sid(0),
});

/// A packet that stands through a SID as it is removed goes over its links, and the next finds no
/// route.
const THROUGH_A_REMOVED_SID: &[(Asked, Said)] = &[
    (Asked::Edit, SWITCHED),
    (Asked::Enter, Said::Entered(1)),
    (Asked::Turn(1), THROUGH_SID),
    (Asked::Edit, SID_REMOVED),
    (Asked::Turn(1), SENT_AB),
    (Asked::Enter, Said::Entered(2)),
    (Asked::Turn(2), NO_ROUTE),
];

/// An added route is found while the SID of its prefix is hidden, and the SID from its addition on.
const BEHIND_A_HIDDEN_SID: &[(Asked, Said)] = &[
    (Asked::Enter, Said::Entered(1)),
    (Asked::Edit, ROUTE_ADDED),
    (Asked::Turn(1), SENT_AC),
    (Asked::Edit, SID_ADDED),
    (Asked::Enter, Said::Entered(2)),
    (Asked::Turn(2), THROUGH_SID),
];

/// A route is removed behind the SID of its prefix, which is found until it is removed itself.
const UNTIL_IT_IS_REMOVED: &[(Asked, Said)] = &[
    (Asked::Edit, SWITCHED),
    (Asked::Edit, ROUTE_REMOVED),
    (Asked::Enter, Said::Entered(1)),
    (Asked::Turn(1), THROUGH_SID),
    (Asked::Edit, SID_REMOVED),
    (Asked::Enter, Said::Entered(2)),
    (Asked::Turn(2), NO_ROUTE),
    (Asked::Turn(1), SENT_AB),
];

/// The old entries, the new ones, and what is asked and said.
const UPDATES: &[Sequence] = &[
    (SID_AT_A, NEITHER, THROUGH_A_REMOVED_SID),
    (NEITHER, SID_AND_ROUTE, BEHIND_A_HIDDEN_SID),
    (SID_AND_ROUTE, NEITHER, UNTIL_IT_IS_REMOVED),
];

#[test]
fn sids_come_and_go_under_packets(rt: HostRuntime) -> Result<(), Fail> {
    for (old, new, rows) in UPDATES {
        expect_rows(&rt, rt.alloc(), (*old, *new), BYTES, rows)?;
    }
    Ok(())
}
