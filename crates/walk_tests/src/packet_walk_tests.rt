//! Packets side by side at two nodes with two links between them: their turns one by one, and by a
//! schedule.

ghost use Rattle.std.specs.Prelude.{◌≡◌, ◌<◌, length};

use base::NoMemory;
use net_model::Net;
use net_reader::read_net;
use packet_walk::{Flight, Turns, are_rising};
use pkt_buf::PktBuf;
use srv6_rules::{Family, Reason};
use std::alloc::Global;
use std::process::Abort;
use std::test::Fail;
use walk_rules::{Outcome, arrival};

/// Two links from A to B, and one out of the network from B.
const NET: &str = r#"
node = [{ name = "A", address = "::1" }, { name = "B", address = "::2" }]
link = [
    { name = "ab", from = "A", to = "B" },
    { name = "ba", from = "A", to = "B" },
    { name = "out", from = "B" },
]
route = [
    { node = "A", prefix = "::/0", via = ["ab", "ba"] },
    { node = "B", prefix = "::/0", via = ["out"] },
]
"#;

/// From 2001:db8::1 to 2001:db8::2, no next header, no payload; the same with hop limit 1.
const PACKET: [u8; 40] = [
    0x60, 0x00, 0x00, 0x00, 0x00, 0x00, 0x3b, 0x40, 0x20, 0x01, 0x0d, 0xb8, 0x00, 0x00, 0x00, 0x00,
    0x00, 0x00, 0x00, 0x00, 0x00, 0x00, 0x00, 0x01, 0x20, 0x01, 0x0d, 0xb8, 0x00, 0x00, 0x00, 0x00,
    0x00, 0x00, 0x00, 0x00, 0x00, 0x00, 0x00, 0x02,
];

const LAST_HOP: [u8; 40] = [
    0x60, 0x00, 0x00, 0x00, 0x00, 0x00, 0x3b, 0x01, 0x20, 0x01, 0x0d, 0xb8, 0x00, 0x00, 0x00, 0x00,
    0x00, 0x00, 0x00, 0x00, 0x00, 0x00, 0x00, 0x01, 0x20, 0x01, 0x0d, 0xb8, 0x00, 0x00, 0x00, 0x00,
    0x00, 0x00, 0x00, 0x00, 0x00, 0x00, 0x00, 0x02,
];

fn network(rt: &impl Abort, alloc: Global) -> Net
    ensures { length result.nodes ≡ 2 }
{
    let net = read_net(alloc, NET.as_bytes()).ok().expect(rt, "a network");
    assert!(rt; net.nodes() == 2);
    net
}

/// A packet arrives at A, with its choices.
fn enter<'a>(
    rt: &impl Abort,
    alloc: Global,
    flight: &mut Flight<'a>,
    bytes: &[u8; 40],
    choices: &'a [u32],
) -> Result<(), NoMemory>
    requires nodes { length flight.old.net.nodes ≡ 2 }
    requires choices { 0 < length choices.now }
    ensures { flight.new.net ≡ flight.old.net }
{
    assert!(rt; flight.count() < 100);
    let packet = PktBuf::new(alloc, 0, bytes)?;
    flight.enter(packet, arrival(0, Family::V6), choices)?;
    Ok(())
}

/// Three packets at A, of which the second takes the other link and the last has hop limit 1.
fn three_packets<'a>(rt: &impl Abort, alloc: Global, net: &'a Net) -> Result<Flight<'a>, NoMemory>
    requires { length net.now.nodes ≡ 2 }
{
    let mut flight = Flight::new(alloc, net);
    enter(rt, alloc, &mut flight, &PACKET, &[0])?;
    enter(rt, alloc, &mut flight, &PACKET, &[1])?;
    enter(rt, alloc, &mut flight, &LAST_HOP, &[0])?;
    Ok(flight)
}

/// What comes of a packet's turn, and the length of the error about it.
fn turn(
    rt: &impl Abort,
    flight: &mut Flight<'_>,
    number: u32,
) -> Result<(Option<Outcome>, usize), NoMemory> {
    assert!(rt; 1 <= number);
    assert!(rt; number <= flight.count());
    let event = flight.turn(number)?;
    let outcome = match event {
        Some(event) => Some(event.outcome),
        None => None,
    };
    Ok((outcome, flight.error().len()))
}

/// A packet is sent over each link, or dropped; or it has ended.
const OVER_AB: Option<Outcome> = Some(Outcome::Send { link: 0 });

const OVER_BA: Option<Outcome> = Some(Outcome::Send { link: 1 });

const LEFT: Option<Outcome> = Some(Outcome::Send { link: 2 });

const DROPPED: Option<Outcome> = Some(Outcome::Drop {
    reason: Reason::HopLimit,
    error: true,
});

const ENDED: Option<Outcome> = None;

/// Packets that take a turn one after the other, what comes of it, and the length of the error: 48
/// bytes in front of the packet, and the next turn without one leaves none.
const TURNS: &[&[(u32, Option<Outcome>, usize)]] = &[
    &[
        (1, OVER_AB, 0),
        (2, OVER_BA, 0),
        (3, DROPPED, 88),
        (2, LEFT, 0),
        (1, LEFT, 0),
        (2, ENDED, 0),
    ],
    &[
        (1, OVER_AB, 0),
        (1, LEFT, 0),
        (1, ENDED, 0),
        (2, OVER_BA, 0),
        (2, LEFT, 0),
        (3, DROPPED, 88),
    ],
];

#[test]
fn packets_in_turns_go_their_own_ways(rt: HostRuntime) -> Result<(), Fail> {
    let net = network(&rt, rt.alloc());
    for turns in TURNS {
        let mut flight = three_packets(&rt, rt.alloc(), &net)?;
        for (number, outcome, error) in *turns {
            let came = turn(&rt, &mut flight, *number)?;
            assert!(rt; came.0 == *outcome && came.1 == *error);
        }
    }
    Ok(())
}

/// The numbers of the packets' frames.
const FRAMES: &[u32] = &[1, 3, 6];

/// Schedules, which name frames, and the packets that take a turn, each by its number in the
/// flight. Behind the schedule they are run to their ends one by one; an entry of no frame, one of
/// a frame that was not read, and one of a packet that has ended give no packet a turn.
const SCHEDULES: &[(&[u32], &[u32])] = &[
    (&[], &[1, 1, 2, 2, 3]),
    (&[3], &[2, 1, 1, 2, 3]),
    (&[3, 1, 3, 1], &[2, 1, 2, 1, 3]),
    (&[1, 1, 3, 3], &[1, 1, 2, 2, 3]),
    (&[3, 2, 9, 3, 3, 6], &[2, 2, 3, 1, 1]),
];

/// The packets that take a turn by a schedule; all end.
fn turns_of(
    rt: &impl Abort,
    alloc: Global,
    flight: &mut Flight<'_>,
    schedule: &[u32],
) -> Result<Vec<u32>, NoMemory> {
    assert!(rt; are_rising(FRAMES));
    assert!(rt; FRAMES.len() == flight.count() as usize);
    let mut turns = Turns::new(schedule, FRAMES);
    let mut taken = Vec::new(alloc);
    'turns: while let Some(number) = turns.next(flight) {
        flight.turn(number)?;
        taken.push(number)?;
    }
    Ok(taken)
}

#[test]
fn a_schedule_names_the_packets(rt: HostRuntime) -> Result<(), Fail> {
    let net = network(&rt, rt.alloc());
    for (schedule, wanted) in SCHEDULES {
        let mut flight = three_packets(&rt, rt.alloc(), &net)?;
        let taken = turns_of(&rt, rt.alloc(), &mut flight, schedule)?;
        assert!(rt; taken.as_slice() == *wanted);
    }
    Ok(())
}
