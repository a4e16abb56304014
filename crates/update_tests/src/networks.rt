//! Descriptions of three nodes, each with and without some entries, and packets that enter at the
//! first node.

ghost use Rattle.std.specs.Prelude.{◌≡◌, [], IfOk};

use base::NoMemory;
use net_model::{EntryId, MAX_TEXT_BYTES, Net};
use net_reader::read_net;
use pkt_buf::PktBuf;
use srv6_rules::Family;
use srv6_rules::numbers::MAX_PACKET_LEN;
use std::alloc::{AllocError, Global};
use std::process::Abort;
use std::test::Fail;
use update_flight::Edit;
use update_plan::{EditFault, Plan, Update, plan};
use walk_rules::{Outcome, arrival};

/// The nodes, and links from the first to the others and from those out of the network.
const NODES: &str = r#"
node = [
    { name = "A", address = "2001:db8::a" },
    { name = "B", address = "2001:db8::b" },
    { name = "C", address = "2001:db8::c" },
]
link = [
    { name = "ab", from = "A", to = "B" },
    { name = "ac", from = "A", to = "C" },
    { name = "bo", from = "B" },
    { name = "co", from = "C" },
]
"#;

/// The network of the nodes with some entries.
fn net_with(rt: &impl Abort, alloc: Global, entries: &str) -> Result<Net, AllocError>
    ensures { IfOk result (λ net. net.hidden ≡ []) }
{
    let text = format!(in alloc; "{NODES}{entries}")?;
    assert!(rt; text.len() <= MAX_TEXT_BYTES);
    let net = read_net(alloc, text.as_bytes())
        .ok()
        .expect(rt, "a network");
    assert!(rt; net.is_whole());
    Ok(net)
}

/// The plan from some entries to others.
fn plan_of(rt: &impl Abort, alloc: Global, old: &str, new: &str) -> Result<Plan, AllocError> {
    let old = net_with(rt, alloc, old)?;
    let new = net_with(rt, alloc, new)?;
    Ok(plan(alloc, &old, &new).ok().expect(rt, "a plan"))
}

/// What is asked of an update.
#[derive(Clone, Copy)]
pub(crate) enum Asked {
    /// A packet arrives at the first node.
    Enter,
    /// The next stage of the packet of a number.
    Turn(u32),
    /// The next edit.
    Edit,
}

/// What an update says to that.
#[derive(Clone, Copy, PartialEq, Eq)]
pub(crate) enum Said {
    /// The packet's number.
    Entered(u32),
    /// What came of the packet, and none where it had ended.
    Stage(Option<Outcome>),
    /// The edit that is done.
    Edited(Edit),
    /// No edit is done, since this packet is in flight.
    Busy(u32),
    /// Want of memory.
    NoMemory,
}

/// A packet has one decision, which takes the first way.
const CHOICES: &[u32] = &[0];

/// The bytes of packets that enter before the switch, and after it.
#[derive(Clone, Copy)]
pub(crate) struct Bytes {
    pub(crate) old: &'static [u8],
    pub(crate) new: &'static [u8],
}

/// A packet arrives at the first node.
fn enter(
    rt: &impl Abort,
    alloc: Global,
    update: &mut Update<'_>,
    bytes: Bytes,
) -> Result<u32, NoMemory> {
    assert!(rt; update.nodes() == 3);
    assert!(rt; update.packets().count() < 100);
    assert!(rt; bytes.old.len() <= MAX_PACKET_LEN);
    assert!(rt; bytes.new.len() <= MAX_PACKET_LEN);
    let old = PktBuf::new(alloc, 0, bytes.old)?;
    let new = PktBuf::new(alloc, 0, bytes.new)?;
    update.enter(old, new, arrival(0, Family::V6), CHOICES)
}

/// What comes of a packet's turn.
fn turn(
    rt: &impl Abort,
    update: &mut Update<'_>,
    number: u32,
) -> Result<Option<Outcome>, NoMemory> {
    assert!(rt; 1 <= number);
    assert!(rt; number <= update.packets().count());
    match update.turn(number)? {
        Some(event) => Ok(Some(event.outcome)),
        None => Ok(None),
    }
}

/// What an edit answers.
fn edit(update: &mut Update<'_>) -> Said {
    match update.edit() {
        Ok(edit) => Said::Edited(edit),
        Err(EditFault::Busy { packet }) => Said::Busy(packet),
        Err(EditFault::NoMemory) => Said::NoMemory,
    }
}

/// What an update says to one thing that is asked.
fn answer(
    rt: &impl Abort,
    alloc: Global,
    update: &mut Update<'_>,
    bytes: Bytes,
    asked: Asked,
) -> Result<Said, NoMemory> {
    match asked {
        Asked::Enter => Ok(Said::Entered(enter(rt, alloc, update, bytes)?)),
        Asked::Turn(number) => Ok(Said::Stage(turn(rt, update, number)?)),
        Asked::Edit => Ok(edit(update)),
    }
}

/// The entries of the old description, those of the new one, and rows of what is asked and what
/// is said to that.
pub(crate) type Sequence = (&'static str, &'static str, &'static [(Asked, Said)]);

/// The update from some entries to others says in each row what stands there to what is asked.
pub(crate) fn expect_rows(
    rt: &impl Abort,
    alloc: Global,
    entries: (&str, &str),
    bytes: Bytes,
    rows: &[(Asked, Said)],
) -> Result<(), Fail> {
    let mut update = Update::new(alloc, plan_of(rt, alloc, entries.0, entries.1)?);
    for (asked, said) in rows {
        let came = answer(rt, alloc, &mut update, bytes, *asked)?;
        assert!(rt; came == *said);
    }
    Ok(())
}
