//! Networks of texts, and how a fault reads, which the tests share.

use net_model::Net;
use net_reader::read_net;
use std::alloc::{AllocError, Global};
use std::process::Abort;
use text_faults::NetFault;
use text_faults::OrNoMemory::{Fault, NoMemory};

/// A and B, and a link from A to B. Entries may stand after it.
pub(crate) const TWO_NODES: &str = r#"
node = [{ name = "A", address = "2001:db8::1" }, { name = "B", address = "2001:db8::2" }]
link = [{ name = "ab", from = "A", to = "B" }]
"#;

/// What two texts say as one.
pub(crate) fn read(alloc: Global, first: &str, second: &str) -> Result<Net, NetFault> {
    let text = format!(in alloc; "{first}{second}")?;
    read_net(alloc, text.as_bytes())
}

/// The network of two texts.
pub(crate) fn network(rt: &impl Abort, alloc: Global, first: &str, second: &str) -> Net {
    read(alloc, first, second).ok().expect(rt, "a network")
}

/// How what is read of two texts begins in a refusal: its number, its name and its place.
pub(crate) fn refusal(alloc: Global, first: &str, second: &str) -> Result<String, AllocError> {
    match read(alloc, first, second) {
        Ok(_) => format!(in alloc; "none"),
        Err(Fault(fault)) => format!(in alloc; "{} {fault}", fault.kind.number()),
        Err(NoMemory) => Err(AllocError),
    }
}
