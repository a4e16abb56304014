//! The parts of a network once more.

ghost use Rattle.std.specs.Prelude.{◌≡◌, IfOk};
ghost use Rattle.net_model.specs.NetworkTerms.{network_of};

use crate::copies::copy_all;
use crate::net::Net;
use crate::parts::NetParts;
use std::alloc::{AllocError, Global};

/// A copy of parts.
fn copied_parts(alloc: Global, parts: &NetParts) -> Result<NetParts, AllocError>
    ensures { IfOk result (λ copy. network_of copy ≡ network_of parts.now) }
{
    Ok(NetParts {
        blocks: copy_all(alloc, parts.blocks.as_slice())?,
        nodes: copy_all(alloc, parts.nodes.as_slice())?,
        links: copy_all(alloc, parts.links.as_slice())?,
        routes: copy_all(alloc, parts.routes.as_slice())?,
        policies: copy_all(alloc, parts.policies.as_slice())?,
        titles: copy_all(alloc, parts.titles.as_slice())?,
        sids: copy_all(alloc, parts.sids.as_slice())?,
    })
}

impl Net {
    ghost use Rattle.std.specs.Prelude.{◌≡◌, IfOk};
    ghost use Rattle.net_model.specs.NetworkTerms.{network_of};

    /// The network's parts once more, in memory of their own, whatever of it is hidden. The one error
    /// is want of memory.
    pub fn copy_parts(&self, alloc: Global) -> Result<NetParts, AllocError>
        ensures { IfOk result (λ copy.
            record (network_of copy) { hidden = self.now.hidden } ≡ self.now) }
    {
        copied_parts(alloc, self.parts())
    }
}
