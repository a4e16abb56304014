//! From the text of a description to its network.

ghost use Rattle.std.specs.Prelude.{◌≡◌, [], IfOk};
ghost use Rattle.text_faults.specs.TextReading.{Gives};
ghost use Rattle.net_model.specs.NetworkJudgingTerms.{InRange};
ghost use Rattle.net_reader.specs.Joining.{joined};
ghost use Rattle.net_reader.specs.NetworkReading.{judged_network, net_in};

use crate::joined_parts::join;
use crate::standings::standings;
use net_model::Net;
use net_syntax::{Description, read_description};
use std::alloc::Global;
use text_faults::NetFault;

/// The network of what is described, or the first fault of its parts, the tables block, node, link,
/// route, policy and sid in this order, as `net_model::Net::build` says them. `NoMemory` may come at
/// any time.
#[tactic(auto, using(crate::proofs::ReadLemmas::judging_said))]
pub fn judged_net(alloc: Global, said: &Description) -> Result<Net, NetFault>
    requires { InRange (joined said.now) }
    ensures judged { Gives (λ net. net) result (judged_network said.now) }
    ensures whole { IfOk result (λ net. net.hidden ≡ []) }
{
    let standings = standings(alloc, said.sids.as_slice())?;
    let parts = join(alloc, said)?;
    Net::build(alloc, parts, standings.as_slice())
}

/// The network that a description's text gives, or its first fault.
///
/// `NotToml` comes exactly where the bytes are not UTF-8 or not TOML. Else the faults of shape come
/// first: `UnknownKey` of the whole, and then those of the tables block, node, link, route, policy
/// and sid in this order, as `net_syntax::describe` says them. Where there is none in any table, the
/// faults of the parts come, the tables once more in this order, as `net_model::Net::build` says
/// them. `NoMemory` may come at any time, and says nothing about the text.
#[tactic(auto, using(crate::proofs::ReadLemmas::reading))]
pub fn read_net(alloc: Global, text: &[u8]) -> Result<Net, NetFault>
    ensures judged { Gives (λ net. net) result (net_in text.now) }
    ensures whole { IfOk result (λ net. net.hidden ≡ []) }
{
    let said = read_description(alloc, text)?;
    judged_net(alloc, &said)
}
