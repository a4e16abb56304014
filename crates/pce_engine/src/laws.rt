//! Laws of the definitions: each is the contract of an empty function.

ghost use Rattle.std.specs.Prelude.{◌≡◌, ◌≢◌, ℕ, List, None, Some, Result};
ghost use Rattle.net_model.specs.Network.{Network};
ghost use Rattle.pce_protocol.specs.declared.request.Request.{Request};
ghost use Rattle.pce_protocol.specs.declared.reply.Answer.{Answer};
ghost use Rattle.pce_protocol.specs.declared.reply.ReplyError.{ReplyError};
ghost use Rattle.pce_engine.specs.declared.networks.Holding.{Holding};
ghost use Rattle.pce_engine.specs.EngineReplies.{PceState, network_named, with_network, without_network, Does};
ghost use Rattle.pce_engine.specs.EngineTerms.{changed_name};

/// No request changes a network that it doesn't name: by every name but its own the same is held
/// as before.
pub fn other_networks_stay()
    ensures { (request : Request) (before behind : PceState) (reply : Result Answer ReplyError)
        (name : List ℕ) → Does request before reply behind → changed_name request ≢ Some name
        → network_named name behind.held ≡ network_named name before.held }
{}

/// A network that came to be held is found by its name, and one that was dropped isn't.
pub fn networks_are_found_until_they_are_dropped()
    ensures held { (name : List ℕ) (net : Network) (held : List Holding)
        → network_named name (with_network name net held) ≡ Some net }
    ensures dropped { (name : List ℕ) (held : List Holding)
        → network_named name (without_network name held) ≡ None }
{}
