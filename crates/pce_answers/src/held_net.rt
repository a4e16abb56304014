//! Networks that are held.

ghost use Rattle.std.specs.Prelude.{◌≡◌, [], IfOk};
ghost use Rattle.net_flatness.specs.Flat.{flatness_of};
ghost use Rattle.pce_answers.specs.NetAnswers.{held_of};

use crate::why::why_refused;
use base::NoMemory;
use command_output::refusal_of_not_flat;
use net_flatness::{NotFlat, compilable};
use net_model::Net;
use pce_protocol::Held;
use std::alloc::Global;
use std::marker::Model;

/// A network of which nothing is hidden, and whether it is flat, which is tested once. Contracts
/// see the network.
#[derive(Drop)]
pub struct HeldNet {
    net: Net,
    flatness: Result<(), NotFlat>,
}

impl Model for HeldNet {
    ghost use Rattle.std.specs.Prelude.{◌≡◌, []};
    ghost use Rattle.net_model.specs.Network.{Network};
    ghost use Rattle.net_flatness.specs.Flat.{flatness_of};

    ghost Value = { Network };

    ghost view = { λ held. held.net };

    ghost invariant = { λ held. (held.net.hidden ≡ []) × (held.flatness ≡ flatness_of held.net) };
}

impl HeldNet {
    /// The network, with the answer of `compilable` about it.
    pub fn new(alloc: Global, net: Net) -> HeldNet
        requires { net.hidden ≡ [] }
        ensures { result ≡ net }
    {
        let flatness = compilable(alloc, &net);
        HeldNet { net, flatness }
    }

    /// The network.
    pub fn net(&self) -> &Net
        ensures net { result.now ≡ self.now }
        ensures whole { self.now.hidden ≡ [] }
    {
        &self.net
    }

    /// Whether it is flat, or the first reason why it isn't.
    pub fn flatness(&self) -> &Result<(), NotFlat>
        ensures { result.now ≡ flatness_of self.now }
    {
        &self.flatness
    }

    /// What is told of it when it comes to be held.
    pub fn told(&self, alloc: Global) -> Result<Held, NoMemory>
        ensures { IfOk result (λ held. held ≡ held_of self.now) }
    {
        let net = &self.net;
        let not_flat = match &self.flatness {
            Ok(()) => None,
            Err(why) => Some(why_refused(alloc, &refusal_of_not_flat(net, why))?),
        };
        Ok(Held {
            links: net.links() as usize,
            nodes: net.nodes() as usize,
            routes: net.routes() as usize,
            sids: net.sids() as usize,
            not_flat,
        })
    }
}
