//! The networks that are held, by their names.

ghost use Rattle.std.specs.Prelude.{◌≡◌, [], position, option_map, OnOk, OnErr};
ghost use Rattle.pce_engine.specs.EngineReplies.{is_named, network_named, has_room, with_network, without_network};

use crate::limits::MAX_NETWORKS;
use base::NoMemory;
use net_model::Name;
use pce_answers::HeldNet;
use std::alloc::Global;
use std::marker::Model;

/// A network that is held by a name.
#[derive(Drop)]
pub struct Holding {
    /// The name.
    pub name: Name,
    /// The network.
    pub network: HeldNet,
}

/// The networks that are held, each by a name of its own.
#[derive(Drop)]
pub struct Networks {
    all: Vec<Holding>,
}

impl Model for Networks {
    ghost use Rattle.std.specs.Prelude.{List};
    ghost use Rattle.pce_engine.specs.declared.networks.Holding.{Holding};

    ghost Value = { List Holding };

    ghost view = { λ n. n.all.items };
}

/// Whether a network is held by this name.
fn is_named(name: &Name, holding: &Holding) -> bool
    ensures { result ≡ is_named name.now holding.now }
{
    holding.name.as_bytes() == name.as_bytes()
}

/// The place of the network that is held by this name.
fn place_of(all: &[Holding], name: &Name) -> Option<usize>
    ensures { result ≡ position (is_named name.now) all.now }
{
    all.iter().position(|holding| is_named(name, holding))
}

/// The network that is held by this name.
fn find<'a>(all: &'a [Holding], name: &Name) -> Option<&'a HeldNet>
    ensures { option_map (λ net. net.now) result ≡ network_named name.now all.now }
{
    for holding in all {
        if is_named(name, holding) {
            return Some(&holding.network);
        }
    }
    None
}

/// Holds a network by a name, in place of the one that it holds, or behind the others.
fn put(all: &mut Vec<Holding>, name: Name, network: HeldNet) -> Result<(), NoMemory>
    ensures ok { OnOk result (all.new.items ≡ with_network name network all.old.items) }
    ensures err { OnErr result (all.new.items ≡ all.old.items) }
{
    let holding = Holding { name, network };
    match place_of(all.as_slice(), &holding.name) {
        Some(at) => all[at] = holding,
        None => all.push(holding)?,
    }
    Ok(())
}

/// Lets go of the network that is held by this name.
fn take_out(all: &mut Vec<Holding>, name: &Name)
    ensures { all.new.items ≡ without_network name.now all.old.items }
{
    all.retain(|holding| !is_named(name, holding));
}

impl Networks {
    ghost use Rattle.std.specs.Prelude.{[]};

    /// No network is held.
    pub fn new(alloc: Global) -> Networks
        ensures { result ≡ [] }
    {
        Networks {
            all: Vec::new(alloc),
        }
    }

    /// The network that is held by this name.
    pub fn named(&self, name: &Name) -> Option<&HeldNet>
        ensures { option_map (λ net. net.now) result ≡ network_named name.now self.now }
    {
        find(self.all.as_slice(), name)
    }

    /// Whether this name may come to hold a network: it holds one, or fewer than `MAX_NETWORKS` are
    /// held.
    pub fn has_room(&self, name: &Name) -> bool
        ensures { result ≡ has_room name.now self.now }
    {
        self.named(name).is_some() || self.all.len() < MAX_NETWORKS
    }

    /// Holds a network by a name, in place of the one that it holds, or behind the others. After
    /// want of memory all is held as it was.
    pub fn hold(&mut self, name: Name, network: HeldNet) -> Result<(), NoMemory>
        ensures ok { OnOk result (self.new ≡ with_network name network self.old) }
        ensures err { OnErr result (self.new ≡ self.old) }
    {
        put(&mut self.all, name, network)
    }

    /// Holds no network by this name any longer.
    pub fn release(&mut self, name: &Name)
        ensures { self.new ≡ without_network name.now self.old }
    {
        take_out(&mut self.all, name);
    }
}
