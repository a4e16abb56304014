//! Laws of the definitions: each is the contract of an empty function.

ghost use Rattle.std.specs.Prelude.{◌≡◌, ◌≢◌, ◌⊎◌, ◌↔◌, ℕ, ◌+◌, true, [], Some, None, slice_get, IsOk};
ghost use Rattle.v6_addr.specs.Address.{PrefixValue, IsInside};
ghost use Rattle.srv6_rules.specs.Behaviours.{goes_on};
ghost use Rattle.srv6_rules.specs.Compressed.{csid_of};
ghost use Rattle.srv6_rules.specs.declared.sid.Csid.TheVariants.{Plain};
ghost use Rattle.srv6_rules.specs.declared.family.Family.TheVariants.{V6};
ghost use Rattle.srv6_rules.specs.declared.sid.SidEntry.{SidEntry};
ghost use Rattle.net_model.specs.declared.net.Hit.TheVariants.{Sid};
ghost use Rattle.net_model.specs.Network.{Network};
ghost use Rattle.net_model.specs.declared.parts.Block.{Block};
ghost use Rattle.net_model.specs.declared.parts.BlockKind.TheVariants.{Replace};
ghost use Rattle.net_model.specs.NetworkRules.{block_of};
ghost use Rattle.net_model.specs.NetworkRulesTerms.{IsNetwork};
ghost use Rattle.net_model.specs.Best.{lookup_of};
ghost use Rattle.net_flatness.specs.Nests.{IsNest};
ghost use Rattle.net_flatness.specs.NestsTerms.{IsOwn};
ghost use Rattle.net_flatness.specs.Flat.{flatness_of, IsFlat, Overlap};
ghost use Rattle.net_flatness.specs.FlatTerms.{HasWholeUnits};

/// A flat network treats all own addresses of a SID alike, those in its prefix that no SID nested
/// in it holds: in each table of each node they have the same best match as IPv6 addresses; at the
/// SID's own node that match in table 0 is the SID; and where another SID is the match, the two
/// have one prefix.
pub fn flat_networks_treat_addresses_alike()
    ensures alike { (net : Network) (n : ℕ) (s : SidEntry) (node table a b : ℕ) → IsFlat net
        → slice_get net.sids n ≡ Some s → IsOwn net s a → IsOwn net s b
        → lookup_of net node table V6 a ≡ lookup_of net node table V6 b }
    ensures own { (net : Network) (n : ℕ) (s : SidEntry) (a : ℕ) → IsNetwork net → IsFlat net
        → slice_get net.sids n ≡ Some s → IsOwn net s a
        → lookup_of net s.node 0 V6 a ≡ Sid n }
    ensures one { (net : Network) (n m : ℕ) (s t : SidEntry) (node table a : ℕ)
        → IsNetwork net → IsFlat net → slice_get net.sids n ≡ Some s → IsOwn net s a
        → lookup_of net node table V6 a ≡ Sid m → slice_get net.sids m ≡ Some t
        → s.prefix ≡ t.prefix }
{}

/// Laws on SIDs nested in another SID of their node: a SID that lies strictly inside another in a
/// flat network is nested in it; a SID nested in one has none nested in it; and in a network that
/// keeps the rules the block that a nest lies in is as long as both SIDs tell.
pub fn nested_sids()
    ensures inside { (net : Network) (n m : ℕ) (s t : SidEntry) → IsFlat net
        → slice_get net.sids n ≡ Some s → slice_get net.sids m ≡ Some t
        → IsInside t.prefix s.prefix → IsNest net s t }
    ensures depth { (net : Network) (s t u : SidEntry) → IsNest net s t → ¬ IsNest net t u }
    ensures block { (net : Network) (n : ℕ) (s t : SidEntry) → IsNetwork net
        → slice_get net.sids n ≡ Some s → (nest : IsNest net s t)
        → s.block_len ≡ nest.block.prefix.len }
{}

/// A network of which nothing is hidden is flat exactly where it is refused for nothing.
pub fn flat_networks_are_refused_for_nothing()
    ensures { (net : Network) → net.hidden ≡ [] → IsOk (flatness_of net) ↔ IsFlat net }
{}

/// In a flat network each SID that lies strictly inside a block has some whole units of 16 bits
/// after the block's, in a REPLACE block as many bits as a compressed SID of the block, and its
/// CSID is not 0. A SID in no block is not compressed (RFC 9800 section 3).
pub fn sids_of_blocks_are_whole_units()
    ensures units { (net : Network) (n : ℕ) (s : SidEntry) (b : Block) → IsNetwork net
        → IsFlat net → slice_get net.sids n ≡ Some s → block_of net.blocks s.prefix ≡ Some b
        → HasWholeUnits b s }
    ensures replace { (net : Network) (n : ℕ) (s : SidEntry) (b : Block) → IsFlat net
        → slice_get net.sids n ≡ Some s → block_of net.blocks s.prefix ≡ Some b
        → b.kind ≡ Replace → s.prefix.len ≡ b.prefix.len + b.csid }
    ensures some { (net : Network) (n : ℕ) (s : SidEntry) (b : Block) → IsFlat net
        → slice_get net.sids n ≡ Some s → block_of net.blocks s.prefix ≡ Some b
        → csid_of b.prefix.len s.prefix ≢ 0 }
    ensures plain { (net : Network) (n : ℕ) (s : SidEntry) → IsNetwork net
        → slice_get net.sids n ≡ Some s → block_of net.blocks s.prefix ≡ None
        → s.csid ≡ Plain }
{}

/// In a flat network SIDs on one prefix that make the next segment the destination are compressed
/// alike, also where they stand at one node, where they are one SID.
pub fn prefixes_have_one_flavour()
    ensures { (net : Network) (n m : ℕ) (s t : SidEntry) → IsNetwork net → IsFlat net
        → slice_get net.sids n ≡ Some s → slice_get net.sids m ≡ Some t → s.prefix ≡ t.prefix
        → goes_on s ≡ true → goes_on t ≡ true → s.csid ≡ t.csid }
{}

/// In a flat network the prefix of a SID lies strictly inside a block or has no address of it; and since blocks do not overlap, a block that a prefix lies strictly inside is the
/// prefix's block.
pub fn blocks_hold_or_miss()
    ensures sids { (net : Network) (i n : ℕ) (b : Block) (s : SidEntry) → IsFlat net
        → slice_get net.blocks i ≡ Some b → slice_get net.sids n ≡ Some s
        → IsInside s.prefix b.prefix ⊎ (¬ Overlap s.prefix b.prefix) }
    ensures one { (net : Network) (i : ℕ) (b : Block) (p : PrefixValue) → IsNetwork net
        → slice_get net.blocks i ≡ Some b → IsInside p b.prefix
        → block_of net.blocks p ≡ Some b }
{}
