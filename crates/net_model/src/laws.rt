//! Laws of the definitions: each is the contract of an empty function.

ghost use Rattle.std.specs.Prelude.{◌≡◌, ◌≢◌, ◌↔◌, ℕ, Bool, true, false, List, [], Some, None, slice_get, position, Contains, Ok};
ghost use Rattle.v6_addr.specs.Address.{PrefixValue, Holds};
ghost use Rattle.srv6_rules.specs.Behaviours.{goes_on};
ghost use Rattle.srv6_rules.specs.CompressedStepsTerms.{SuitsCompression};
ghost use Rattle.srv6_rules.specs.declared.sid.Csid.TheVariants.{Next};
ghost use Rattle.srv6_rules.specs.declared.family.Family.{Family};
ghost use Rattle.srv6_rules.specs.declared.family.Family.TheVariants.{V6};
ghost use Rattle.srv6_rules.specs.declared.sid.SidEntry.{SidEntry};
ghost use Rattle.net_model.specs.declared.net.Hit.{Hit};
ghost use Rattle.net_model.specs.declared.net.Hit.TheVariants.{Sid};
ghost use Rattle.net_model.specs.Network.{Network};
ghost use Rattle.net_model.specs.declared.parts.Link.{Link};
ghost use Rattle.net_model.specs.declared.parts.Block.{Block};
ghost use Rattle.net_model.specs.NetworkRules.{is_link_set, block_of};
ghost use Rattle.net_model.specs.NetworkRulesTerms.{IsNetwork};
ghost use Rattle.net_model.specs.NetworkKeeps.{IsLinkSet, IsBlockOf, IsUnflavoured, Keeps};
ghost use Rattle.net_model.specs.declared.standing.Standing.{Standing};
ghost use Rattle.net_model.specs.NetworkJudging.{judging};
ghost use Rattle.net_model.specs.NetworkJudgingTerms.{InRange};
ghost use Rattle.net_model.specs.Best.{Entry, entries_of, lookup_of};
ghost use Rattle.net_model.specs.BestTerms.{IsBest};
ghost use Rattle.net_model.specs.Entries.{IsEntry};

/// Best match has one answer in a network that keeps the rules, and the look-up gives it (RFC 1812
/// section 5.2.4.3, rule 2; which of equally long entries is best is an own rule).
pub fn best_match_is_one()
    ensures found { (net : Network) (node table : ℕ) (family : Family) (a : ℕ)
        → IsBest net node table family a (lookup_of net node table family a) }
    ensures one { (net : Network) (node table : ℕ) (family : Family) (a : ℕ) (h k : Hit)
        → IsNetwork net → IsBest net node table family a h → IsBest net node table family a k
        → h ≡ k }
{}

/// The entries of a node's table are its SIDs and its address in table 0 of IPv6, and its routes in
/// their tables of their family, as far as they are shown.
pub fn entries_are_its_own()
    ensures { (net : Network) (node table : ℕ) (family : Family) (e : Entry)
        → Contains (entries_of net node table family) e ↔ IsEntry net node table family e }
{}

/// A SID that an address is looked up to is a SID of that node, in table 0 of IPv6, and holds the
/// address (RFC 8754 section 4.3; that SIDs stand in table 0 is an own rule).
pub fn matched_sids_hold_the_address()
    ensures { (net : Network) (m : ℕ) (t : SidEntry) (node table : ℕ) (family : Family) (a : ℕ)
        → lookup_of net node table family a ≡ Sid m → slice_get net.sids m ≡ Some t
        → (t.node ≡ node) × (table ≡ 0) × (family ≡ V6) × Holds t.prefix a }
{}

/// A network that keeps the rules has each of the facts that follow from them, and a set that
/// passes the test of sets is some links of the node, each once.
pub fn rules_mean_their_facts()
    ensures network { (net : Network) → IsNetwork net → Keeps net }
    ensures set { (links : List Link) (node : ℕ) (set : List ℕ) → is_link_set links node set ≡ true
        → IsLinkSet links node set }
{}

/// The block of a prefix is one that it lies strictly inside; with none it lies strictly inside no
/// block, so a block is not its own.
pub fn blocks_hold_their_sids()
    ensures { (blocks : List Block) (p : PrefixValue) → IsBlockOf blocks p (block_of blocks p) }
{}

/// In a network that keeps the rules the compression of each SID suits the lengths of its prefix
/// and its block (RFC 9800 sections 4.1 and 4.2). A SID that does not go on has no flavours (RFC
/// 8986 section 4.16) and is not of NEXT-CSID.
pub fn sids_suit_their_compression()
    ensures suits { (net : Network) (n : ℕ) (s : SidEntry) → Keeps net
        → slice_get net.sids n ≡ Some s → SuitsCompression s }
    ensures unflavoured { (net : Network) (n : ℕ) (s : SidEntry) → Keeps net
        → slice_get net.sids n ≡ Some s → goes_on s ≡ false → IsUnflavoured s }
    ensures not_next { (net : Network) (n : ℕ) (s : SidEntry) → Keeps net
        → slice_get net.sids n ≡ Some s → goes_on s ≡ false → s.csid ≢ Next }
{}

/// What the place that a test finds in a list means: its item passes the test, and with no place
/// none of the items passes.
pub fn places_are_of_passing_items<X>()
    ensures some { (test : X → Bool) (items : List X) (i : ℕ) → position test items ≡ Some i
        → (x : X) × (slice_get items i ≡ Some x) × (test x ≡ true) }
    ensures none { (test : X → Bool) (items : List X) → position test items ≡ None
        → (i : ℕ) (x : X) → slice_get items i ≡ Some x → test x ≡ false }
{}

/// Parts in range have no fault exactly where the network keeps its rules; where SIDs are said to
/// have other keys than their behaviours take, or a flavour twice, no fault is still enough.
pub fn no_fault_is_keeping_the_rules()
    ensures exact { (net : Network) → InRange net → judging net [] ≡ Ok tt ↔ IsNetwork net }
    ensures enough { (net : Network) (standings : List Standing) → InRange net
        → judging net standings ≡ Ok tt → IsNetwork net }
{}
