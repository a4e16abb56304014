//! Kinds of addresses (RFC 4291 section 2.4).

ghost use Rattle.std.specs.Prelude.{◌≡◌};
ghost use Rattle.v6_addr.specs.AddressKinds.{is_multicast, is_unspecified};

use crate::address::Addr;

impl Addr {
    /// Whether it is the unspecified address `::` (RFC 4291 section 2.5.2).
    #[tactic(auto, unfolding(crate::specs::AddressKinds::is_unspecified))]
    pub fn is_unspecified(self) -> bool
        ensures { result ≡ is_unspecified self.value }
    {
        self.value == 0
    }

    /// Whether it is multicast, in ff00::/8 (RFC 4291 section 2.7).
    #[tactic(auto, unfolding(crate::specs::AddressKinds::is_multicast))]
    pub fn is_multicast(self) -> bool
        ensures { result ≡ is_multicast self.value }
    {
        self.value >> 120 == 255
    }
}
