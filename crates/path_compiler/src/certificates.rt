//! Certificates judged for what they say of lists.

ghost use Rattle.list_certificate.specs.CertsTerms.{IsCert};
ghost use Rattle.list_certificate.specs.Verdicts.{IsVerdict};
ghost use Rattle.path_compiler.specs.Checked.{Says, SaysOver};

use list_certificate::{Cert, Verdict, check};
use list_pack::{Legs, ListLegs};

/// What a certificate shows over any legs that mean lists: the first of its tests that fails, or
/// the least cost of a legal list that realizes what the legs are for, by containers, SIDs where the
/// legs count them, and need, or that none does; the cost is the least of the legal lists too that
/// hand over even one packet, with a hop limit in the place of a need one higher, or there are none.
/// It takes no memory.
pub fn checked_over<L: ListLegs>(legs: &L, cert: &Cert) -> Verdict
    requires { IsCert (L.seen legs.now) cert.now }
    ensures verdict { IsVerdict (L.seen legs.now) cert.now result }
    ensures says { Says (L.seen legs.now).sid_cost (L.network legs.now) (L.realizes legs.now)
        (L.executes legs.now) result }
    ensures handing { SaysOver (L.seen legs.now).sid_cost (L.network legs.now)
        (L.hands legs.now) result }
{
    legs.keeps_meaning();
    legs.steps();
    check(legs, cert)
}
