//! The check of a certificate.

ghost use Rattle.std.specs.Prelude.{◌≡◌, ◌<◌, length, Some, None};
ghost use Rattle.list_pack.specs.Costs.{start};
ghost use Rattle.list_certificate.specs.Certs.{potential_at};
ghost use Rattle.list_certificate.specs.CertsTerms.{IsCert};
ghost use Rattle.list_certificate.specs.Verdicts.{AllPass, IsVerdict};
ghost use Rattle.list_certificate.specs.Tests.{FirstFault};

use crate::all_pass::all_pass;
use crate::certificate_types::{Cert, Verdict, Why};
use crate::firsts::{first_bad_line, first_failing};
use crate::path_lines::walked;
use crate::search::potential_at;
use list_pack::{Cost, Legs, State};

/// The verdict on a path, by the start's potential
fn verdict_on_path<L: Legs>(legs: &L, cert: &Cert, potential: Option<Cost>) -> Verdict
    requires pass { AllPass (L.seen legs.now) cert.now }
    requires none { cert.now.none ≡ None }
    requires path { 0 < length cert.now.path }
    requires potential { potential ≡ potential_at cert.now.potentials start }
    ensures { IsVerdict (L.seen legs.now) cert.now result }
{
    let spent = match walked(legs, cert.path.as_slice()) {
        Ok(spent) => spent,
        Err(line) => {
            return Verdict::No {
                line,
                why: Why::Path,
            };
        }
    };
    match potential {
        Some(cost)
            if u128::from(cost.containers) == spent.containers
                && u128::from(cost.sids) == spent.sids
                && u128::from(cost.hops) == spent.hops => {
            Verdict::Least {
                containers: cost.containers,
                sids: cost.sids,
                hops: cost.hops,
            }
        }
        Some(_) | None => Verdict::No {
            line: cert.end,
            why: Why::Tight,
        },
    }
}

/// The first state that doesn't pass; all pass where there is none
fn first_fault<L: Legs>(legs: &L, cert: &Cert) -> Option<Verdict>
    requires { IsCert (L.seen legs.now) cert.now }
    ensures { FirstFault (L.seen legs.now) cert.now result }
{
    let lines = cert.potentials.as_slice();
    if all_pass(legs, lines) {
        return None;
    }
    if let Some(line) = first_bad_line(legs, lines) {
        return Some(Verdict::No {
            line,
            why: Why::Edge,
        });
    }
    match first_failing(legs, lines) {
        None => None,
        Some(state) => Some(Verdict::No {
            line: cert.head,
            why: Why::Unlisted { state },
        }),
    }
}

/// What a certificate shows of legs: the first of its tests that fails with its line, or what it
/// shows where none does. Each edge and each move to the end costs what a SID costs by the legs.
/// Costs are compared by containers, then by SIDs, then by hops, and added as whole numbers.
///
/// 1. For each line with a potential, in order: along each edge from its state to a listed state or
///    to the end, the potential is at most the edge's cost and the potential there. Else `Edge`
///    with that line.
/// 2. For each state in order that is not listed: no edge leads to a listed state or to the end.
///    Else `Unlisted` with the line of the head.
/// 3. Where a line says that there is no path, the start is not listed. Else `Path` with that line.
///    Then the verdict is `NoList`.
/// 4. Else each line of the path goes along an edge from the state reached so far, the last to the
///    end and no other. Else `Path` with that line. The start is listed and the path costs its
///    potential. Else `Tight` with the line of the end. Then the verdict is `Least`.
///
/// It takes no memory.
pub fn check<L: Legs>(legs: &L, cert: &Cert) -> Verdict
    requires { IsCert (L.seen legs.now) cert.now }
    ensures { IsVerdict (L.seen legs.now) cert.now result }
{
    if let Some(verdict) = first_fault(legs, cert) {
        return verdict;
    }
    let lines = cert.potentials.as_slice();
    let start = State {
        position: 0,
        via: None,
        room: 0,
    };
    let potential = potential_at(legs, lines, start);
    match cert.none {
        Some(line) => match potential {
            None => Verdict::NoList,
            Some(_) => Verdict::No {
                line,
                why: Why::Path,
            },
        },
        None => verdict_on_path(legs, cert, potential),
    }
}
