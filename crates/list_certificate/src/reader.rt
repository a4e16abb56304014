//! The reading of a certificate.

ghost use Rattle.std.specs.Prelude.{◌≤◌, length, IfOk};
ghost use Rattle.list_certificate.specs.CertsTerms.{IsCert};
ghost use Rattle.list_certificate.specs.CertificateReading as reading;
ghost use Rattle.list_certificate.specs.CertificateReadingTerms as reading_terms;

use crate::certificate_types::{Cert, CertFault};
use crate::draft::{Draft, Progress, with_line};
use crate::item::item_of;
use crate::line_words::cut;
use base::Seq;
use list_pack::Legs;
use net_model::{MAX_TEXT_BYTES, Net};
use std::alloc::Global;

/// The certificate of what was read, where nothing follows its end
fn finished(draft: Draft, line: u32, last: &[u8]) -> Result<Cert, CertFault>
    ensures { reading_terms.GivesCertificate result (reading.ended
        (reading_terms.read_value draft) line last.now) }
{
    match draft.stage {
        Progress::AtEnd if last.is_empty() => Ok(Cert {
            head: draft.head,
            potentials: Seq::new(draft.potentials),
            path: Seq::new(draft.path),
            none: draft.none,
            end: draft.end,
        }),
        Progress::BeforeHead
        | Progress::AfterHead
        | Progress::InPath
        | Progress::BeforeEnd
        | Progress::AtEnd => Err(CertFault::BadCert { line }),
    }
}

/// The certificate that a text of at most 4 MiB spells, for legs of the network; its form is the
/// second where SIDs cost something by the legs, else the first (see `print`). Lines that begin
/// with `#` may stand before its head; the states of its potentials ascend by position, prefix
/// value, prefix length, node and room, and the start comes first; a SID is named by any text of
/// its prefix, and where another SID of the network has that prefix too, by `@` and the name of its
/// node after it. `BadCert` has the first line that is outside the grammar of this form or names
/// no state of the legs, counted from 1, so the head of a text of the other form; where there is
/// none and the text ends too early, the line after the last. `NoMemory` says nothing about the
/// text.
pub fn read<L: Legs>(alloc: Global, net: &Net, legs: &L, text: &[u8]) -> Result<Cert, CertFault>
    requires net { reading_terms.IsNetworkOf net.now (L.seen legs.now) }
    requires few { length text.now ≤ MAX_TEXT_BYTES }
    ensures value { reading_terms.GivesCertificate result
        (reading.read_of net.now (L.seen legs.now) text.now) }
    ensures cert { IfOk result (IsCert (L.seen legs.now)) }
{
    let mut draft = Draft::new(alloc);
    let mut rest = text;
    let mut line: u32 = 1;
    loop {
        let Some(parts) = cut(rest, b'\n') else {
            return finished(draft, line, rest);
        };
        let item = item_of(net, legs, parts.front);
        match with_line(net, legs, draft, line, item)? {
            Some(more) => draft = more,
            None => return Err(CertFault::BadCert { line }),
        }
        rest = parts.rest;
        line += 1;
    }
}
