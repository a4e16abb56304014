//! Laws of verdicts and texts, each the contract of a function that does nothing.

ghost use Rattle.std.specs.Prelude.{◌≡◌, ℕ, ◌+◌, List, ◌++◌, length, All, Ok};
ghost use Rattle.net_model.specs.Network.{Network};
ghost use Rattle.net_model.specs.NetworkRulesTerms.{IsNetwork};
ghost use Rattle.list_pack.specs.declared.types.Solution.{Solution};
ghost use Rattle.list_pack.specs.LegsValue.{LegsValue};
ghost use Rattle.list_pack.specs.LegsValueTerms.{KeepsLaws};
ghost use Rattle.list_pack.specs.Least.{IsSolution};
ghost use Rattle.list_certificate.specs.declared.certificate_types.Cert.{Cert};
ghost use Rattle.list_certificate.specs.declared.certificate_types.Verdict.{Verdict};
ghost use Rattle.list_certificate.specs.CertsTerms.{IsCert, certificate_of};
ghost use Rattle.list_certificate.specs.Verdicts.{IsVerdict};
ghost use Rattle.list_certificate.specs.Spelling.{spelled};
ghost use Rattle.list_certificate.specs.CertificateReading.{read_of};
ghost use Rattle.list_certificate.specs.CertificateReadingTerms.{IsNetworkOf};
ghost use Rattle.list_certificate.specs.CertificateLaws.{Shows, IsAcceptedBy, IsComment, lines_text};

/// What a certificate from anywhere shows holds: with `Least` its numbers are the least cost of a
/// path from the start to the end, with `NoList` no path leads there.
pub fn a_certificate_that_is_least_is_least()
    ensures { (v : LegsValue) (c : Cert) (verdict : Verdict) → KeepsLaws v → IsVerdict v c verdict
        → Shows v verdict }
{}

/// A certificate from anywhere has at most one verdict: the line that a failing test names, the
/// state that is not listed, and the least cost are determined by the legs and the certificate.
pub fn a_certificate_has_one_verdict()
    ensures { (v : LegsValue) (c : Cert) (a b : Verdict) → KeepsLaws v → IsCert v c
        → IsVerdict v c a
        → IsVerdict v c b → a ≡ b }
{}

/// The certificate of a solution is one to be checked, wherever its head stands, and shows what the
/// solution says: the start's least cost, or that there is no path.
pub fn a_solution_is_good()
    ensures is_cert { (v : LegsValue) (head : ℕ) (s : Solution) → IsSolution v s
        → IsCert v (certificate_of head s) }
    ensures accepted { (v : LegsValue) (head : ℕ) (s : Solution) → KeepsLaws v → IsSolution v s
        → IsAcceptedBy v head s s.path }
{}

/// What `print` spells of a solution, with what a SID costs by the legs, is read back as its
/// certificate, after any lines that begin with `#`, where the SIDs of the legs are those of the
/// network. The head stands in the line after the comments.
pub fn what_is_printed_is_read_back()
    ensures { (net : Network) (v : LegsValue) (comments : List (List ℕ)) (s : Solution)
        → IsNetwork net → KeepsLaws v → IsNetworkOf net v → IsSolution v s → All IsComment comments
        → read_of net v (lines_text comments ++ spelled net v.sid_cost s)
        ≡ Ok (certificate_of (1 + length comments) s) }
{}
