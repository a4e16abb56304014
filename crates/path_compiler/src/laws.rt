//! Laws of compiled lists and certificates, each the contract of a function that does nothing.

ghost use Rattle.std.specs.Prelude.{◌≡◌, ◌≢◌, Bool, [], Result, Err};
ghost use Rattle.intent_reader.specs.declared.intent.Intent.{Intent};
ghost use Rattle.list_pack.specs.declared.types.Solution.{Solution};
ghost use Rattle.list_pack.specs.Least.{IsSolution};
ghost use Rattle.list_certificate.specs.declared.certificate_types.Verdict.{Verdict};
ghost use Rattle.list_certificate.specs.declared.certificate_types.Verdict.TheVariants.{NoList};
ghost use Rattle.path_compiler.specs.declared.compiled.Compiled.{Compiled};
ghost use Rattle.path_compiler.specs.declared.compiled.CompileFault.{CompileFault};
ghost use Rattle.path_compiler.specs.Checked.{Says, SaysOver};
ghost use Rattle.path_compiler.specs.CheckedTerms.{CertifiesAnswerOver, CertifiesOver, least_of};
ghost use Rattle.path_compiler.specs.declared.compiled.CompileFault.TheVariants as faults;
ghost use Rattle.path_compiler.specs.Compiled.{AnswersOver, IsFound};

use list_pack::ListLegs;

/// Over any legs that mean lists the certificate of what the search found, wherever its head
/// stands, is judged `Least` with exactly the chosen list's containers, SIDs where the legs count
/// them, and need, in either form of the header, and `NoList` where no path was found. So it is for
/// each answer over them, also where the least list is too long or its need not below the hop
/// limit.
pub fn a_certificate_tells_what_was_found<L: ListLegs>(legs: &L)
    ensures found { (reduced : Bool) (c : Compiled)
        → IsFound (L.seen legs.now) (L.network legs.now) (L.realizes legs.now) (L.executes legs.now)
        reduced c
        → CertifiesOver (L.seen legs.now) c.solution (least_of (L.seen legs.now) c) }
    ensures none { (s : Solution) → IsSolution (L.seen legs.now) s → s.path ≡ []
        → CertifiesOver (L.seen legs.now) s NoList }
    ensures answers { (intent : Intent) (answer : Result Compiled CompileFault)
        → AnswersOver (L.seen legs.now) (L.network legs.now) (L.realizes legs.now)
        (L.executes legs.now) intent answer
        → CertifiesAnswerOver (L.seen legs.now) answer }
{
    legs.keeps_meaning();
    legs.steps();
}

/// But for want of memory an intent has one answer over any legs: one refusal, or one list with its
/// numbers; and what the search found is one too.
pub fn legs_have_one_answer<L: ListLegs>(legs: &L)
    ensures { (intent : Intent) (a b : Result Compiled CompileFault)
        → AnswersOver (L.seen legs.now) (L.network legs.now) (L.realizes legs.now)
        (L.executes legs.now) intent a
        → AnswersOver (L.seen legs.now) (L.network legs.now) (L.realizes legs.now)
        (L.executes legs.now) intent b
        → a ≢ Err faults.NoMemory → b ≢ Err faults.NoMemory → a ≡ b }
{}

/// What a verdict says of the legal lists that realize what legs are for holds of those too that
/// hand over even one packet at one hop limit: `Least` gives the least cost of these, with a hop
/// limit in the place of a need one higher, and with `NoList` there are none.
pub fn what_is_said_holds_of_lists_that_hand_over<L: ListLegs>(legs: &L)
    ensures { (verdict : Verdict)
        → Says (L.seen legs.now).sid_cost (L.network legs.now) (L.realizes legs.now)
        (L.executes legs.now) verdict
        → SaysOver (L.seen legs.now).sid_cost (L.network legs.now) (L.hands legs.now) verdict }
{
    legs.keeps_meaning();
}
