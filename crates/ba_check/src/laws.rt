//! Laws of the definitions, each the clause of a function that does nothing.

ghost use Rattle.std.specs.Prelude.{◌≡◌, ◌<◌, ◌^◌, ◌↔◌, ◌++◌, ℕ, List, Some, length};
ghost use Rattle.ba_cert.specs.declared.head.CertHead.{CertHead};
ghost use Rattle.ba_cert.specs.Text.{IsHead, text_of};
ghost use Rattle.ba_check.specs.Findings.{Accepted, IsCertificateOf, Refused, finding_of, first_refused};
ghost use Rattle.ba_derivations.specs.Derivations.{DerivesOver, Problem, Verdict};
ghost use Rattle.ba_steps.specs.declared.step.CertStep.{CertStep};
ghost use Rattle.ba_tree.specs.Least.{WeightList};

/// Law: a text is accepted with a verdict exactly if it is that of steps that derive the verdict. It has the
/// settings of the call, or is of version 1. So a text that is no certificate is refused.
pub fn accepted_law()
    ensures { (h : CertHead) (p : Problem) (text : List ℕ) (verdict : Verdict)
        → (finding_of h p text ≡ Accepted verdict) ↔ IsCertificateOf h p text verdict }
{}

/// Law: the text of steps that derive a verdict over a faithful encoding is accepted with it. So a completed
/// certificate of a search is accepted over the same formula.
pub fn written_law()
    ensures { (h : CertHead) (weights : WeightList) (p : Problem) (steps : List CertStep)
        (v : Verdict) → IsHead h → length weights < 2 ^ 32 → DerivesOver weights p steps v
        → finding_of h p (text_of h steps) ≡ Accepted v }
{}

/// Law: the first refused line stays the first, whatever follows, and is what is found of the text.
pub fn refused_law()
    ensures stays { (h : CertHead) (p : Problem) (text more : List ℕ) (refusal : ℕ × ℕ)
        → first_refused h p text ≡ Some refusal → first_refused h p (text ++ more) ≡ Some refusal }
    ensures found { (h : CertHead) (p : Problem) (text : List ℕ) (line code : ℕ)
        → first_refused h p text ≡ Some (line, code) → finding_of h p text ≡ Refused line code }
{}
