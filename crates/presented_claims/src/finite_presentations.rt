//! Finite presentations are finite quotients: what a presentation says, in numbers, is what a certificate with a table
//! says. Laws, each the contract of a function that does nothing.
ghost use Rattle.std.specs.Prelude.{◌≡◌, ◌↔◌, ℕ, true};
ghost use Rattle.misere_theory.specs.Kinds.{IsHeapIn};
ghost use Rattle.misere_theory.specs.Quotients.{Represents};
ghost use Rattle.presentations.specs.declared.TheConstants.{LETTERS};
ghost use Rattle.normal_forms.specs.Forms.{NormalForms};
ghost use Rattle.presented_text.specs.Said.{PresentedSaid};
ghost use Rattle.presented_claims.specs.Claims.{has_word};
ghost use Rattle.presented_claims.specs.Presents.{Presents};
ghost use Rattle.presented_claims.specs.Numbered.{Numbers, AreNumbered, numbered_claim};

/// A presentation that is right, with its elements numbered, is the misère quotient of its heaps; and of all heaps up
/// to M, if these are its heaps, or of all heaps at all, if M is 0.
pub fn finite_presentations_are_quotients()
    ensures part { (c : PresentedSaid) (forms : NormalForms LETTERS c.relations) (b : Numbers)
        → Presents c → AreNumbered c b
        → Represents (λ n. has_word c n ≡ true) c.code (numbered_claim c forms b) }
    ensures heaps { (M : ℕ) (c : PresentedSaid) (forms : NormalForms LETTERS c.relations) (b : Numbers)
        → Presents c → AreNumbered c b
        → ((n : ℕ) → (has_word c n ≡ true) ↔ IsHeapIn M n)
        → Represents (IsHeapIn M) c.code (numbered_claim c forms b) }
{}
