//! Laws of the certificate text.

ghost use Rattle.std.specs.Prelude.{◌≡◌, ◌≢◌, List, All};
ghost use Rattle.ba_steps.specs.declared.step.CertStep.{CertStep};
ghost use Rattle.ba_cert.specs.declared.head.CertHead.{CertHead};
ghost use Rattle.ba_cert.specs.Text.{HasLine, IsHead, IsOfOne, line_of, old_text_of, settings_line, text_of};

/// Law: no line is that of two steps. Nothing is done.
pub fn line_is_of_one_step()
    ensures { IsOfOne HasLine line_of }
{}

/// Law: no line is that of two settings. Nothing is done.
pub fn settings_line_is_of_one_head()
    ensures { IsOfOne IsHead settings_line }
{}

/// Law: no certificate is the text of two settings or of two lists of steps. Nothing is done.
pub fn text_is_of_one_derivation()
    ensures { (h other : CertHead) (steps others : List CertStep) → IsHead h → IsHead other
        → All HasLine steps → All HasLine others
        → text_of h steps ≡ text_of other others → (h ≡ other) × (steps ≡ others) }
{}

/// Law: the same for version 1, and no text is of both versions. Nothing is done.
pub fn old_text_is_of_one_derivation()
    ensures once { IsOfOne (All HasLine) old_text_of }
    ensures apart { (h : CertHead) (new old : List CertStep) → text_of h new ≢ old_text_of old }
{}
