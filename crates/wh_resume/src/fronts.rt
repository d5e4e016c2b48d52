//! Fronts of texts.
#![tactic(auto)]

ghost use Rattle.std.specs.Prelude.{◌≡◌, true, false};
ghost use Rattle.wh_resume.specs.Resuming.{IsFront};

/// Whether a text is a front of these bytes.
pub(crate) fn is_front(text: &[u8], bytes: &[u8]) -> bool
    ensures front { result ≡ true → IsFront text.now bytes.now }
    ensures other { result ≡ false → IsFront text.now bytes.now → ⊥ }
{
    bytes.starts_with(text)
}
