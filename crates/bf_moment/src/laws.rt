//! Laws of moments as texts.
ghost use Rattle.std.specs.Prelude.{◌≡◌, ◌↔◌, ℕ, ℤ, List, true};
ghost use Rattle.bf_moment.specs.Moment.{IsShown, IsWhole, moment_text};
ghost use Rattle.bf_moment.specs.Long.{is_long, IsTextOfMoment};

/// A law: no two moments of whole seconds have one text.
pub fn moments_differ_in_text()
    ensures { (m n : ℤ) → IsShown m → IsShown n → IsWhole m → IsWhole n → moment_text m
        ≡ moment_text n → m ≡ n }
{}

/// A law: the texts of the long form are those that are written of moments.
pub fn long_form_is_what_is_written()
    ensures { (text : List ℕ) → (is_long text ≡ true) ↔ IsTextOfMoment text }
{}
