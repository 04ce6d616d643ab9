//! The law of forms, as the contract of a function without parameters, result and effect.
ghost use Rattle.std.specs.Prelude.{◌≡◌, true};
ghost use Rattle.syn_parse.specs.Form.{Form, is_sound, Meaning};

/// For every well-formed form: on visible streams the parser computes exactly the trees that the form derives, and fails
/// exactly if it derives none; on every stream a parser never returns more remaining tokens than it was given.
pub fn forms_mean_what_is_computed()
    ensures meaning { (f : Form) → is_sound f ≡ true → Meaning f }
{}
