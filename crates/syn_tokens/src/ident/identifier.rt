//! The spelling of identifiers.
ghost use Rattle.std.specs.Prelude.{◌≡◌};
ghost use Rattle.std.specs.List.{list_all};
ghost use Rattle.std.specs.Str.{chars};
ghost use Rattle.unicode_ident.specs.Ident.{is_xid_continue};
ghost use Rattle.syn_tokens.specs.Idents.{may_start, is_name, is_identifier};

use unicode_ident::{is_xid_continue, is_xid_start};

/// Whether the text is an identifier: `_` or a character that may start an identifier in Unicode, followed by characters that
/// may continue one; optionally with `r#` before it.
#[tactic(auto, unfolding(crate::specs::Idents::is_identifier, crate::specs::Idents::without_raw))]
pub fn is_identifier(text: &str) -> bool
    ensures { result ≡ is_identifier text.now }
{
    match text.strip_prefix("r#") {
        Some(name) => is_name(name),
        None => is_name(text),
    }
}

/// Whether the text is an identifier without `r#`.
fn is_name(text: &str) -> bool
    ensures { result ≡ is_name (chars text.now) }
{
    let mut characters = text.chars();
    match characters.next() {
        Some(first) => may_start(first) && all_continue(characters.as_str()),
        None => false,
    }
}

fn may_start(character: char) -> bool
    ensures { result ≡ may_start character }
{
    character == '_' || is_xid_start(character)
}

/// Whether all these characters may continue an identifier.
fn all_continue(text: &str) -> bool
    ensures { result ≡ list_all is_xid_continue (chars text.now) }
{
    for character in text.chars() {
        if !is_xid_continue(character) {
            return false;
        }
    }
    true
}
