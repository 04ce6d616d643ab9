//! Keywords: identifiers that are not names.
ghost use Rattle.std.specs.Prelude.{◌≡◌, ◌<◌, length, map};
ghost use Rattle.std.specs.List.{list_any};
ghost use Rattle.std.specs.Str.{bytes_eq};
ghost use Rattle.syn_tokens.specs.Idents.{is_keyword};
ghost use Rattle.syn_tokens.specs.Keywords.{texts, at_place, keywords_from};

/// One row for each first letter, `a` to `z`.
const BY_LETTER: [&[&str]; 26] = [
    &["abstract", "as", "async", "await"],
    &["become", "box", "break"],
    &["const", "continue", "crate"],
    &["do", "dyn"],
    &["else", "enum", "extern"],
    &["false", "final", "fn", "for"],
    &[],
    &[],
    &["if", "impl", "in"],
    &[],
    &[],
    &["let", "loop"],
    &["macro", "match", "mod", "move", "mut"],
    &[],
    &["override"],
    &["priv", "pub"],
    &[],
    &["ref", "return"],
    &["self", "static", "struct", "super"],
    &["trait", "true", "try", "type", "typeof"],
    &["unsafe", "unsized", "use"],
    &["virtual"],
    &["where", "while"],
    &[],
    &["yield"],
    &[],
];

/// Keywords with another first character.
const OTHERS: [&str; 2] = ["_", "Self"];

/// Whether the text is a keyword, such as `struct`.
pub fn is_keyword(text: &str) -> bool
    ensures { result ≡ is_keyword text.now }
{
    match text.as_bytes().first() {
        Some(first) => is_among(keywords_from(*first), text),
        None => false,
    }
}

/// The keywords that may start with the byte.
#[tactic(auto, unfolding(crate::specs::Keywords::keywords_from))]
fn keywords_from(first: u8) -> &'static [&'static str]
    ensures { texts result.now ≡ keywords_from first }
{
    match first {
        b'a'..=b'z' => row_at(&BY_LETTER, (first - b'a') as usize),
        _ => &OTHERS,
    }
}

#[tactic(auto, using(crate::proofs::Keywords::row_is))]
fn row_at(rows: &'static [&'static [&'static str]], at: usize) -> &'static [&'static str]
    requires { at < length rows.now }
    ensures { texts result.now ≡ at_place at (map (λ row. texts row.now) rows.now) }
{
    rows[at]
}

fn is_among(words: &[&str], text: &str) -> bool
    ensures { result ≡ list_any (λ w. bytes_eq text.now w.now) words.now }
{
    words.iter().any(|word| text == *word)
}
