//! The first tokens of operands, types and statements: they decide whether an invisible group is an operand, a type or opened.
//! Delimiters of invisible groups are skipped.
use crate::invisible::opening::Opening;
use syn_tokens::delimiter::Delimiter;
use syn_tokens::ident::ident_ref::IdentRef;
use syn_tokens::stream::entry::Token;

/// What a token may start.
#[derive(Clone, Copy)]
pub(crate) enum Beginning {
    /// An operand or a type.
    Something,
    /// Neither.
    Nothing,
    /// The word `let`.
    Let,
    /// The word `pub`.
    Pub,
}

/// The keywords that are paths, or start them.
const PATHS: &[&str] = &["self", "Self", "super", "crate"];
/// The words that are a restriction on their own.
const PLACES: &[&str] = &["crate", "self", "super"];
/// The other words that start an operand. `let` is among them: in a group it is not a statement.
const OPERANDS: &[&str] = &[
    "true", "false", "if", "loop", "while", "for", "unsafe", "return", "break", "continue", "let",
];

/// The words before the keyword of an item.
const MODIFIERS: &[&str] = &["default", "const", "async", "unsafe", "extern", "auto"];

/// What the token at this index may start.
pub(crate) fn beginning_of(opening: &Opening<'_>, place: usize) -> Beginning {
    if is_word(opening, place, "let") {
        Beginning::Let
    } else if is_word(opening, place, "pub") {
        Beginning::Pub
    } else if begins_operand(opening, place)
        || begins_type(opening, place)
        || is_sign(opening, place)
    {
        Beginning::Something
    } else {
        Beginning::Nothing
    }
}

/// Whether the token may start an operand, apart from attributes and signs.
pub(crate) fn begins_operand(opening: &Opening<'_>, place: usize) -> bool {
    match &opening.token(place) {
        Some(Token::Ident(ident)) => is_path_word(ident) || is_among(ident, OPERANDS),
        Some(Token::Literal(_)) => true,
        Some(Token::Punct(_)) => {
            is_mark(opening, place, '<')
                || is_path_mark(opening, place)
                || is_joint_mark(opening, place, '\'')
        }
        Some(Token::Open(_)) => true,
        Some(Token::Close(_)) => false,
        None => false,
    }
}

/// Whether the token may start a type.
pub(crate) fn begins_type(opening: &Opening<'_>, place: usize) -> bool {
    match &opening.token(place) {
        Some(Token::Ident(ident)) => is_path_word(ident),
        Some(Token::Literal(_)) => false,
        Some(Token::Punct(_)) => {
            is_one_of(opening, place, &['<', '&', '*', '!']) || is_path_mark(opening, place)
        }
        Some(Token::Open(open)) => !matches!(open.delimiter, Delimiter::Brace),
        Some(Token::Close(_)) => false,
        None => false,
    }
}

/// Whether the token starts an attribute, or is a sign before an operand.
fn is_sign(opening: &Opening<'_>, place: usize) -> bool {
    is_one_of(opening, place, &['#', '-', '&', '*', '!'])
}

/// Whether the tokens start a statement that is not an expression: two words, unless the second is `as`; or a path and `!`,
/// followed by what makes it an item or a statement.
pub(crate) fn begins_item_or_macro(opening: &Opening<'_>, place: usize) -> bool {
    let (mut words, mut marks) = (0_usize, 0_usize);
    for at in place..opening.entries().len() {
        if opening.is_delimiter_of_invisible(at) {
            continue;
        }
        match &opening.token(at) {
            Some(Token::Ident(ident)) => {
                if words > 0 && marks != 2 {
                    return !ident.is("as");
                }
                if !is_path_word(ident) && !ident.is("unsafe") {
                    return false;
                }
                words = words.saturating_add(1);
                marks = 0;
            }
            Some(Token::Punct(_)) => {
                if !is_mark(opening, at, ':') {
                    return words > 0 && marks == 0 && is_macro_mark(opening, at);
                }
                marks = marks.saturating_add(1);
            }
            _ => return false,
        }
    }
    false
}

/// Whether the token is `!`, followed by a name, or by a group in braces that is the end of its operand.
fn is_macro_mark(opening: &Opening<'_>, place: usize) -> bool {
    if !is_mark(opening, place, '!') {
        return false;
    }
    let next = opening.seen_from(place.saturating_add(1));
    match &opening.token(next) {
        Some(Token::Ident(ident)) => !ident.is_keyword() || ident.is("try"),
        Some(Token::Open(open)) => {
            let Some(end) = opening.end_of(next) else {
                return false;
            };
            matches!(open.delimiter, Delimiter::Brace)
                && !proceeds(opening, opening.seen_from(end.saturating_add(1)))
        }
        _ => false,
    }
}

/// Whether `.` or `?` continues an operand here.
fn proceeds(opening: &Opening<'_>, place: usize) -> bool {
    let following = opening.seen_from(place.saturating_add(1));
    let is_range = is_joint_mark(opening, place, '.') && is_mark(opening, following, '.');
    is_mark(opening, place, '?') || is_mark(opening, place, '.') && !is_range
}

/// Whether the generics after `impl <` start here, as parameters and not as a type.
pub(crate) fn begins_parameters(opening: &Opening<'_>, place: usize) -> bool {
    match &opening.token(place) {
        Some(Token::Ident(ident)) => {
            let following = opening.seen_from(place.saturating_add(1));
            ident.is("const") || !ident.is_keyword() && ends_parameter(opening, following)
        }
        Some(Token::Punct(_)) => is_one_of(opening, place, &['>', '#', '\'']),
        _ => false,
    }
}

/// Whether the token may follow the name of a parameter: `:`, `,`, `>` or `=`.
fn ends_parameter(opening: &Opening<'_>, place: usize) -> bool {
    is_one_of(opening, place, &[':', ',', '>', '=']) && !is_path_mark(opening, place)
}

/// Whether these are the parentheses of a restriction: around `crate`, `self` or `super` alone, or around tokens that start
/// with `in`.
pub(crate) fn is_restriction(opening: &Opening<'_>, place: usize) -> bool {
    match &opening.token(place) {
        Some(Token::Open(open)) => {
            let word = opening.seen_from(place.saturating_add(1));
            let following = opening.seen_from(word.saturating_add(1));
            matches!(open.delimiter, Delimiter::Paren)
                && (is_word(opening, word, "in")
                    || is_one_of_words(opening, word, PLACES)
                        && opening.end_of(place) == Some(following))
        }
        _ => false,
    }
}

fn is_one_of_words(opening: &Opening<'_>, place: usize, words: &[&str]) -> bool {
    match &opening.token(place) {
        Some(Token::Ident(ident)) => is_among(ident, words),
        _ => false,
    }
}

/// Whether a name and `=` are here.
pub(crate) fn begins_binding(opening: &Opening<'_>, place: usize) -> bool {
    match &opening.token(place) {
        Some(Token::Ident(ident)) => {
            let following = opening.seen_from(place.saturating_add(1));
            !ident.is_keyword() && is_mark(opening, following, '=')
        }
        _ => false,
    }
}

/// Whether the token is this word.
pub(crate) fn is_word(opening: &Opening<'_>, place: usize, text: &str) -> bool {
    match &opening.token(place) {
        Some(Token::Ident(ident)) => ident.is(text),
        _ => false,
    }
}

/// Whether the token is this character of a mark.
pub(crate) fn is_mark(opening: &Opening<'_>, place: usize, character: char) -> bool {
    opening.character(place) == Some(character)
}

fn is_joint_mark(opening: &Opening<'_>, place: usize, character: char) -> bool {
    is_mark(opening, place, character) && opening.is_joint(place)
}

/// Whether `::` is here.
fn is_path_mark(opening: &Opening<'_>, place: usize) -> bool {
    let following = opening.seen_from(place.saturating_add(1));
    is_joint_mark(opening, place, ':') && is_mark(opening, following, ':')
}

fn is_one_of(opening: &Opening<'_>, place: usize, characters: &[char]) -> bool {
    for character in characters {
        if is_mark(opening, place, *character) {
            return true;
        }
    }
    false
}

/// Whether the word is allowed in a path.
fn is_path_word(ident: &IdentRef<'_>) -> bool {
    !ident.is_keyword() || is_among(ident, PATHS)
}

/// Whether the word may be before the keyword of an item.
pub(crate) fn is_modifier(ident: &IdentRef<'_>) -> bool {
    is_among(ident, MODIFIERS)
}

fn is_among(ident: &IdentRef<'_>, words: &[&str]) -> bool {
    for word in words {
        if ident.is(word) {
            return true;
        }
    }
    false
}
