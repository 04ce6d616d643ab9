//! Marks and words that are next.
use syn_tokens::punct::Spacing;
use syn_tokens::stream::cursor::Cursor;

/// Whether a mark that begins with this character is next.
pub(crate) fn is_at(character: char, trees: &Cursor<'_>) -> bool {
    match trees.split_punct() {
        Some((punct, _)) => punct.character() == character,
        None => false,
    }
}

/// Whether this word is next.
pub(crate) fn is_at_word(word: &str, trees: &Cursor<'_>) -> bool {
    match trees.split_ident() {
        Some((ident, _)) => ident.is(word),
        None => false,
    }
}

/// The tokens after this character of a mark, if it is next and joined to the mark after it.
fn after_joint<'a>(character: char, trees: &Cursor<'a>) -> Option<Cursor<'a>> {
    let (punct, following) = trees.split_punct()?;
    if punct.character() == character && punct.spacing == Spacing::Joint {
        Some(following)
    } else {
        None
    }
}

/// Whether this mark of two characters is next.
pub(crate) fn is_at_both(first: char, second: char, trees: &Cursor<'_>) -> bool {
    match after_joint(first, trees) {
        Some(following) => is_at(second, &following),
        None => false,
    }
}

/// The tokens after the lifetime, if one is next.
pub(crate) fn after_lifetime<'a>(trees: &Cursor<'a>) -> Option<Cursor<'a>> {
    let (_name, following) = after_joint('\'', trees)?.split_ident()?;
    Some(following)
}

/// The tokens after the attributes that are next.
pub(crate) fn after_attributes<'a>(trees: &Cursor<'a>) -> Cursor<'a> {
    let mut rest = trees.fork();
    for _tree in 0..trees.len() {
        let Some(following) = after_attribute(&rest) else {
            return rest;
        };
        rest = following;
    }
    rest
}

/// The tokens after the attribute, if one is next.
fn after_attribute<'a>(trees: &Cursor<'a>) -> Option<Cursor<'a>> {
    let (punct, following) = trees.split_punct()?;
    if punct.character() != '#' {
        return None;
    }
    let (_brackets, following) = following.split()?;
    Some(following)
}
