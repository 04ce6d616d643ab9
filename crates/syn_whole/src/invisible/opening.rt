//! The set of opened invisible groups of a stream, and the tokens that remain visible.
ghost use Rattle.std.specs.Prelude.{◌≡◌};
ghost use Rattle.syn_whole.specs.HiddenGroups.{is_hidden, is_invisible};

use crate::invisible::beginnings::{
    Beginning, beginning_of, begins_parameters, is_mark, is_modifier, is_restriction, is_word,
};
use std::alloc::Global;
use syn_tokens::delimiter::Delimiter;
use syn_tokens::error::Result;
use syn_tokens::punct::Spacing;
use syn_tokens::stream::TokenStream;
use syn_tokens::stream::entry::{Entry, Token};

/// A stream, and which of its entries are omitted: the delimiters of the opened groups. A place is the index of an entry.
#[derive(Drop)]
pub(crate) struct Opening<'t> {
    tokens: &'t TokenStream,
    opened: Vec<bool>,
    /// Which groups are known to be stored verbatim, by where they start.
    stored: Vec<bool>,
}

/// The most words and literals before the keyword of an item, as in `default const unsafe extern "C" fn`.
const MODIFIERS: usize = 5;

/// Whether the entry is the opening delimiter of an invisible group.
pub(crate) fn is_invisible(entry: &Entry) -> bool
    ensures { result ≡ is_invisible entry.now }
{
    match entry.token() {
        Token::Open(open) => is_hidden(open.delimiter),
        Token::Ident(_) => false,
        Token::Literal(_) => false,
        Token::Punct(_) => false,
        Token::Close(_) => false,
    }
}

/// Whether the delimiters are those of an invisible group.
fn is_hidden(delimiter: Delimiter) -> bool
    ensures { result ≡ is_hidden delimiter }
{
    match delimiter {
        Delimiter::Paren => false,
        Delimiter::Brace => false,
        Delimiter::Bracket => false,
        Delimiter::None => true,
    }
}

/// A mark for each entry of the stream, not set.
fn none_of(tokens: &TokenStream) -> Result<Vec<bool>> {
    let mut marks = Vec::with_capacity(tokens.alloc(), tokens.entries().len())?;
    for _entry in tokens.entries() {
        marks.push(false)?;
    }
    Ok(marks)
}

impl<'t> Opening<'t> {
    /// Starts with no group opened.
    pub(crate) fn new(tokens: &'t TokenStream) -> Result<Opening<'t>> {
        Ok(Opening {
            tokens,
            opened: none_of(tokens)?,
            stored: none_of(tokens)?,
        })
    }

    pub(crate) fn alloc(&self) -> Global {
        self.tokens.alloc()
    }

    pub(crate) fn entries(&self) -> &[Entry] {
        self.tokens.entries()
    }

    /// The number of entries.
    pub(crate) fn len(&self) -> usize {
        self.opened.len()
    }

    /// The token or delimiter at this place, omitted or not.
    pub(crate) fn token(&self, place: usize) -> Option<Token<'_>> {
        let entry = self.entries().get(place)?;
        Some(entry.token())
    }

    /// The character of a mark at this place.
    pub(crate) fn character(&self, place: usize) -> Option<char> {
        match &self.token(place)? {
            Token::Punct(punct) => Some(punct.character()),
            _ => None,
        }
    }

    /// Whether a joint character of a mark is at this place.
    pub(crate) fn is_joint(&self, place: usize) -> bool {
        match &self.token(place) {
            Some(Token::Punct(punct)) => matches!(punct.spacing, Spacing::Joint),
            _ => false,
        }
    }

    /// Opens the group that starts at this place, and those that start before its first token, or before the token after it if
    /// it is empty.
    pub(crate) fn open_run(&mut self, group: usize) {
        for at in group..self.seen_from(group) {
            if self.begins_group(at) {
                self.open(at);
            }
        }
    }

    /// Opens the group that starts at this place.
    fn open(&mut self, group: usize) {
        if let Some(end) = self.end_of(group) {
            self.leave_out(group);
            self.leave_out(end);
        }
    }

    fn leave_out(&mut self, place: usize) {
        if let Some(mark) = self.opened.get_mut(place) {
            *mark = true;
        }
    }

    /// The end of the group that starts at this place.
    pub(crate) fn end_of(&self, group: usize) -> Option<usize> {
        match self.token(group)? {
            Token::Open(open) => group.checked_add(open.skip)?.checked_add(1),
            Token::Ident(_) => None,
            Token::Literal(_) => None,
            Token::Punct(_) => None,
            Token::Close(_) => None,
        }
    }

    /// Opens the groups that certainly have to be opened, among those directly between the delimiters around this place: the
    /// groups whose first token starts neither an operand nor a type, and those that start a parameter of an impl or a
    /// restriction. Two kinds are left alone: groups that start with `let`, since a `let` in a group is not a statement; and
    /// empty groups before `pub`, since they are in place of the visibility. Returns whether there was such a group.
    pub(crate) fn open_level(&mut self, place: usize) -> bool {
        let (start, end) = self.level_around(place);
        let (mut next, mut following) = (Beginning::Nothing, end);
        let mut inner = 0_usize;
        let mut found = self.open_restriction(start.saturating_sub(1));
        for at in (start..end).rev() {
            if self.is_delimiter_of_invisible(at) {
                if inner == 0 && self.begins_group(at) && self.opens_by(at, next, following) {
                    self.open(at);
                    found = true;
                }
                continue;
            }
            match &self.token(at) {
                Some(Token::Close(_)) => inner = inner.saturating_add(1),
                Some(Token::Open(_)) => inner = inner.saturating_sub(1),
                _ => {}
            }
            if inner == 0 {
                (next, following) = (beginning_of(self, at), at);
                found = self.open_restriction(at) || found;
            }
        }
        found
    }

    /// The range of the content of the innermost visible group around this place, or of the whole stream.
    fn level_around(&self, place: usize) -> (usize, usize) {
        let mut inner = 0_usize;
        for before in (0..place).rev() {
            if self.is_delimiter_of_invisible(before) {
                continue;
            }
            match &self.token(before) {
                Some(Token::Close(_)) => inner = inner.saturating_add(1),
                Some(Token::Open(_)) => {
                    if inner == 0 {
                        let end = self.end_of(before).unwrap_or(place);
                        return (before.saturating_add(1), end);
                    }
                    inner = inner.saturating_sub(1);
                }
                _ => {}
            }
        }
        (0, self.opened.len())
    }

    /// Whether the group certainly has to be opened. `next` is what the token at `place` starts: the first one in the group, or
    /// after it if it is empty.
    fn opens_by(&self, group: usize, next: Beginning, place: usize) -> bool {
        match next {
            Beginning::Nothing => true,
            Beginning::Pub => self.end_of(group).is_some_and(|end| place < end),
            Beginning::Let => false,
            Beginning::Something => {
                self.is_after_impl_less(group) && begins_parameters(self, place)
                    || self.is_after_restricted(group) && is_restriction(self, place)
            }
        }
    }

    /// Whether the word before this place may be followed by a restriction.
    fn is_after_restricted(&self, place: usize) -> bool {
        match self.before(place) {
            Some(word) => is_word(self, word, "pub") || is_word(self, word, "impl"),
            None => false,
        }
    }

    /// Opens the groups in the parentheses at this place, if they are a restriction. Returns whether there was such a group.
    fn open_restriction(&mut self, place: usize) -> bool {
        if !self.is_after_restricted(place) || !is_restriction(self, place) {
            return false;
        }
        let mut found = false;
        for at in place..self.end_of(place).unwrap_or(place) {
            if self.begins_group(at) {
                self.open(at);
                found = true;
            }
        }
        found
    }

    /// Marks the group that starts at this place as stored verbatim.
    pub(crate) fn mark_stored(&mut self, group: usize) {
        if let Some(mark) = self.stored.get_mut(group) {
            *mark = true;
        }
    }

    /// Whether the group that starts at this place is known to be stored verbatim.
    fn is_stored(&self, group: usize) -> bool {
        match self.stored.get(group) {
            Some(mark) => *mark,
            None => false,
        }
    }

    /// Whether a group starts at this place that is in the position of an impl's trait: after `impl`, generics, `const` or `!`,
    /// and before `for`; and isn't known to be stored verbatim.
    pub(crate) fn is_trait(&self, group: usize) -> bool {
        self.begins_group(group)
            && !self.is_stored(group)
            && self.is_before_trait(group)
            && self.is_before_for(group)
    }

    fn is_before_trait(&self, group: usize) -> bool {
        match self.before(group) {
            Some(before) => {
                is_word(self, before, "impl")
                    || is_word(self, before, "const")
                    || is_mark(self, before, '>')
                    || is_mark(self, before, '!')
            }
            None => false,
        }
    }

    /// Whether `for` follows after the group at this place, and not `for <`.
    fn is_before_for(&self, group: usize) -> bool {
        let Some(end) = self.end_of(group) else {
            return false;
        };
        let following = self.seen_from(end.saturating_add(1));
        let lifetimes = self.seen_from(following.saturating_add(1));
        is_word(self, following, "for") && !is_mark(self, lifetimes, '<')
    }

    /// Whether `impl <` is right before this place.
    fn is_after_impl_less(&self, place: usize) -> bool {
        let Some(less) = self.before(place) else {
            return false;
        };
        match self.before(less) {
            Some(word) => is_mark(self, less, '<') && is_word(self, word, "impl"),
            None => false,
        }
    }

    /// The empty group before the modifiers of an item that are right before this place, as before `unsafe` in `unsafe impl`.
    pub(crate) fn empty_before_modifiers(&self, place: usize) -> Option<usize> {
        let mut first = place;
        for _modifier in 0..MODIFIERS {
            let Some(before) = self.before(first) else {
                return None;
            };
            if self.is_modifier(before) {
                first = before;
            }
        }
        let group = self.group_before(first)?;
        if first < place && self.seen_from(group.saturating_add(1)) == first {
            Some(group)
        } else {
            None
        }
    }

    /// Whether the token may be before the keyword of an item.
    fn is_modifier(&self, place: usize) -> bool {
        match &self.token(place) {
            Some(Token::Ident(ident)) => is_modifier(ident),
            Some(Token::Literal(_)) => true,
            _ => false,
        }
    }

    /// Whether the entry is omitted.
    pub(crate) fn is_opened(&self, place: usize) -> bool {
        match self.opened.get(place) {
            Some(mark) => *mark,
            None => false,
        }
    }

    /// Whether an invisible group that isn't opened starts at this place.
    pub(crate) fn begins_group(&self, place: usize) -> bool {
        match self.entries().get(place) {
            Some(entry) => is_invisible(entry) && !self.is_opened(place),
            None => false,
        }
    }

    /// Whether an invisible group that isn't opened ends at this place.
    fn ends_group(&self, place: usize) -> bool {
        match self.token(place) {
            Some(Token::Close(close)) => is_hidden(close.delimiter) && !self.is_opened(place),
            _ => false,
        }
    }

    /// Whether a delimiter of an invisible group is here, opened or not.
    pub(crate) fn is_delimiter_of_invisible(&self, place: usize) -> bool {
        match self.token(place) {
            Some(Token::Open(open)) => is_hidden(open.delimiter),
            Some(Token::Close(close)) => is_hidden(close.delimiter),
            _ => false,
        }
    }

    /// The first place from here on that is not a delimiter of an invisible group.
    pub(crate) fn seen_from(&self, place: usize) -> usize {
        for seen in place..self.opened.len() {
            if !self.is_delimiter_of_invisible(seen) {
                return seen;
            }
        }
        self.opened.len()
    }

    /// The last place before this one that isn't omitted.
    pub(crate) fn before(&self, place: usize) -> Option<usize> {
        for before in (0..place).rev() {
            if !self.is_opened(before) {
                return Some(before);
            }
        }
        None
    }

    /// The first place after this one that isn't omitted.
    pub(crate) fn following(&self, place: usize) -> Option<usize> {
        for following in place.saturating_add(1)..self.opened.len() {
            if !self.is_opened(following) {
                return Some(following);
            }
        }
        None
    }

    /// The invisible group that ends right before this place, and isn't opened.
    pub(crate) fn group_before(&self, place: usize) -> Option<usize> {
        let end = self.before(place)?;
        if self.ends_group(end) {
            self.group_around(end)
        } else {
            None
        }
    }

    /// The innermost invisible group around this place, or that ends here, unless a visible group is in between.
    pub(crate) fn group_around(&self, place: usize) -> Option<usize> {
        let mut inner = 0_usize;
        for before in (0..place).rev() {
            if self.is_opened(before) {
                continue;
            }
            match self.token(before)? {
                Token::Close(_) => inner = inner.saturating_add(1),
                Token::Open(open) => {
                    if inner == 0 {
                        return if is_hidden(open.delimiter) {
                            Some(before)
                        } else {
                            None
                        };
                    }
                    inner = inner.saturating_sub(1);
                }
                Token::Ident(_) => {}
                Token::Literal(_) => {}
                Token::Punct(_) => {}
            }
        }
        None
    }
}
