//! The links that were counted in a group. What may be none counts too, so there are never more than were counted.
ghost use Rattle.std.specs.Prelude.{◌≡◌, ◌<◌, IfSome};
ghost use Rattle.syn_grammar.specs.Tokens.{end};
ghost use Rattle.syn_grammar.specs.Take.{left};
ghost use Rattle.syn_tokens.specs.Cursors.{before_next};

use syn_tokens::delimiter::Delimiter;
use syn_tokens::ident::ident_ref::IdentRef;
use syn_tokens::punct::{Punct, Spacing};
use syn_tokens::span::Span;
use syn_tokens::stream::cursor::{Cursor, GroupRef, TokenTreeRef};

/// What precedes a token tree in its group.
#[derive(Clone, Copy)]
enum Before {
    /// Nothing, the end of an element or a statement, or a word that an operand follows.
    Start,
    /// What may be an operand or not: a word that is no name, such as `self` or `return`, a label, or brackets that may be an attribute's.
    Word,
    /// A name that doesn't follow `.`.
    Name,
    /// A name and `!`: the group after them is a macro's.
    Bang,
    /// The name of a field or of a method.
    Member,
    /// Another operand.
    Operand,
    /// A group in braces.
    Braces,
    /// A character of a mark, and whether the next belongs to it.
    Mark(char, bool),
}

/// A group, or a stream, as far as it was looked at.
#[derive(Drop)]
pub(super) struct Level<'a> {
    pub(super) rest: Cursor<'a>,
    pub(super) opening: Span,
    delimiter: Delimiter,
    before: Before,
    /// The links since the last end, and how many are nested in the groups since.
    links: u32,
    inside: u32,
    /// How many are nested at most in what has ended.
    ended: u32,
    /// Whether the type of a cast, or a return type, may have begun, where `<` opens arguments without `::`.
    in_type: bool,
    /// How many `<` may be open.
    angles: u32,
    /// Whether a closure may have begun, whose parameters have commas.
    closure: bool,
}

/// Whether this keyword is an operand, or a word of a path that no arguments follow.
fn is_operand_word(text: &str) -> bool {
    matches!(text, "self" | "super" | "crate" | "true" | "false")
}

impl<'a> Level<'a> {
    /// A stream that wasn't looked at.
    pub(super) fn new(rest: Cursor<'a>) -> Level<'a> {
        Level::following(Delimiter::Brace, Span::call_site(), rest)
    }

    /// A group that wasn't looked at.
    fn following(delimiter: Delimiter, opening: Span, rest: Cursor<'a>) -> Level<'a>
        ensures { result.rest ≡ rest.entry }
    {
        Level {
            rest,
            opening,
            delimiter,
            before: Before::Start,
            links: 0,
            inside: 0,
            ended: 0,
            in_type: false,
            angles: 0,
            closure: false,
        }
    }

    /// How many links are nested in what hasn't ended.
    pub(super) fn unended(&self) -> u32 {
        self.links.saturating_add(self.inside)
    }

    /// Looks at the next tree. The level of its content, where it is a group whose links count.
    pub(super) fn see(&mut self, tree: TokenTreeRef<'a>) -> Option<Level<'a>>
        ensures rest { self.new.rest ≡ self.old.rest }
        ensures inside { IfSome result (λ inner. left inner.rest < left (before_next tree.entry end)) }
    {
        match tree {
            TokenTreeRef::Ident(ident) => self.see_ident(&ident),
            TokenTreeRef::Literal(_) => self.before = Before::Operand,
            TokenTreeRef::Punct(punct) => self.see_punct(punct),
            TokenTreeRef::Group(group) => return self.see_group(group),
        }
        None
    }

    /// Continues after a group.
    pub(super) fn close(&mut self, inner: &Level<'_>)
        ensures { self.new.rest ≡ self.old.rest }
    {
        let most = inner.ended.max(inner.unended());
        if inner.delimiter == Delimiter::None {
            self.links = self.links.saturating_add(most);
        } else {
            self.inside = self.inside.max(most);
        }
    }

    /// Ends an element or a statement.
    fn end(&mut self)
        ensures { self.new.rest ≡ self.old.rest }
    {
        self.ended = self.ended.max(self.unended());
        self.links = 0;
        self.inside = 0;
        self.in_type = false;
        self.angles = 0;
        self.closure = false;
    }

    fn link(&mut self)
        ensures { self.new.rest ≡ self.old.rest }
    {
        self.links = self.links.saturating_add(1);
    }

    /// A cast begins a type. After braces only `as` and `else` continue an expression.
    fn see_ident(&mut self, ident: &IdentRef<'_>)
        ensures { self.new.rest ≡ self.old.rest }
    {
        let text = ident.text();
        match self.before {
            Before::Braces if text != "as" && text != "else" => self.end(),
            _ => {}
        }
        if text == "as" {
            self.link();
            self.in_type = true;
        }
        self.before = match self.before {
            Before::Mark('.', _) => Before::Member,
            Before::Mark('\'', _) => Before::Word,
            _ if text == "as" || text == "mut" || text == "const" => Before::Start,
            _ if is_operand_word(text) => Before::Operand,
            _ if text == "Self" => Before::Name,
            _ if ident.is_keyword() => Before::Word,
            _ => Before::Name,
        };
    }

    fn see_punct(&mut self, punct: Punct)
        ensures { self.new.rest ≡ self.old.rest }
    {
        let character = punct.character();
        let first = match self.before {
            Before::Mark(first, true) => first,
            _ => ' ',
        };
        let was_open = self.angles > 0;
        self.count_mark(first, character);
        self.before = match (self.before, character) {
            (_, '?') => Before::Operand,
            // the end of `->`, which a type follows
            (_, '>') if first == '-' => Before::Start,
            // the end of generic arguments
            (_, '>') if was_open && self.angles == 0 => Before::Operand,
            (Before::Name, '!') => Before::Bang,
            // a third one is no character of `<<`
            (Before::Mark('<', true), '<') => Before::Mark('<', false),
            _ => Before::Mark(character, punct.spacing == Spacing::Joint),
        };
    }

    /// Counts a character of a mark, after another of it.
    fn count_mark(&mut self, first: char, character: char)
        ensures { self.new.rest ≡ self.old.rest }
    {
        match (first, character) {
            (_, ';') => self.end(),
            (_, ',') if self.angles == 0 && !self.closure => self.end(),
            ('-', '>') => self.in_type = true,
            ('|', '|') => {}
            (_, '<') => {
                self.open_angle(first);
                self.count_operator(character);
            }
            (_, '>') => {
                self.angles = self.angles.saturating_sub(1);
                self.count_operator(character);
            }
            (_, '|') => {
                self.closure = self.closure || !self.has_operand();
                self.count_operator(character);
            }
            (_, '+' | '-' | '*' | '/' | '%' | '^' | '&' | '.' | '?') => self.count_operator(
                character,
            ),
            _ => {}
        }
    }

    /// Opens generic arguments, unless it is known that this is an operator: an operand has ended, and it is not the name of a type
    /// or before `::`; or it is the second character of such an operator. An operator ends a type.
    fn open_angle(&mut self, first: char)
        ensures { self.new.rest ≡ self.old.rest }
    {
        let is_operator = first == '<' || self.has_operand();
        let is_type = self.in_type && !matches!(self.before, Before::Operand);
        if is_type || self.angles > 0 || !is_operator {
            self.angles = self.angles.saturating_add(1);
        } else {
            self.in_type = false;
        }
    }

    /// Counts an operator, unless it is known that no operand is before it. Outside of generic arguments it ends a type, unless it
    /// is `<` or `>`, or may belong to the type, as in `&'a *const T`.
    fn count_operator(&mut self, character: char)
        ensures { self.new.rest ≡ self.old.rest }
    {
        match self.before {
            Before::Start => {}
            Before::Mark(mark, _) if mark != '>' => {}
            _ => {
                self.link();
                let is_in_type = self.angles > 0
                    || !self.has_operand()
                    || matches!(character, '<' | '>');
                self.in_type = self.in_type && is_in_type;
            }
        }
    }

    /// Whether it is known that an operand has ended.
    fn has_operand(&self) -> bool {
        matches!(self.before, Before::Name | Before::Member | Before::Operand)
    }

    /// Parentheses and brackets after what may be an operand continue it; those of a method were counted with its `.`. Braces that
    /// are not in generic arguments end a type; others may belong to it.
    fn see_group(&mut self, group: GroupRef<'a>) -> Option<Level<'a>>
        ensures rest { self.new.rest ≡ self.old.rest }
        ensures inside { IfSome result (λ inner. inner.rest ≡ group.entry.content) }
    {
        let before = self.before;
        self.in_type = self.in_type
            && (self.angles > 0 || !matches!(group.delimiter, Delimiter::Brace));
        self.before = match (before, group.delimiter) {
            (_, Delimiter::Brace) => Before::Braces,
            (Before::Mark('#' | '!', _), Delimiter::Bracket) => Before::Word,
            _ => Before::Operand,
        };
        match (before, group.delimiter) {
            (Before::Bang, _) => return None,
            (_, Delimiter::Brace | Delimiter::None) => {}
            (Before::Member, Delimiter::Paren) | (Before::Start, _) => {}
            (Before::Mark('>', _), _) => self.link(),
            (Before::Mark(_, _), _) => {}
            _ => self.link(),
        }
        Some(Level::following(group.delimiter, group.opening, group.content))
    }
}
