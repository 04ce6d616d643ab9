//! The context of a token, by the words before it. The stream is read up to there, so that they are what they look like.
ghost use Rattle.std.specs.Prelude.{◌≡◌, ◌<◌, IsTrue};
ghost use Rattle.syn_grammar.specs.Take.{left};

use crate::faults::angles::Angles;
use syn_recognize::Rule;
use syn_tokens::delimiter::Delimiter;
use syn_tokens::stream::TokenStream;
use syn_tokens::stream::cursor::{Cursor, GroupRef, TokenTreeRef};

/// What a token is in.
#[derive(Drop)]
pub(crate) enum Context<'a> {
    /// In the trees of a use.
    Use,
    /// After `fn`, before the arguments.
    Function,
    /// In the arguments of a function, which begin here.
    Arguments(Cursor<'a>),
    /// After `impl`, before `for`, `where` and the members; the tokens after `impl` begin here.
    Impl(Cursor<'a>),
    /// In anything else.
    Other,
}

/// What is directly before a place.
#[derive(Clone, Copy, Debug, PartialEq, Eq)]
pub(crate) enum Before {
    /// The word `as`.
    As,
    /// A comma outside any `< >`, and attributes after it.
    Comma,
    /// The `#` of an attribute that is next.
    Pound,
    Other,
}

/// A place in a stream.
#[derive(Drop)]
pub(crate) struct Place<'a> {
    pub context: Context<'a>,
    pub before: Before,
    /// The tokens from the place on, up to the end of the stream or of the group.
    pub trees: Cursor<'a>,
    /// The `<` that are open since the context began.
    angles: Angles,
}

/// The place of the token at this byte in a stream that the rule reads; the end of the stream if all tokens are before it. Descends into
/// the groups around the token, and passes each tree before it once.
pub(crate) fn place_at<'a>(byte: usize, rule: Rule, tokens: &'a TokenStream) -> Place<'a> {
    let context = match rule {
        Rule::USE_TREE => Context::Use,
        _ => Context::Other,
    };
    let mut place = Place::begins(context, tokens.cursor());
    'trees: while place.moves_to(byte) {}
    place
}

impl<'a> Place<'a> {
    /// Where these trees begin.
    fn begins(context: Context<'a>, trees: Cursor<'a>) -> Place<'a>
        ensures { result.trees ≡ trees.entry }
    {
        Place {
            context,
            before: Before::Other,
            trees,
            angles: Angles::none(),
        }
    }

    /// Passes or enters the next tree if that leads to the byte; returns false at the place.
    #[tactic(auto, using(crate::proofs::Trees::fewer_after, crate::proofs::Trees::fewer_inside))]
    fn moves_to(&mut self, byte: usize) -> bool
        ensures { IsTrue result → left self.new.trees < left self.old.trees }
    {
        let Some((tree, following)) = self.trees.split() else {
            return false;
        };
        if byte <= tree.span().start {
            return false;
        }
        match tree {
            TokenTreeRef::Group(group) => {
                if byte <= group.closing.start {
                    self.enter(group);
                } else {
                    self.pass(&TokenTreeRef::Group(group), following);
                }
            }
            TokenTreeRef::Ident(_) | TokenTreeRef::Literal(_) | TokenTreeRef::Punct(_) => {
                self.pass(&tree, following)
            }
        }
        true
    }

    /// Goes into a group.
    fn enter(&mut self, group: GroupRef<'a>)
        ensures { self.new.trees ≡ group.entry.content }
    {
        *self = Place::begins(self.context_in(&group), group.content);
    }

    /// The context of the trees of a group.
    fn context_in(&self, group: &GroupRef<'a>) -> Context<'a> {
        match (&self.context, group.delimiter) {
            (Context::Use, Delimiter::Brace) => Context::Use,
            (Context::Function, Delimiter::Paren) => {
                if self.angles.are_closed() {
                    Context::Arguments(group.content.fork())
                } else {
                    Context::Other
                }
            }
            _ => Context::Other,
        }
    }

    /// Passes a tree that these trees follow.
    fn pass(&mut self, tree: &TokenTreeRef<'a>, following: Cursor<'a>)
        ensures { self.new.trees ≡ following.entry }
    {
        self.before = self.before_after(tree);
        self.angles.pass(tree);
        match tree {
            TokenTreeRef::Ident(ident) => self.pass_word(ident.text(), &following),
            TokenTreeRef::Literal(_) => {}
            TokenTreeRef::Punct(punct) => self.pass_mark(punct.character()),
            TokenTreeRef::Group(group) => self.pass_group(group.delimiter),
        }
        self.trees = following;
    }

    /// What is before the place after this tree.
    fn before_after(&self, tree: &TokenTreeRef<'_>) -> Before {
        match tree {
            TokenTreeRef::Ident(ident) => {
                if ident.is("as") {
                    Before::As
                } else {
                    Before::Other
                }
            }
            TokenTreeRef::Literal(_) => Before::Other,
            TokenTreeRef::Punct(punct) => match punct.character() {
                ',' => {
                    if self.angles.are_closed() {
                        Before::Comma
                    } else {
                        Before::Other
                    }
                }
                '#' => {
                    if self.before == Before::Comma {
                        Before::Pound
                    } else {
                        Before::Other
                    }
                }
                _ => Before::Other,
            },
            TokenTreeRef::Group(_) => {
                if self.before == Before::Pound {
                    Before::Comma
                } else {
                    Before::Other
                }
            }
        }
    }

    /// A context begins.
    fn begin(&mut self, context: Context<'a>) {
        self.context = context;
        self.angles = Angles::none();
    }

    /// Begins or ends a context at this word, which these trees follow.
    fn pass_word(&mut self, word: &str, following: &Cursor<'a>) {
        match word {
            "use" => self.begin(Context::Use),
            "fn" => self.begin(Context::Function),
            "impl" => self.begin(Context::Impl(following.fork())),
            "for" | "where" => {
                if matches!(&self.context, Context::Impl(_)) && self.angles.are_closed() {
                    self.begin(Context::Other);
                }
            }
            _ => {}
        }
    }

    /// Ends a context at this character of a mark: `;` ends an item, and the dots of a variadic end the arguments.
    fn pass_mark(&mut self, character: char) {
        match character {
            ';' => self.begin(Context::Other),
            '.' => {
                if matches!(&self.context, Context::Arguments(_)) {
                    self.begin(Context::Other);
                }
            }
            _ => {}
        }
    }

    /// Ends a context at a group: parentheses end what precedes the arguments, and braces what precedes the members.
    fn pass_group(&mut self, delimiter: Delimiter) {
        let ends = match (&self.context, delimiter) {
            (Context::Function, Delimiter::Paren) => true,
            (Context::Impl(_), Delimiter::Brace) => true,
            _ => false,
        };
        if ends && self.angles.are_closed() {
            self.begin(Context::Other);
        }
    }
}
