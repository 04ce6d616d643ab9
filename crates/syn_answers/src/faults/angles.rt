//! Which `<` are open.
use syn_tokens::punct::{Punct, Spacing};
use syn_tokens::stream::cursor::TokenTreeRef;

/// How many `<` are open after the trees passed so far. The `>` of a `->` closes none.
#[derive(Drop)]
pub(crate) struct Angles {
    open: usize,
    /// Whether the last tree is a `-` that is joined to the mark after it.
    after_dash: bool,
}

impl Angles {
    /// None is open.
    pub(crate) fn none() -> Angles {
        Angles {
            open: 0,
            after_dash: false,
        }
    }

    /// Whether none is open.
    pub(crate) fn are_closed(&self) -> bool {
        self.open == 0
    }

    /// Goes past a tree.
    pub(crate) fn pass(&mut self, tree: &TokenTreeRef<'_>) {
        match tree {
            TokenTreeRef::Punct(punct) => self.pass_mark(punct),
            _ => self.after_dash = false,
        }
    }

    /// Goes past a character of a mark.
    fn pass_mark(&mut self, punct: &Punct) {
        let after_dash = self.after_dash;
        self.after_dash = punct.character() == '-' && punct.spacing == Spacing::Joint;
        match punct.character() {
            '<' => self.open = self.open.saturating_add(1),
            '>' => {
                if !after_dash {
                    self.open = self.open.saturating_sub(1);
                }
            }
            _ => {}
        }
    }
}
