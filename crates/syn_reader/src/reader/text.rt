//! Printing token streams as text.
ghost use Rattle.std.specs.Prelude.{◌≡◌, [], ◌++◌, true, false, OnOk, IfOk, IfErr, MatchOption, string_bytes};
ghost use Rattle.std.specs.Char.{encode_utf8};
ghost use Rattle.syn_grammar.specs.Tokens.{None, is_visible};
ghost use Rattle.syn_tokens.specs.Delimiters.{delimiter_of};
ghost use Rattle.syn_tokens.specs.Punct.{is_joint};
ghost use Rattle.syn_reader.specs.Spelling.{opening_delimiter, closing_delimiter};
ghost use Rattle.syn_reader.specs.Texts.{gap, text_of};
ghost use Rattle.syn_reader.specs.EntryTexts.{entry_text, direct_after};
ghost use Rattle.syn_tokens.specs.Faults.{out_of_memory};

use std::alloc::AllocError;
use syn_tokens::delimiter::Delimiter;
use syn_tokens::error::Result;
use syn_tokens::punct::{Punct, Spacing};
use syn_tokens::stream::TokenStream;
use syn_tokens::stream::entry::{Entry, Token};

/// The text of a token stream: its tokens and the delimiters of its groups, separated by one space, except after a `Joint`
/// character of a mark. The delimiters of a `None` group are not printed. Fails only if memory is refused.
#[tactic(auto, using(crate::proofs::WrittenEntries::whole_text, crate::proofs::WrittenEntries::next_entry, crate::proofs::WrittenEntries::no_entry))]
pub fn token_text(tokens: &TokenStream) -> Result<String>
    ensures text { IfOk result (λ text. string_bytes text ≡ text_of tokens.now) }
    ensures memory { IfErr result (λ e. e ≡ out_of_memory) }
{
    let mut writer = Writer {
        text: String::new(tokens.alloc()),
        glued: true,
    };
    for entry in tokens.entries() {
        writer.entry(entry)?;
    }
    Ok(writer.text)
}

/// The text that is printed so far.
#[derive(Drop)]
struct Writer {
    text: String,
    /// Whether the next entry follows without a space.
    glued: bool,
}

impl Writer {
    /// Prints an entry; the delimiters of an invisible group are not printed.
    fn entry(&mut self, entry: &Entry) -> std::result::Result<(), AllocError>
        ensures text { OnOk result (string_bytes self.new.text ≡ string_bytes self.old.text ++ entry_text self.old.glued entry.now) }
        ensures glued { OnOk result (self.new.glued ≡ direct_after self.old.glued entry.now) }
    {
        match entry.token() {
            Token::Ident(ident) => self.word(ident.text()),
            Token::Literal(literal) => self.word(literal.text()),
            Token::Punct(punct) => self.punct(&punct),
            Token::Open(open) => match delimiter_texts(open.delimiter) {
                Some((opening, _)) => self.word(opening),
                None => Ok(()),
            },
            Token::Close(close) => match delimiter_texts(close.delimiter) {
                Some((_, closing)) => self.word(closing),
                None => Ok(()),
            },
        }
    }

    fn word(&mut self, word: &str) -> std::result::Result<(), AllocError>
        ensures text { OnOk result (string_bytes self.new.text ≡ string_bytes self.old.text ++ (gap self.old.glued ++ word.now)) }
        ensures glued { OnOk result (self.new.glued ≡ false) }
    {
        self.space()?;
        self.text.push_str(word)
    }

    fn punct(&mut self, punct: &Punct) -> std::result::Result<(), AllocError>
        ensures text { OnOk result (string_bytes self.new.text ≡ string_bytes self.old.text ++ (gap self.old.glued ++ encode_utf8 punct.now.character)) }
        ensures glued { OnOk result (self.new.glued ≡ is_joint punct.now.spacing) }
    {
        self.space()?;
        self.glued = punct.spacing == Spacing::Joint;
        self.text.push(punct.character())
    }

    /// Prints the space before the next entry, if there is one.
    fn space(&mut self) -> std::result::Result<(), AllocError>
        ensures text { OnOk result (string_bytes self.new.text ≡ string_bytes self.old.text ++ gap self.old.glued) }
        ensures glued { OnOk result (self.new.glued ≡ false) }
    {
        if self.glued {
            self.glued = false;
            return Ok(());
        }
        self.text.push(' ')
    }
}

/// The opening and the closing delimiter of a visible group.
fn delimiter_texts(delimiter: Delimiter) -> Option<(&'static str, &'static str)>
    ensures { MatchOption result (delimiter_of delimiter ≡ None)
        (λ pair. (is_visible (delimiter_of delimiter) ≡ true) × (pair.0.now ≡ opening_delimiter (delimiter_of delimiter))
        × (pair.1.now ≡ closing_delimiter (delimiter_of delimiter))) }
{
    match delimiter {
        Delimiter::Paren => Some(("(", ")")),
        Delimiter::Brace => Some(("{", "}")),
        Delimiter::Bracket => Some(("[", "]")),
        Delimiter::None => None,
    }
}
