//! Kinds of marks, of one, two or three characters.
ghost use Rattle.std.specs.Prelude.{◌≡◌, ℕ, ◌∷◌, [], true, OnOk};
ghost use Rattle.syn_grammar.specs.Tokens.{end, ◌⧺◌};
ghost use Rattle.syn_grammar.specs.Grammar.{spell};
ghost use Rattle.syn_grammar.proofs.Looks.{known_mark};
ghost use Rattle.syn_tokens.specs.Faults.{expected};
ghost use Rattle.syn_tokens.specs.Leaves.{placed};
ghost use Rattle.syn_tokens.specs.Punct.{is_punct_character};

use crate::punct::{Punct, Spacing};
use crate::span::Span;
use crate::stream::builder::StreamBuilder;
use crate::token::MarkKind;
use std::alloc::AllocError;

/// A kind of mark of one character.
pub trait OneCharacter {
    ghost character: { ℕ };

    fn character() -> char
        ensures { result ≡ character };

    /// The error message if the mark is missing: ``expected `;` ``, with its characters.
    fn expected() -> &'static str
        ensures { result.now ≡ expected (character ∷ []) };

    /// Marks are made of it.
    ghost printable: { is_punct_character character ≡ true };
}

/// A kind of mark of two characters.
pub trait TwoCharacters {
    ghost first: { ℕ };

    ghost second: { ℕ };

    fn characters() -> (char, char)
        ensures { result ≡ (first, second) };

    /// The error message if the mark is missing: ``expected `;` ``, with its characters.
    fn expected() -> &'static str
        ensures { result.now ≡ expected (first ∷ second ∷ []) };

    /// It is a mark of the grammar.
    ghost known: { known_mark (first ∷ second ∷ []) ≡ true };

    /// Marks are made of them.
    ghost printable: { (is_punct_character first ≡ true) × (is_punct_character second ≡ true) };
}

/// A kind of mark of three characters.
pub trait ThreeCharacters {
    ghost first: { ℕ };

    ghost second: { ℕ };

    ghost third: { ℕ };

    fn characters() -> (char, char, char)
        ensures { result ≡ (first, second, third) };

    /// The error message if the mark is missing: ``expected `;` ``, with its characters.
    fn expected() -> &'static str
        ensures { result.now ≡ expected (first ∷ second ∷ third ∷ []) };

    /// It is a mark of the grammar.
    ghost known: { known_mark (first ∷ second ∷ third ∷ []) ≡ true };

    /// Marks are made of them.
    ghost printable: { (is_punct_character first ≡ true) × (is_punct_character second ≡ true) × (is_punct_character third ≡ true) };
}

impl<K: OneCharacter> MarkKind<1> for K {
    ghost text = { K.character ∷ [] };

    fn print(spans: &[Span; 1], out: &mut StreamBuilder) -> Result<(), AllocError> {
        let [span] = *spans;
        out.add_punct(K::character(), Spacing::Alone, span)
    }

    fn expected() -> &'static str {
        <K as OneCharacter>::expected()
    }
}

impl<K: TwoCharacters> MarkKind<2> for K {
    ghost text = { K.first ∷ K.second ∷ [] };

    #[tactic(auto, using(crate::proofs::Prints::prints))]
    fn print(spans: &[Span; 2], out: &mut StreamBuilder) -> Result<(), AllocError> {
        let (c, d) = K::characters();
        let [first, second] = *spans;
        out.add_punct(c, Spacing::Joint, first)?;
        out.add_punct(d, Spacing::Alone, second)
    }

    fn expected() -> &'static str {
        <K as TwoCharacters>::expected()
    }
}

impl<K: ThreeCharacters> MarkKind<3> for K {
    ghost text = { K.first ∷ K.second ∷ K.third ∷ [] };

    #[tactic(auto, using(crate::proofs::Prints::prints))]
    fn print(spans: &[Span; 3], out: &mut StreamBuilder) -> Result<(), AllocError> {
        let (c, d, e) = K::characters();
        let [first, second, third] = *spans;
        out.add_punct(c, Spacing::Joint, first)?;
        out.add_punct(d, Spacing::Joint, second)?;
        out.add_punct(e, Spacing::Alone, third)
    }

    fn expected() -> &'static str {
        <K as ThreeCharacters>::expected()
    }
}
