//! Names where some keywords are allowed too.
ghost use Rattle.std.specs.Prelude.{◌≡◌, ◌∷◌, []};
ghost use Rattle.syn_grammar.specs.Words.{Text, w_crate, w_self, w_super, w_try, w_underscore};
ghost use Rattle.syn_grammar.specs.Tokens.{one_of_texts};
ghost use Rattle.syn_tokens.specs.Leaves.{syntax_of_ident};
ghost use Rattle.syn_lower.specs.Parsing.{name_or as name_kind, take_token, Computes, Moved, IsSyntax};

use syn_parse::buffer::ParseBuffer;
use syn_parse::read::refusal::Parsed;
use syn_tokens::ident::Ident;

/// Keywords that are allowed as names.
pub(crate) trait Keywords {
    ghost use Rattle.std.specs.Prelude.{◌≡◌, List};
    ghost use Rattle.syn_grammar.specs.Words.{Text};
    ghost use Rattle.syn_grammar.specs.Tokens.{one_of_texts};

    ghost texts: { List Text };

    /// Whether it is one of them.
    fn contain(ident: &Ident) -> bool
        ensures { result ≡ one_of_texts ident.now.text texts };
}

/// `_`
pub(crate) struct OrUnderscore;

impl Keywords for OrUnderscore {
    ghost texts = { w_underscore ∷ [] };

    fn contain(ident: &Ident) -> bool {
        ident.is("_")
    }
}

/// `self`
pub(crate) struct OrSelf;

impl Keywords for OrSelf {
    ghost texts = { w_self ∷ [] };

    fn contain(ident: &Ident) -> bool {
        ident.is("self")
    }
}

/// `try`
pub(crate) struct OrTry;

impl Keywords for OrTry {
    ghost texts = { w_try ∷ [] };

    fn contain(ident: &Ident) -> bool {
        ident.is("try")
    }
}

/// The keywords of trees of a use: `self`, `super`, `crate` and `try`.
pub(crate) struct OrUseWord;

impl Keywords for OrUseWord {
    ghost texts = { w_self ∷ w_super ∷ w_crate ∷ w_try ∷ [] };

    fn contain(ident: &Ident) -> bool {
        ident.is("self") || ident.is("super") || ident.is("crate") || ident.is("try")
    }
}

/// An identifier that is no keyword, or one of these.
#[tactic(auto, using(syn_recognize::proofs::Names::name_or_read, syn_recognize::proofs::Names::name_or_refused, syn_recognize::proofs::Names::no_name_or))]
pub(crate) fn name_or<K: Keywords>(input: &mut ParseBuffer<'_>) -> Parsed<Ident>
    ensures reads { Computes IsSyntax syntax_of_ident (take_token (name_kind K.texts) input.old) result input.new }
    ensures moved { Moved input.old result input.new }
{
    let mut ahead = input.fork();
    let ident = ahead.read_identifier()?;
    if ident.is_keyword() && !K::contain(&ident) {
        return Err(input.refusal("expected identifier"));
    }
    input.advance_to(&ahead);
    Ok(ident)
}
