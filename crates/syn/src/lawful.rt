//! What has a canonical print. (The trait and the function `canonical` can't be in one module: their names differ in
//! the case alone.)
ghost use Rattle.std.specs.Prelude.{◌≡◌};
ghost use Rattle.syn_grammar.specs.Grammar as grammar;
ghost use Rattle.syn_grammar.specs.Rules.{Rule};
ghost use Rattle.syn_parse.specs.Form.{of};

use syn_parse::parse::Parse;
use syn_tokens::print::ToTokens;

/// A type that is read and printed by one rule of the grammar, so that the laws of that rule hold for it: from one stream
/// at most one tree is read, its print is read again with the same normal form, and equal normal forms print alike.
pub trait Canonical: Parse + ToTokens {
    /// The rule.
    ghost rule: { Rule };

    /// The rule is all that it reads.
    ghost reads_rule: { Self.form ≡ of (grammar.rule rule) };
}
