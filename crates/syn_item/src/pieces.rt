//! Parsers of what many items have: members in braces, bounds, values, macros as members; and of what is kept verbatim.
ghost use Rattle.std.specs.Prelude.{◌≡◌, ◌<◌, IfOk, codes};
ghost use Rattle.syn_grammar.specs.Rules as rules;
ghost use Rattle.syn_grammar.specs.Rules.{Rule as GrammarRule};
ghost use Rattle.syn_grammar.specs.Table as table;
ghost use Rattle.syn_parse.specs.Form.{◌followed_by◌, by, optional, parse, punctuation};
ghost use Rattle.syn_tokens.specs.InOrder.{pair_of};
ghost use Rattle.syn_tokens.specs.Kinds.{eq_syntax, plus_syntax, semi_syntax};
ghost use Rattle.syn_tokens.specs.Leaves.{maybe};
ghost use Rattle.syn_lower.specs.Attributes.{all_attributes_syntax, attributes_syntax};
ghost use Rattle.syn_lower.specs.Bodies.{attributes_before_body};
ghost use Rattle.syn_lower.specs.Bounds.{solid, syntax_of_TypeParamBound};
ghost use Rattle.syn_lower.specs.Generics.{bounds_syntax};
ghost use Rattle.syn_lower.specs.Parsing.{parse_rule, parse_form, Computes, Moved, Kept, IsSyntax, list_of};
ghost use Rattle.syn_recognize.specs.Names.{rule_of};
ghost use Rattle.syn_grammar.specs.Tokens.{at_word, pick};
ghost use Rattle.syn_grammar.specs.Words.{equals, w_const};
ghost use Rattle.syn_grammar.specs.Take.{sees};
ghost use Rattle.syn_grammar.specs.MemberPlans as plan;
ghost use Rattle.syn_parse.specs.Peeks.{past};
ghost use Rattle.syn_item.specs.Macros.{ended_macro};
ghost use Rattle.syn_item.specs.ImplForms.{type_head_form, type_head_syntax};
ghost use Rattle.syn_item.specs.Parts.{members_of};
ghost use Rattle.syn_item.specs.Pieces.{bounds_form, braced_form, braced_syntax, IsMembers};
ghost use Rattle.syn_item.specs.Planned.{CopiesBy};

use crate::bodies::with_inner;
use crate::simple::ended_group;
use syn_lower::parsing::module_path;
use syn_lower::{Attribute, Generics, TypeParamBound};
use syn_parse::buffer::ParseBuffer;
use syn_parse::read::lists::punctuated_list;
use syn_parse::read::refusal::{Parsed, Refusal};
use syn_parse::read::{Peek, Read};
use syn_pat::Macro;
use syn_recognize::looks::at_bang;
use syn_recognize::{Rule, read_by};
use syn_tokens::ident::Ident;
use syn_tokens::punctuated::Punctuated;
use syn_tokens::stream::TokenStream;
use syn_tokens::token;
use syn_tokens::token::{
    Async, Brace, Colon, Const, Eq, Extern, Fn, Plus, Semi, Unsafe, Where, kind,
};

/// Members, to the end. Each reads some token.
#[tactic(auto, using(crate::proofs::MemberLists::none_more))]
pub(crate) fn members<T: Read + Drop>(input: &mut ParseBuffer<'_>) -> Parsed<Vec<T>>
    requires some { 0 < T.takes }
    ensures reads { (k : GrammarRule) → IsMembers k T.form → Computes IsSyntax (λ v. members_of T.syntax v.items) (parse_rule k input.old) result input.new }
    ensures kept { Kept input.old result input.new }
{
    let mut members = Vec::new(input.alloc());
    'members: while !input.is_empty() {
        let member = input.read()?;
        members.push(member)?;
    }
    Ok(members)
}

/// Inner attributes and members, in braces. The inner attributes follow these outer ones in the list that is returned.
#[tactic(auto, unfolding(syn_grammar::specs::Take::is_end))]
pub(crate) fn braced<T: Read + Drop>(
    attrs: Vec<Attribute>,
    input: &mut ParseBuffer<'_>,
) -> Parsed<(Vec<Attribute>, Brace, Vec<T>)>
    requires some { 0 < T.takes }
    requires outer { all_attributes_syntax attrs.items ≡ attributes_syntax attrs.items }
    ensures reads { (k : GrammarRule) → IsMembers k T.form → Computes IsSyntax (λ p. braced_syntax T.syntax (p.0.items, p.1, p.2.items)) (parse_form (braced_form k) input.old) result input.new }
    ensures before { IfOk result (λ p. attributes_before_body p.0.items ≡ attributes_syntax attrs.items) }
    ensures moved { Moved input.old result input.new }
{
    let (brace_token, mut content) = input.read_group::<kind::Brace>()?;
    let attrs = with_inner(attrs, &mut content)?;
    let members = members(&mut content)?;
    content.read_end()?;
    Ok((attrs, brace_token, members))
}

/// `=` and what follows it, if `=` is next.
pub(crate) fn after_equals<T: Read>(input: &mut ParseBuffer<'_>) -> Parsed<Option<(Eq, T)>>
    ensures reads { Computes IsSyntax (λ o. maybe (pair_of eq_syntax T.syntax) o) (parse (optional (by table.at_equals) (punctuation equals followed_by T.form)) input.old) result input.new }
    ensures kept { Kept input.old result input.new }
{
    if input.peek::<Eq>() {
        Ok(Some((input.read()?, input.read()?)))
    } else {
        Ok(None)
    }
}

/// What ends the bounds of a type: `where`, `=` or `;`.
struct TypeBoundsEnd;

impl Peek for TypeBoundsEnd {
    ghost look = { by table.at_type_bounds_end };

    ghost fault = { codes "expected `where`, `=` or `;`" };

    #[tactic(auto, using(syn_grammar::proofs::Looks::sees_or))]
    fn peek(input: &ParseBuffer<'_>) -> bool {
        input.peek::<Where>() || input.peek::<Eq>() || input.peek::<Semi>()
    }

    fn expected() -> &'static str {
        "expected `where`, `=` or `;`"
    }
}

/// What ends the bounds of a trait: `where` or braces.
struct SupertraitsEnd;

impl Peek for SupertraitsEnd {
    ghost look = { by table.at_supertraits_end };

    ghost fault = { codes "expected `where` or curly braces" };

    #[tactic(auto, using(syn_grammar::proofs::Looks::sees_or))]
    fn peek(input: &ParseBuffer<'_>) -> bool {
        input.peek::<Where>() || input.peek::<Brace>()
    }

    fn expected() -> &'static str {
        "expected `where` or curly braces"
    }
}

/// The bounds of a type, up to what ends them.
fn type_bounds(input: &mut ParseBuffer<'_>) -> Parsed<Punctuated<TypeParamBound, Plus>>
    ensures reads { Computes IsSyntax (λ l. solid (list_of syntax_of_TypeParamBound plus_syntax l.pairs l.last)) (parse_rule rules.type_bounds input.old) result input.new }
    ensures kept { Kept input.old result input.new }
{
    punctuated_list::<TypeBoundsEnd, Plus, _, _>(input, |next| TypeParamBound::read(next))
}

/// The bounds of a trait, up to what ends them.
fn supertraits(input: &mut ParseBuffer<'_>) -> Parsed<Punctuated<TypeParamBound, Plus>>
    ensures reads { Computes IsSyntax (λ l. solid (list_of syntax_of_TypeParamBound plus_syntax l.pairs l.last)) (parse_rule rules.supertraits input.old) result input.new }
    ensures kept { Kept input.old result input.new }
{
    punctuated_list::<SupertraitsEnd, Plus, _, _>(input, |next| TypeParamBound::read(next))
}

/// A colon and the bounds of a type, or nothing.
#[tactic(auto, unfolding(syn_lower::specs::Bounds::solid))]
pub(crate) fn colon_and_type_bounds(
    input: &mut ParseBuffer<'_>,
) -> Parsed<(Option<Colon>, Punctuated<TypeParamBound, Plus>)>
    ensures reads { Computes IsSyntax bounds_syntax (parse_form (bounds_form rules.type_bounds) input.old) result input.new }
    ensures kept { Kept input.old result input.new }
{
    if input.peek::<Colon>() {
        Ok((Some(input.read()?), type_bounds(input)?))
    } else {
        Ok((None, Punctuated::new(input.alloc())))
    }
}

/// A colon and the bounds of a trait, or nothing.
#[tactic(auto, unfolding(syn_lower::specs::Bounds::solid))]
pub(crate) fn colon_and_supertraits(
    input: &mut ParseBuffer<'_>,
) -> Parsed<(Option<Colon>, Punctuated<TypeParamBound, Plus>)>
    ensures reads { Computes IsSyntax bounds_syntax (parse_form (bounds_form rules.supertraits) input.old) result input.new }
    ensures kept { Kept input.old result input.new }
{
    if input.peek::<Colon>() {
        Ok((Some(input.read()?), supertraits(input)?))
    } else {
        Ok((None, Punctuated::new(input.alloc())))
    }
}

/// A keyword that starts a signature, or continues it after `const`: `async`, `unsafe`, `extern` or `fn`.
struct FunctionWord;

impl Peek for FunctionWord {
    ghost look = { by plan.at_function };

    ghost fault = { codes "expected `fn`" };

    #[tactic(auto, using(syn_grammar::proofs::Looks::sees_or))]
    fn peek(input: &ParseBuffer<'_>) -> bool {
        input.peek::<Async>()
            || input.peek::<Unsafe>()
            || input.peek::<Extern>()
            || input.peek::<Fn>()
    }

    fn expected() -> &'static str {
        "expected `fn`"
    }
}

/// Whether a signature is next: a word that begins one, or `const` followed by such a word.
pub(crate) fn at_function(input: &ParseBuffer<'_>) -> bool
    ensures { result ≡ pick (sees (at_word w_const) input.now) (sees plan.at_function (past input.now)) (sees plan.at_function input.now) }
{
    if input.peek::<Const>() {
        input.peek2::<FunctionWord>()
    } else {
        input.peek::<FunctionWord>()
    }
}

/// `type`, a name and generics.
pub(crate) fn type_head(input: &mut ParseBuffer<'_>) -> Parsed<(token::Type, Ident, Generics)>
    ensures reads { Computes IsSyntax type_head_syntax (parse_form type_head_form input.old) result input.new }
    ensures moved { Moved input.old result input.new }
{
    Ok((input.read()?, input.read()?, Generics::read_params(input)?))
}

/// A macro as a member: a path in module style, `!` that isn't `!=`, and a group of any tokens, followed by `;` unless it is in
/// braces.
#[tactic(auto, using(syn_grammar::proofs::Each::member_macro_is))]
pub(crate) fn member_macro(input: &mut ParseBuffer<'_>) -> Parsed<(Macro, Option<Semi>)>
    ensures reads { Computes IsSyntax (λ p. ended_macro (maybe semi_syntax p.1) p.0) (parse_rule rules.member_macro input.old) result input.new }
    ensures moved { Moved input.old result input.new }
{
    let path = module_path(input)?;
    if !at_bang(input) {
        return Err(input.refusal("unexpected token"));
    }
    let bang_token = input.read()?;
    let (delimiter, tokens, semi_token) = ended_group(input)?;
    let mac = Macro {
        path,
        bang_token,
        delimiter,
        tokens,
    };
    Ok((mac, semi_token))
}

/// A copy of the tokens from `start` on that the rule reads, spacing included. The buffer follows them then.
pub(crate) fn kept_tokens<'a>(
    rule: Rule,
    start: &ParseBuffer<'a>,
    input: &mut ParseBuffer<'a>,
) -> Parsed<TokenStream>
    ensures reads { CopiesBy IsSyntax (parse_rule (rule_of rule) start.now) start.now result input.new }
{
    input.advance_to(start);
    read_by(rule, input)?;
    match start.between(input) {
        Ok(tokens) => Ok(tokens),
        Err(error) => Err(Refusal::Memory(error.into_alloc_error())),
    }
}
