//! Parsers of struct literals, after their path.
ghost use Rattle.std.specs.Prelude.{◌≡◌};
ghost use Rattle.syn_grammar.specs.Rules as rules;
ghost use Rattle.syn_grammar.specs.Grammar.{Both, Left, Node, Right};
ghost use Rattle.syn_grammar.specs.Run.{wrap};
ghost use Rattle.syn_tokens.specs.Kinds.{comma_syntax, dot_dot_syntax};
ghost use Rattle.syn_tokens.specs.Leaves.{maybe, syntax_of_ident};
ghost use Rattle.syn_lower.specs.Attributes.{attributes_syntax};
ghost use Rattle.syn_lower.specs.Parsing.{parse_rule, parse_form, list_of, Computes, Moved, Kept, MayBelow, MayHere, IsSyntax};
ghost use Rattle.syn_pat.specs.Patterns.{path_of};
ghost use Rattle.syn_expr_parse.specs.Primary.{in_literal, literal_form};
ghost use Rattle.syn_expr_parse.specs.StructLiterals.{base_form, literal_of_parts, named_form, numbered_form};

use crate::parsing::nested::{Expr, FieldValue, Nested, Rung, Spot};
use crate::trees::Trees;
use syn_lower::attr::outer_attributes;
use syn_lower::{Attribute, Member, Path, QSelf};
use syn_parse::buffer::ParseBuffer;
use syn_parse::read::refusal::Parsed;
use syn_recognize::looks::at_integer;
use syn_tokens::ident::Ident;
use syn_tokens::punctuated::Punctuated;
use syn_tokens::token::{Colon, Comma, DotDot, kind};

/// What the braces of a struct literal hold: fields; `..`; and an expression.
type Literal<N> = (
    Punctuated<FieldValue<N>, Comma>,
    Option<DotDot>,
    Option<Box<Expr<N>>>,
);

/// A struct literal after its path: its braces.
#[tactic(auto, unfolding(syn_grammar::specs::Take::is_end))]
pub(super) fn struct_literal<N: Nested>(
    qself: Option<QSelf>,
    path: Path,
    nested: &N,
    input: &mut ParseBuffer<'_>,
) -> Parsed<Box<Expr<N>>>
    requires { MayBelow N.may nested.now input.old }
    ensures reads { Computes IsSyntax (λ e. N.Trees.expr_syntax e.value) (wrap (in_literal (path_of qself path)) (parse_form literal_form input.old)) result input.new }
    ensures moved { Moved input.old result input.new }
{
    let (brace_token, mut content) = input.read_group::<kind::Brace>()?;
    let (fields, dot2_token, rest) = literal_fields(nested, &mut content)?;
    content.read_end()?;
    N::Trees::expr_struct(
        qself,
        path,
        brace_token,
        fields,
        dot2_token,
        rest,
        input.alloc(),
    )
}

/// Fields with commas between them, up to the end; and there, or alone, `..` and an expression.
#[tactic(auto, using(crate::proofs::StructLiterals::literal_end, crate::proofs::StructLiterals::literal_refused))]
fn literal_fields<N: Nested>(nested: &N, input: &mut ParseBuffer<'_>) -> Parsed<Literal<N>>
    requires { MayHere N.may nested.now input.old }
    ensures reads { Computes IsSyntax (λ p. literal_of_parts (list_of N.Trees.field_syntax comma_syntax p.0.pairs p.0.last) (maybe dot_dot_syntax p.1) (maybe (λ e. Node (N.Trees.expr_syntax e.value)) p.2)) (parse_rule rules.literal_fields input.old) result input.new }
    ensures kept { Kept input.old result input.new }
{
    let mut list = Punctuated::new(input.alloc());
    'fields: while !input.is_empty() {
        if input.peek::<DotDot>() {
            let (dot2_token, rest) = base(nested, input)?;
            return Ok((list, Some(dot2_token), Some(rest)));
        }
        let field = field(nested, input)?;
        if !input.peek::<Comma>() {
            list.push_value(field)?;
            return Ok((list, None, None));
        }
        let comma = input.read()?;
        list.push_pair(field, comma)?;
    }
    Ok((list, None, None))
}

/// `..` and an expression.
fn base<N: Nested>(nested: &N, input: &mut ParseBuffer<'_>) -> Parsed<(DotDot, Box<Expr<N>>)>
    requires { MayBelow N.may nested.now input.old }
    ensures reads { Computes IsSyntax (λ p. Both (dot_dot_syntax p.0) (Node (N.Trees.expr_syntax p.1.value))) (parse_form base_form input.old) result input.new }
    ensures moved { Moved input.old result input.new }
{
    let dots = input.read()?;
    let rest = nested.expr(Rung::Whole(Spot::Anywhere), input)?;
    Ok((dots, rest))
}

/// A field: attributes; and its number or its name, with a value or, after a name, without one.
#[tactic(auto, using(syn_grammar::proofs::Each::literal_field_is))]
fn field<N: Nested>(nested: &N, input: &mut ParseBuffer<'_>) -> Parsed<FieldValue<N>>
    requires { MayHere N.may nested.now input.old }
    ensures reads { Computes IsSyntax N.Trees.field_syntax (parse_rule rules.literal_field input.old) result input.new }
    ensures moved { Moved input.old result input.new }
{
    let attrs = outer_attributes(input)?;
    if at_integer(input) {
        numbered(attrs, nested, input)
    } else {
        named(attrs, nested, input)
    }
}

/// A field by its number, after its attributes.
fn numbered<N: Nested>(
    attrs: Vec<Attribute>,
    nested: &N,
    input: &mut ParseBuffer<'_>,
) -> Parsed<FieldValue<N>>
    requires { MayHere N.may nested.now input.old }
    ensures reads { Computes IsSyntax N.Trees.field_syntax (wrap Node (wrap (Both (attributes_syntax attrs.items)) (wrap Left (parse_form numbered_form input.old)))) result input.new }
    ensures moved { Moved input.old result input.new }
{
    let index = input.read()?;
    let colon_token = input.read()?;
    let value = nested.expr(Rung::Whole(Spot::Anywhere), input)?;
    Ok(N::Trees::field_value(attrs, Member::Unnamed(index), colon_token, value))
}

/// A field by its name, after its attributes.
fn named<N: Nested>(
    attrs: Vec<Attribute>,
    nested: &N,
    input: &mut ParseBuffer<'_>,
) -> Parsed<FieldValue<N>>
    requires { MayHere N.may nested.now input.old }
    ensures reads { Computes IsSyntax N.Trees.field_syntax (wrap Node (wrap (Both (attributes_syntax attrs.items)) (wrap Right (parse_form named_form input.old)))) result input.new }
    ensures moved { Moved input.old result input.new }
{
    let name: Ident = input.read()?;
    if !input.peek::<Colon>() {
        return N::Trees::lone_field(attrs, name, input.alloc());
    }
    let colon_token = input.read()?;
    let value = nested.expr(Rung::Whole(Spot::Anywhere), input)?;
    Ok(N::Trees::field_value(attrs, Member::Named(name), colon_token, value))
}
