//! Parsers of blocks, and of what ends with one: loops and `if`.
ghost use Rattle.std.specs.Prelude.{◌≡◌, [], IfOk};
ghost use Rattle.syn_grammar.specs.Rules as rules;
ghost use Rattle.syn_grammar.specs.Table as table;
ghost use Rattle.syn_grammar.specs.Shape.{ForLoop, Loop, Unsafe, While};
ghost use Rattle.syn_grammar.specs.Grammar.{Both, Left, Node};
ghost use Rattle.syn_grammar.specs.Values.{core, new, with_label};
ghost use Rattle.syn_grammar.specs.Run.{wrap};
ghost use Rattle.syn_tokens.specs.Kinds.{else_syntax};
ghost use Rattle.syn_tokens.specs.Leaves.{maybe};
ghost use Rattle.syn_lower.specs.Attributes.{none_listed};
ghost use Rattle.syn_lower.specs.Parsing.{parse_rule, parse_form, Computes, Parses, Moved, Kept, MayBelow, MayHere, itself, IsSyntax};
ghost use Rattle.syn_expr_parse.specs.BlockForms.{else_branch_form, for_form, label_form, labelled_as, labelled_form, loop_form, otherwise_form, unsafe_form, while_form};
ghost use Rattle.syn_expr_parse.specs.Parts.{after_else, block_after_else, label_syntax};
ghost use Rattle.syn_lower.specs.Bodies.{attributes_before_body, attributes_in_body, body as body_syntax};

use crate::parsing::nested::{Block, Expr, Nested, Rung, Spot};
use crate::trees::Trees;
use syn_lower::Attribute;
use syn_lower::attr::inner_attributes;
use syn_parse::buffer::ParseBuffer;
use syn_parse::read::Peek;
use syn_parse::read::refusal::Parsed;
use syn_recognize::looks::at_inner_attribute;
use syn_tokens::lifetime::Lifetime;
use syn_tokens::token::{Brace, Colon, Else, If, Loop, Unsafe, While, kind};

/// Statements in braces, without inner attributes.
#[tactic(auto, using(syn_grammar::proofs::Each::block_is), unfolding(syn_grammar::specs::Take::is_end))]
pub fn block<N: Nested>(nested: &N, input: &mut ParseBuffer<'_>) -> Parsed<Block<N>>
    requires { MayBelow N.may nested.now input.old }
    ensures parses { Parses IsSyntax N.Trees.block_syntax rules.block input.old result input.new }
{
    let (brace_token, mut content) = input.read_group::<kind::Brace>()?;
    let stmts = nested.statements(&mut content)?;
    content.read_end()?;
    Ok(N::Trees::block(brace_token, stmts))
}

/// The inner attributes of a block.
#[tactic(auto, using(crate::proofs::Blocks::inner_in_body, crate::proofs::Blocks::none_before_body))]
fn body_attributes(input: &mut ParseBuffer<'_>) -> Parsed<Vec<Attribute>>
    ensures reads { Computes IsSyntax (λ v. attributes_in_body v.items) (parse_rule rules.inner_attributes input.old) result input.new }
    ensures inside { IfOk result (λ v. attributes_before_body v.items ≡ none_listed) }
    ensures kept { Kept input.old result input.new }
{
    inner_attributes(input)
}

/// Inner attributes and statements, in braces.
#[tactic(auto, using(syn_grammar::proofs::Each::body_is), unfolding(syn_grammar::specs::Take::is_end))]
pub(super) fn body<N: Nested>(
    nested: &N,
    input: &mut ParseBuffer<'_>,
) -> Parsed<(Vec<Attribute>, Block<N>)>
    requires { MayBelow N.may nested.now input.old }
    ensures reads { Computes IsSyntax (λ p. body_syntax p.0.items (N.Trees.block_syntax p.1)) (parse_rule rules.body input.old) result input.new }
    ensures inside { IfOk result (λ p. attributes_before_body p.0.items ≡ none_listed) }
    ensures moved { Moved input.old result input.new }
{
    let (brace_token, mut content) = input.read_group::<kind::Brace>()?;
    let attrs = body_attributes(&mut content)?;
    let stmts = nested.statements(&mut content)?;
    content.read_end()?;
    Ok((attrs, N::Trees::block(brace_token, stmts)))
}

/// Statements in braces, without inner attributes.
#[tactic(auto, using(syn_grammar::proofs::Each::plain_body_is, crate::proofs::Blocks::none_inside), unfolding(syn_grammar::specs::Take::is_end))]
fn plain_body<N: Nested>(nested: &N, input: &mut ParseBuffer<'_>) -> Parsed<Block<N>>
    requires { MayBelow N.may nested.now input.old }
    ensures reads { Computes IsSyntax (λ b. body_syntax [] (N.Trees.block_syntax b)) (parse_rule rules.plain_body input.old) result input.new }
    ensures moved { Moved input.old result input.new }
{
    let (brace_token, mut content) = input.read_group::<kind::Brace>()?;
    no_inner_attributes(&content)?;
    let stmts = nested.statements(&mut content)?;
    content.read_end()?;
    Ok(N::Trees::block(brace_token, stmts))
}

/// Refused where an inner attribute is next.
#[tactic(auto, using(syn_grammar::proofs::Each::no_inner_attributes_is))]
fn no_inner_attributes(input: &ParseBuffer<'_>) -> Parsed<()>
    ensures { Computes IsSyntax (λ _. none_listed) (parse_rule rules.no_inner_attributes input.now) result input.now }
{
    if at_inner_attribute(input) {
        return Err(input.refusal("unexpected token"));
    }
    Ok(())
}

/// A block as an expression, after `else` or as a constant.
#[tactic(auto, using(crate::proofs::Blocks::none_before))]
pub(super) fn else_block<N: Nested>(nested: &N, input: &mut ParseBuffer<'_>) -> Parsed<Box<Expr<N>>>
    requires { MayBelow N.may nested.now input.old }
    ensures reads { Computes IsSyntax (λ e. block_after_else (N.Trees.expr_syntax e.value)) (parse_form table.else_block input.old) result input.new }
    ensures block { IfOk result (λ e. after_else (N.Trees.expr_syntax e.value) ≡ Left (block_after_else (N.Trees.expr_syntax e.value))) }
    ensures bare { IfOk result (λ e. block_after_else (N.Trees.expr_syntax e.value) ≡ N.Trees.expr_syntax e.value) }
    ensures moved { Moved input.old result input.new }
{
    if input.peek::<Lifetime>() {
        return Err(input.refusal(Brace::expected()));
    }
    let block = plain_body(nested, input)?;
    let alloc = input.alloc();
    N::Trees::expr_block(Vec::new(alloc), None, block, alloc)
}

/// A lifetime and a colon, or nothing.
fn label(input: &mut ParseBuffer<'_>) -> Parsed<Option<(Lifetime, Colon)>>
    ensures reads { Computes IsSyntax label_syntax (parse_form label_form input.old) result input.new }
    ensures kept { Kept input.old result input.new }
{
    if !input.peek::<Lifetime>() {
        return Ok(None);
    }
    let name = input.read()?;
    Ok(Some((name, input.read()?)))
}

/// A block, or what ends with one: `if`, an `unsafe` block, or a block or a loop with a label or without it.
#[tactic(auto, using(syn_grammar::proofs::Each::block_like_is))]
pub(super) fn block_like<N: Nested>(nested: &N, input: &mut ParseBuffer<'_>) -> Parsed<Box<Expr<N>>>
    requires { MayBelow N.may nested.now input.old }
    ensures parses { Parses IsSyntax (λ e. Node (N.Trees.expr_syntax e.value)) rules.block_like input.old result input.new }
{
    if input.peek::<If>() {
        if_expression(nested, input)
    } else if input.peek::<Unsafe>() {
        unsafe_block(nested, input)
    } else {
        labelled_expression(nested, input)
    }
}

/// `unsafe` and a block.
fn unsafe_block<N: Nested>(nested: &N, input: &mut ParseBuffer<'_>) -> Parsed<Box<Expr<N>>>
    requires { MayBelow N.may nested.now input.old }
    ensures reads { Computes IsSyntax (λ e. N.Trees.expr_syntax e.value) (wrap (new Unsafe) (parse_form unsafe_form input.old)) result input.new }
    ensures moved { Moved input.old result input.new }
{
    let unsafe_token = input.read()?;
    let (attrs, block) = body(nested, input)?;
    N::Trees::expr_unsafe(attrs, unsafe_token, block, input.alloc())
}

/// A block or a loop, with a label or without it.
#[tactic(auto, using(crate::proofs::Blocks::labelled_loop))]
fn labelled_expression<N: Nested>(nested: &N, input: &mut ParseBuffer<'_>) -> Parsed<Box<Expr<N>>>
    requires { MayBelow N.may nested.now input.old }
    ensures reads { Computes IsSyntax (λ e. N.Trees.expr_syntax e.value) (parse_form labelled_form input.old) result input.new }
    ensures moved { Moved input.old result input.new }
{
    let label = label(input)?;
    if !input.peek::<Brace>() {
        return loop_expression(label, nested, input);
    }
    let (attrs, block) = body(nested, input)?;
    N::Trees::expr_block(attrs, label, block, input.alloc())
}

/// A loop, after its label or after none.
fn loop_expression<N: Nested>(
    label: Option<(Lifetime, Colon)>,
    nested: &N,
    input: &mut ParseBuffer<'_>,
) -> Parsed<Box<Expr<N>>>
    requires { MayBelow N.may nested.now input.old }
    ensures reads { Computes IsSyntax (λ e. N.Trees.expr_syntax e.value) (wrap (with_label (label_syntax label)) (wrap core (parse_rule rules.loop_expression input.old))) result input.new }
    ensures moved { Moved input.old result input.new }
{
    if input.peek::<Loop>() {
        endless_loop(label, nested, input)
    } else if input.peek::<While>() {
        while_loop(label, nested, input)
    } else {
        for_loop(label, nested, input)
    }
}

/// `loop` and a block.
fn endless_loop<N: Nested>(
    label: Option<(Lifetime, Colon)>,
    nested: &N,
    input: &mut ParseBuffer<'_>,
) -> Parsed<Box<Expr<N>>>
    requires { MayBelow N.may nested.now input.old }
    ensures reads { Computes IsSyntax (λ e. N.Trees.expr_syntax e.value) (wrap (labelled_as Loop (label_syntax label)) (parse_form loop_form input.old)) result input.new }
    ensures moved { Moved input.old result input.new }
{
    let loop_token = input.read()?;
    let (attrs, body) = body(nested, input)?;
    N::Trees::expr_loop(attrs, label, loop_token, body, input.alloc())
}

/// `while`, an expression and a block.
fn while_loop<N: Nested>(
    label: Option<(Lifetime, Colon)>,
    nested: &N,
    input: &mut ParseBuffer<'_>,
) -> Parsed<Box<Expr<N>>>
    requires { MayBelow N.may nested.now input.old }
    ensures reads { Computes IsSyntax (λ e. N.Trees.expr_syntax e.value) (wrap (labelled_as While (label_syntax label)) (parse_form while_form input.old)) result input.new }
    ensures moved { Moved input.old result input.new }
{
    let while_token = input.read()?;
    let cond = nested.expr(Rung::Whole(Spot::Head), input)?;
    let (attrs, body) = body(nested, input)?;
    N::Trees::expr_while(attrs, label, while_token, cond, body, input.alloc())
}

/// `for`, a pattern, `in`, an expression and a block.
fn for_loop<N: Nested>(
    label: Option<(Lifetime, Colon)>,
    nested: &N,
    input: &mut ParseBuffer<'_>,
) -> Parsed<Box<Expr<N>>>
    requires { MayBelow N.may nested.now input.old }
    ensures reads { Computes IsSyntax (λ e. N.Trees.expr_syntax e.value) (wrap (labelled_as ForLoop (label_syntax label)) (parse_form for_form input.old)) result input.new }
    ensures moved { Moved input.old result input.new }
{
    let for_token = input.read()?;
    let pat = input.read()?;
    let in_token = input.read()?;
    let expr = nested.expr(Rung::Whole(Spot::Head), input)?;
    let (attrs, body) = body(nested, input)?;
    N::Trees::expr_for_loop(
        attrs,
        label,
        for_token,
        pat,
        in_token,
        expr,
        body,
        input.alloc(),
    )
}

/// `if`, an expression and a block; and perhaps `else` with a block or another `if`.
#[tactic(auto, using(syn_grammar::proofs::Each::if_expression_is, crate::proofs::Blocks::none_shown))]
pub(super) fn if_expression<N: Nested>(
    nested: &N,
    input: &mut ParseBuffer<'_>,
) -> Parsed<Box<Expr<N>>>
    requires { MayBelow N.may nested.now input.old }
    ensures parses { Parses IsSyntax (λ e. Node (N.Trees.expr_syntax e.value)) rules.if_expression input.old result input.new }
{
    let if_token = input.read()?;
    let cond = nested.expr(Rung::Whole(Spot::Head), input)?;
    let then_branch = block(nested, input)?;
    let else_branch = otherwise(nested, input)?;
    N::Trees::expr_if(if_token, cond, then_branch, else_branch, input.alloc())
}

/// `else` with a block or another `if`, or nothing.
fn otherwise<N: Nested>(
    nested: &N,
    input: &mut ParseBuffer<'_>,
) -> Parsed<Option<(Else, Box<Expr<N>>)>>
    requires { MayBelow N.may nested.now input.old }
    ensures reads { Computes IsSyntax (λ o. maybe (λ p. Both (else_syntax p.0) (after_else (N.Trees.expr_syntax p.1.value))) o) (parse_form otherwise_form input.old) result input.new }
    ensures kept { Kept input.old result input.new }
{
    if !input.peek::<Else>() {
        return Ok(None);
    }
    let else_token = input.read()?;
    let branch = else_branch(nested, input)?;
    Ok(Some((else_token, branch)))
}

/// A block or another `if`, after `else`.
#[tactic(auto, using(crate::proofs::Blocks::if_after_else))]
fn else_branch<N: Nested>(nested: &N, input: &mut ParseBuffer<'_>) -> Parsed<Box<Expr<N>>>
    requires { MayHere N.may nested.now input.old }
    ensures reads { Computes IsSyntax (λ e. after_else (N.Trees.expr_syntax e.value)) (parse_form else_branch_form input.old) result input.new }
    ensures moved { Moved input.old result input.new }
{
    if input.peek::<Brace>() {
        else_block(nested, input)
    } else {
        nested.expr(Rung::If, input)
    }
}
