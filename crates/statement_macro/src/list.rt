//! The lines that are written of a function.

use crate::block::take_value;
use std::alloc::Global;
use std::fmt::Write as _;
use syn::deferred::DeferredBlock;
use syn::reader::token_text;
use syn::stmt::{Block, Stmt};
use syn::token::{TokenStream, TokenTreeRef};
use syn::{ItemFn, Span, ToTokens};

/// Adds a line with the name, one with the number of attributes, one for each parameter but a variadic one, one for each
/// statement, and one with the function without its value.
pub(crate) fn add_function(
    lines: &mut String,
    mut function: ItemFn,
    alloc: Global,
) -> syn::Result<()> {
    add_head(lines, &function, alloc)?;
    let block = add_body(lines, &function, alloc)?;
    replace_body(&mut function, block);
    let text = text_of(&function, alloc)?;
    writeln!(lines, "without value: {}", text.as_str())?;
    Ok(())
}

/// Adds what is before the body: the name, the attributes and the parameters.
fn add_head(lines: &mut String, function: &ItemFn, alloc: Global) -> syn::Result<()> {
    writeln!(lines, "fn {}", function.sig.ident.text())?;
    writeln!(lines, "attributes: {}", function.attrs.len())?;
    for input in function.sig.inputs.iter() {
        writeln!(lines, "parameter: {}", text_of(input, alloc)?.as_str())?;
    }
    Ok(())
}

/// Adds the statements of the body, and gives it without its value.
fn add_body(lines: &mut String, function: &ItemFn, alloc: Global) -> syn::Result<DeferredBlock> {
    let mut block: Block = function.block.open()?;
    for stmt in &block.stmts {
        add_statement(lines, stmt, alloc)?;
    }
    take_value(&mut block);
    DeferredBlock::new(&block, alloc)
}

/// Puts another body in the place of the function's.
fn replace_body(function: &mut ItemFn, block: DeferredBlock) {
    function.block = block;
}

/// Adds the line of a statement: what it is, where it stands, and its text.
fn add_statement(lines: &mut String, stmt: &Stmt, alloc: Global) -> syn::Result<()> {
    let tokens = tokens_of(stmt, alloc)?;
    let Span { start, end } = place_of(&tokens);
    let text = token_text(&tokens)?;
    writeln!(
        lines,
        "{} at {start}..{end}: {}",
        kind_of(stmt),
        text.as_str()
    )?;
    Ok(())
}

/// What a statement is.
fn kind_of(stmt: &Stmt) -> &'static str {
    match stmt {
        Stmt::Local(_) => "local",
        Stmt::Expr(_, Some(_)) => "expression with `;`",
        Stmt::Expr(_, None) => "expression",
        Stmt::Item(_) => "item",
        Stmt::Macro(_) => "macro",
    }
}

/// The text of a tree's tokens.
fn text_of<T: ToTokens>(tree: &T, alloc: Global) -> syn::Result<String> {
    token_text(&tokens_of(tree, alloc)?)
}

/// The tokens of a tree.
fn tokens_of<T: ToTokens>(tree: &T, alloc: Global) -> syn::Result<TokenStream> {
    let mut tokens = TokenStream::new(alloc);
    tree.to_tokens(&mut tokens)?;
    Ok(tokens)
}

/// From where the first of these tokens begins to where the last one ends; 0 to 0 where there are none. What is printed of a tree
/// that was read has the spans of what it was read of.
fn place_of(tokens: &TokenStream) -> Span {
    let mut trees = tokens.iter();
    let Some(first) = trees.next() else {
        return Span::call_site();
    };
    let start = first.span().start;
    let mut end = end_of(&first);
    for tree in trees {
        end = end_of(&tree);
    }
    Span { start, end }
}

/// Where a tree ends; a group where its closing delimiter does.
fn end_of(tree: &TokenTreeRef<'_>) -> usize {
    match tree {
        TokenTreeRef::Group(group) => group.closing.end,
        TokenTreeRef::Ident(_) | TokenTreeRef::Literal(_) | TokenTreeRef::Punct(_) => {
            tree.span().end
        }
    }
}
