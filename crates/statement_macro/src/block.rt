//! A block whose last statement is changed.

use syn::Span;
use syn::stmt::{Block, Stmt};
use syn::token::Semi;

/// Takes the block's value away: where its last statement is an expression without `;`, one follows it.
pub(crate) fn take_value(block: &mut Block) {
    if let Some(Stmt::Expr(_, semi)) = block.stmts.last_mut() {
        if semi.is_none() {
            *semi = Some(Semi::new([Span::call_site()]));
        }
    }
}
