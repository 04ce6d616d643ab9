//! Operators: what each is called, and what it prints.

use crate::outline::{Outlined, TreeText};
use syn::op::{BinOp, UnOp};

impl Outlined for BinOp {
    fn show(&self, out: &mut TreeText) {
        out.printed(name_of(self), self);
    }
}

impl Outlined for UnOp {
    fn show(&self, out: &mut TreeText) {
        let name = match self {
            UnOp::Deref(_) => "Deref",
            UnOp::Not(_) => "Not",
            UnOp::Neg(_) => "Neg",
        };
        out.printed(name, self);
    }
}

/// What an operator between two expressions is called.
fn name_of(op: &BinOp) -> &'static str {
    match op {
        BinOp::Add(_) => "Add",
        BinOp::Sub(_) => "Sub",
        BinOp::Mul(_) => "Mul",
        BinOp::Div(_) => "Div",
        BinOp::Rem(_) => "Rem",
        BinOp::And(_) => "And",
        BinOp::Or(_) => "Or",
        BinOp::BitXor(_) => "BitXor",
        BinOp::BitAnd(_) => "BitAnd",
        BinOp::BitOr(_) => "BitOr",
        BinOp::Shl(_) => "Shl",
        BinOp::Shr(_) => "Shr",
        BinOp::Eq(_) => "Eq",
        BinOp::Lt(_) => "Lt",
        BinOp::Le(_) => "Le",
        BinOp::Ne(_) => "Ne",
        BinOp::Ge(_) => "Ge",
        BinOp::Gt(_) => "Gt",
        BinOp::AddAssign(_) => "AddAssign",
        BinOp::SubAssign(_) => "SubAssign",
        BinOp::MulAssign(_) => "MulAssign",
        BinOp::DivAssign(_) => "DivAssign",
        BinOp::RemAssign(_) => "RemAssign",
        BinOp::BitXorAssign(_) => "BitXorAssign",
        BinOp::BitAndAssign(_) => "BitAndAssign",
        BinOp::BitOrAssign(_) => "BitOrAssign",
        BinOp::ShlAssign(_) => "ShlAssign",
        BinOp::ShrAssign(_) => "ShrAssign",
    }
}
