//! Operators.
ghost use Rattle.std.specs.Prelude.{◌≡◌, length};
ghost use Rattle.syn_expr_parse.specs.Operators.{number_of_BinOp, number_of_UnOp, placed_BinOp, placed_UnOp};

use syn_tokens::syntactic::compare::Compared;
use syn_tokens::token::{
    And, AndAnd, AndEq, Caret, CaretEq, EqEq, Ge, Gt, Le, Lt, Mark, Minus, MinusEq, Ne, Not, Or,
    OrEq, OrOr, Percent, PercentEq, Plus, PlusEq, Shl, ShlEq, Shr, ShrEq, Slash, SlashEq, Star,
    StarEq,
};

/// An operator between two expressions.
#[derive(Clone, Copy)]
pub enum BinOp {
    /// `+`
    Add(Plus),
    /// `-`
    Sub(Minus),
    /// `*`
    Mul(Star),
    /// `/`
    Div(Slash),
    /// `%`
    Rem(Percent),
    /// `&&`
    And(AndAnd),
    /// `||`
    Or(OrOr),
    /// `^`
    BitXor(Caret),
    /// `&`
    BitAnd(And),
    /// `|`
    BitOr(Or),
    /// `<<`
    Shl(Shl),
    /// `>>`
    Shr(Shr),
    /// `==`
    Eq(EqEq),
    /// `<`
    Lt(Lt),
    /// `<=`
    Le(Le),
    /// `!=`
    Ne(Ne),
    /// `>=`
    Ge(Ge),
    /// `>`
    Gt(Gt),
    /// `+=`
    AddAssign(PlusEq),
    /// `-=`
    SubAssign(MinusEq),
    /// `*=`
    MulAssign(StarEq),
    /// `/=`
    DivAssign(SlashEq),
    /// `%=`
    RemAssign(PercentEq),
    /// `^=`
    BitXorAssign(CaretEq),
    /// `&=`
    BitAndAssign(AndEq),
    /// `|=`
    BitOrAssign(OrEq),
    /// `<<=`
    ShlAssign(ShlEq),
    /// `>>=`
    ShrAssign(ShrEq),
}

/// An operator before an expression.
#[derive(Clone, Copy)]
pub enum UnOp {
    /// `*`
    Deref(Star),
    /// `!`
    Not(Not),
    /// `-`
    Neg(Minus),
}

/// This number, beside a mark, which has a place for each of its characters.
fn numbered<K, const N: usize>(mark: Mark<K, N>, number: u8) -> u8
    ensures number { result ≡ number }
    ensures placed { length mark.spans ≡ N }
{
    number
}

impl BinOp {
    /// Which operator it is.
    fn number(&self) -> u8
        ensures number { result ≡ number_of_BinOp self.now }
        ensures placed { placed_BinOp self.now }
    {
        match self {
            BinOp::Add(mark) => numbered(*mark, 0),
            BinOp::Sub(mark) => numbered(*mark, 1),
            BinOp::Mul(mark) => numbered(*mark, 2),
            BinOp::Div(mark) => numbered(*mark, 3),
            BinOp::Rem(mark) => numbered(*mark, 4),
            BinOp::And(mark) => numbered(*mark, 5),
            BinOp::Or(mark) => numbered(*mark, 6),
            BinOp::BitXor(mark) => numbered(*mark, 7),
            BinOp::BitAnd(mark) => numbered(*mark, 8),
            BinOp::BitOr(mark) => numbered(*mark, 9),
            BinOp::Shl(mark) => numbered(*mark, 10),
            BinOp::Shr(mark) => numbered(*mark, 11),
            BinOp::Eq(mark) => numbered(*mark, 12),
            BinOp::Lt(mark) => numbered(*mark, 13),
            BinOp::Le(mark) => numbered(*mark, 14),
            BinOp::Ne(mark) => numbered(*mark, 15),
            BinOp::Ge(mark) => numbered(*mark, 16),
            BinOp::Gt(mark) => numbered(*mark, 17),
            BinOp::AddAssign(mark) => numbered(*mark, 18),
            BinOp::SubAssign(mark) => numbered(*mark, 19),
            BinOp::MulAssign(mark) => numbered(*mark, 20),
            BinOp::DivAssign(mark) => numbered(*mark, 21),
            BinOp::RemAssign(mark) => numbered(*mark, 22),
            BinOp::BitXorAssign(mark) => numbered(*mark, 23),
            BinOp::BitAndAssign(mark) => numbered(*mark, 24),
            BinOp::BitOrAssign(mark) => numbered(*mark, 25),
            BinOp::ShlAssign(mark) => numbered(*mark, 26),
            BinOp::ShrAssign(mark) => numbered(*mark, 27),
        }
    }
}

impl Compared for BinOp {
    #[tactic(auto, using(crate::proofs::Operators::same_BinOp))]
    fn is_same(&self, other: &BinOp) -> bool {
        self.number() == other.number()
    }
}

impl UnOp {
    /// Which sign it is.
    fn number(&self) -> u8
        ensures number { result ≡ number_of_UnOp self.now }
        ensures placed { placed_UnOp self.now }
    {
        match self {
            UnOp::Deref(mark) => numbered(*mark, 0),
            UnOp::Not(mark) => numbered(*mark, 1),
            UnOp::Neg(mark) => numbered(*mark, 2),
        }
    }
}

impl Compared for UnOp {
    #[tactic(auto, using(crate::proofs::Operators::same_UnOp))]
    fn is_same(&self, other: &UnOp) -> bool {
        self.number() == other.number()
    }
}

// Written by tools/kinds.py from here to the end; edits are lost.

impl syn_tokens::syntactic::Syntactic for BinOp {
    ghost use Rattle.syn_expr_parse.specs.Operators.{syntax_of_BinOp};

    ghost syntax = { syntax_of_BinOp };
}

impl syn_tokens::syntactic::Syntactic for UnOp {
    ghost use Rattle.syn_expr_parse.specs.Operators.{syntax_of_UnOp};

    ghost syntax = { syntax_of_UnOp };
}
