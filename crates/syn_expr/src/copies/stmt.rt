//! Written by tools/kinds.py; edits are lost.
//!
//! Copies of `stmt`.

use crate::expr::Expr;
use crate::nested::copy::{CopyNested, CopyOf, Knot, copied, copy_expr};
use crate::stmt::{Block, Local, LocalInit, LocalModifiers, Stmt, StmtMacro};
use std::alloc::{AllocError, Global};
use syn_tokens::error;
use syn_tokens::syntactic::try_clone::TryClone;

impl TryClone for Block {
    fn try_clone(&self, alloc: Global) -> error::Result<Block> {
        Ok(self.copy_nested(&Knot { copy: copy_expr }, alloc)?)
    }
}

impl TryClone for Stmt {
    fn try_clone(&self, alloc: Global) -> error::Result<Stmt> {
        Ok(self.copy_nested(&Knot { copy: copy_expr }, alloc)?)
    }
}

impl CopyNested<Expr> for Local {
    fn copy_nested<N: CopyOf<Expr>>(&self, nested: &N, alloc: Global) -> Result<Local, AllocError> {
        Ok(Local {
            attrs: copied(&self.attrs, alloc)?,
            let_token: self.let_token,
            modifiers: self.modifiers,
            pat: copied(&self.pat, alloc)?,
            init: self.init.copy_nested(nested, alloc)?,
            semi_token: self.semi_token,
        })
    }
}

impl TryClone for Local {
    fn try_clone(&self, alloc: Global) -> error::Result<Local> {
        Ok(self.copy_nested(&Knot { copy: copy_expr }, alloc)?)
    }
}

impl TryClone for LocalModifiers {
    fn try_clone(&self, _alloc: Global) -> error::Result<LocalModifiers> {
        Ok(*self)
    }
}

impl TryClone for LocalInit {
    fn try_clone(&self, alloc: Global) -> error::Result<LocalInit> {
        Ok(self.copy_nested(&Knot { copy: copy_expr }, alloc)?)
    }
}

impl TryClone for StmtMacro {
    fn try_clone(&self, alloc: Global) -> error::Result<StmtMacro> {
        Ok(StmtMacro {
            attrs: self.attrs.try_clone(alloc)?,
            mac: self.mac.try_clone(alloc)?,
            semi_token: self.semi_token,
        })
    }
}
