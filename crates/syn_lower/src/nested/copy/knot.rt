//! Where the copies lead back to each other.
ghost use Rattle.std.specs.Prelude.{◌≡◌, ◌<◌, ℕ, IfOk};
ghost use Rattle.syn_lower.specs.Sizes.{tree_size};
ghost use Rattle.syn_lower.specs.Ties.{CopyTies};
ghost use Rattle.syn_lower.specs.Types.{syntax_of_Type};

use crate::Type;
use crate::nested::copy::{CopyNested, CopyType, copied};
use std::alloc::{AllocError, Global};

/// The copy of a type, as a value.
#[derive(Clone, Copy)]
pub struct Knot<T> {
    pub copy_type: T,
}

impl<T: Fn(&Type, Global) -> Result<Type, AllocError>> CopyType for Knot<T> {
    ghost may = { λ k n. CopyTies n (T.pre k.copy_type) (T.post k.copy_type) };

    fn copy_type(&self, ty: &Type, alloc: Global) -> Result<Type, AllocError> {
        (self.copy_type)(ty, alloc)
    }
}

/// A type, by what it is.
fn copy_variant<N: CopyType>(nested: &N, ty: &Type, alloc: Global) -> Result<Type, AllocError>
    requires { (n : ℕ) → n < tree_size (syntax_of_Type ty.now) → N.may nested.now n }
    ensures copy { IfOk result (λ copy. syntax_of_Type copy ≡ syntax_of_Type ty.now) }
{
    Ok(match ty {
        Type::Array(value) => Type::Array(value.copy_nested(nested, alloc)?),
        Type::Group(value) => Type::Group(value.copy_nested(nested, alloc)?),
        Type::Never(value) => Type::Never(copied(value, alloc)?),
        Type::Paren(value) => Type::Paren(value.copy_nested(nested, alloc)?),
        Type::Path(value) => Type::Path(value.copy_nested(nested, alloc)?),
        Type::Ptr(value) => Type::Ptr(value.copy_nested(nested, alloc)?),
        Type::Reference(value) => Type::Reference(value.copy_nested(nested, alloc)?),
        Type::Slice(value) => Type::Slice(value.copy_nested(nested, alloc)?),
        Type::Tuple(value) => Type::Tuple(value.copy_nested(nested, alloc)?),
        Type::Verbatim(tokens) => Type::Verbatim(copied(tokens, alloc)?),
    })
}

/// The copy of a type.
#[cycle(copy)]
pub fn copy_type(ty: &Type, alloc: Global) -> Result<Type, AllocError>
    ensures copy { IfOk result (λ copy. syntax_of_Type copy ≡ syntax_of_Type ty.now) }
{
    copy_variant(&Knot { copy_type }, ty, alloc)
}
