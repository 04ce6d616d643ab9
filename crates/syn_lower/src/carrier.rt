//! Refusals on their way through a recursion.
ghost use Rattle.std.specs.Prelude.{◌↔◌};

use syn_parse::read::refusal::Refusal;

/// What a refusal can be carried in. A function that is handed over in a recursion must not return anything that holds a `&'static`, as
/// a `Refusal` does. So it returns anything that carries a refusal, and the first call chooses the refusal itself.
pub trait Carrier: Drop {
    ghost use Rattle.syn_parse.specs.Refusals.{IsSyntax};

    /// It carries a refusal of tokens, and not of memory.
    ghost is_syntax: { Self → Type 0 };

    /// What carries this refusal.
    fn carry(refusal: Refusal) -> Self
        ensures { is_syntax result ↔ IsSyntax refusal };

    /// The refusal that it carries.
    fn refusal(self) -> Refusal
        ensures { IsSyntax result ↔ is_syntax self };
}

/// A refusal carries itself.
impl Carrier for Refusal {
    ghost use Rattle.syn_parse.specs.Refusals.{IsSyntax};

    ghost is_syntax = { IsSyntax };

    fn carry(refusal: Refusal) -> Refusal {
        refusal
    }

    fn refusal(self) -> Refusal {
        self
    }
}
