//! Parsers of types and paths. A type holds types, in the arguments of its paths too: each parser is given a parser for a nested type
//! that it calls, and `recursion` closes the circle.
ghost use Rattle.syn_grammar.specs.Tokens.{Stream};
ghost use Rattle.syn_grammar.specs.Rules as rules;
ghost use Rattle.syn_lower.specs.Parsing.{Parses, IsSyntax};
ghost use Rattle.syn_lower.specs.Types.{syntax_of_Type};

use crate::Type;
use syn_parse::buffer::ParseBuffer;
use syn_parse::read::refusal::Parsed;

mod arguments;
mod path;
mod recursion;
mod ty;

pub use path::module_path;
pub use recursion::path_arguments;

/// What reads a type inside of another.
pub(crate) trait Nested {
    /// The streams at which it may be called.
    ghost may: { Self → Stream → Type 0 };

    /// Reads a type.
    fn ty(&self, input: &mut ParseBuffer<'_>) -> Parsed<Type>
        requires { may self.now input.old }
        ensures parses { Parses IsSyntax syntax_of_Type rules.type input.old result input.new };
}
