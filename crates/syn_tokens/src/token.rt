//! Written by tools/tokens.py; edits are lost.
//!
//! Words, marks and the delimiters of groups, each with a type.

mod characters;
mod custom;
mod delimiters;
pub mod kind;
mod mark;
mod word;

pub use characters::{OneCharacter, ThreeCharacters, TwoCharacters};
pub use custom::{CustomKeyword, CustomKeywordKind, CustomPunctuation, CustomPunctuationKind};
pub use delimiters::{DelimiterKind, Delimiters};
pub use mark::{Mark, MarkKind};
pub use word::{Word, WordKind};

/// `abstract`
pub type Abstract = Word<kind::Abstract>;

/// `as`
pub type As = Word<kind::As>;

/// `async`
pub type Async = Word<kind::Async>;

/// `auto`
pub type Auto = Word<kind::Auto>;

/// `await`
pub type Await = Word<kind::Await>;

/// `become`
pub type Become = Word<kind::Become>;

/// `box`
pub type Box = Word<kind::Box>;

/// `break`
pub type Break = Word<kind::Break>;

/// `const`
pub type Const = Word<kind::Const>;

/// `continue`
pub type Continue = Word<kind::Continue>;

/// `crate`
pub type Crate = Word<kind::Crate>;

/// `default`
pub type Default = Word<kind::Default>;

/// `do`
pub type Do = Word<kind::Do>;

/// `dyn`
pub type Dyn = Word<kind::Dyn>;

/// `else`
pub type Else = Word<kind::Else>;

/// `enum`
pub type Enum = Word<kind::Enum>;

/// `extern`
pub type Extern = Word<kind::Extern>;

/// `false`
pub type False = Word<kind::False>;

/// `final`
pub type Final = Word<kind::Final>;

/// `fn`
pub type Fn = Word<kind::Fn>;

/// `for`
pub type For = Word<kind::For>;

/// `if`
pub type If = Word<kind::If>;

/// `impl`
pub type Impl = Word<kind::Impl>;

/// `in`
pub type In = Word<kind::In>;

/// `let`
pub type Let = Word<kind::Let>;

/// `loop`
pub type Loop = Word<kind::Loop>;

/// `macro`
pub type Macro = Word<kind::Macro>;

/// `match`
pub type Match = Word<kind::Match>;

/// `mod`
pub type Mod = Word<kind::Mod>;

/// `move`
pub type Move = Word<kind::Move>;

/// `mut`
pub type Mut = Word<kind::Mut>;

/// `override`
pub type Override = Word<kind::Override>;

/// `priv`
pub type Priv = Word<kind::Priv>;

/// `pub`
pub type Pub = Word<kind::Pub>;

/// `ref`
pub type Ref = Word<kind::Ref>;

/// `return`
pub type Return = Word<kind::Return>;

/// `safe`
pub type Safe = Word<kind::Safe>;

/// `Self`
pub type SelfType = Word<kind::SelfType>;

/// `self`
pub type SelfValue = Word<kind::SelfValue>;

/// `static`
pub type Static = Word<kind::Static>;

/// `struct`
pub type Struct = Word<kind::Struct>;

/// `super`
pub type Super = Word<kind::Super>;

/// `trait`
pub type Trait = Word<kind::Trait>;

/// `true`
pub type True = Word<kind::True>;

/// `try`
pub type Try = Word<kind::Try>;

/// `type`
pub type Type = Word<kind::Type>;

/// `typeof`
pub type Typeof = Word<kind::Typeof>;

/// `_`
pub type Underscore = Word<kind::Underscore>;

/// `union`
pub type Union = Word<kind::Union>;

/// `unsafe`
pub type Unsafe = Word<kind::Unsafe>;

/// `unsized`
pub type Unsized = Word<kind::Unsized>;

/// `use`
pub type Use = Word<kind::Use>;

/// `virtual`
pub type Virtual = Word<kind::Virtual>;

/// `where`
pub type Where = Word<kind::Where>;

/// `while`
pub type While = Word<kind::While>;

/// `yield`
pub type Yield = Word<kind::Yield>;

/// `&`
pub type And = Mark<kind::And, 1>;

/// `@`
pub type At = Mark<kind::At, 1>;

/// `^`
pub type Caret = Mark<kind::Caret, 1>;

/// `:`
pub type Colon = Mark<kind::Colon, 1>;

/// `,`
pub type Comma = Mark<kind::Comma, 1>;

/// `$`
pub type Dollar = Mark<kind::Dollar, 1>;

/// `.`
pub type Dot = Mark<kind::Dot, 1>;

/// `=`
pub type Eq = Mark<kind::Eq, 1>;

/// `>`
pub type Gt = Mark<kind::Gt, 1>;

/// `<`
pub type Lt = Mark<kind::Lt, 1>;

/// `-`
pub type Minus = Mark<kind::Minus, 1>;

/// `!`
pub type Not = Mark<kind::Not, 1>;

/// `|`
pub type Or = Mark<kind::Or, 1>;

/// `%`
pub type Percent = Mark<kind::Percent, 1>;

/// `+`
pub type Plus = Mark<kind::Plus, 1>;

/// `#`
pub type Pound = Mark<kind::Pound, 1>;

/// `?`
pub type Question = Mark<kind::Question, 1>;

/// `;`
pub type Semi = Mark<kind::Semi, 1>;

/// `/`
pub type Slash = Mark<kind::Slash, 1>;

/// `*`
pub type Star = Mark<kind::Star, 1>;

/// `~`
pub type Tilde = Mark<kind::Tilde, 1>;

/// `&&`
pub type AndAnd = Mark<kind::AndAnd, 2>;

/// `&=`
pub type AndEq = Mark<kind::AndEq, 2>;

/// `^=`
pub type CaretEq = Mark<kind::CaretEq, 2>;

/// `..`
pub type DotDot = Mark<kind::DotDot, 2>;

/// `...`
pub type DotDotDot = Mark<kind::DotDotDot, 3>;

/// `==`
pub type EqEq = Mark<kind::EqEq, 2>;

/// `=>`
pub type FatArrow = Mark<kind::FatArrow, 2>;

/// `>=`
pub type Ge = Mark<kind::Ge, 2>;

/// `<=`
pub type Le = Mark<kind::Le, 2>;

/// `-=`
pub type MinusEq = Mark<kind::MinusEq, 2>;

/// `!=`
pub type Ne = Mark<kind::Ne, 2>;

/// `|=`
pub type OrEq = Mark<kind::OrEq, 2>;

/// `||`
pub type OrOr = Mark<kind::OrOr, 2>;

/// `::`
pub type PathSep = Mark<kind::PathSep, 2>;

/// `%=`
pub type PercentEq = Mark<kind::PercentEq, 2>;

/// `+=`
pub type PlusEq = Mark<kind::PlusEq, 2>;

/// `->`
pub type RArrow = Mark<kind::RArrow, 2>;

/// `<<`
pub type Shl = Mark<kind::Shl, 2>;

/// `<<=`
pub type ShlEq = Mark<kind::ShlEq, 3>;

/// `>>`
pub type Shr = Mark<kind::Shr, 2>;

/// `>>=`
pub type ShrEq = Mark<kind::ShrEq, 3>;

/// `/=`
pub type SlashEq = Mark<kind::SlashEq, 2>;

/// `*=`
pub type StarEq = Mark<kind::StarEq, 2>;

/// `( )`
pub type Paren = Delimiters<kind::Paren>;

/// `{ }`
pub type Brace = Delimiters<kind::Brace>;

/// `[ ]`
pub type Bracket = Delimiters<kind::Bracket>;

/// The delimiters of an invisible group, which appear in no text.
pub type Group = Delimiters<kind::Group>;
