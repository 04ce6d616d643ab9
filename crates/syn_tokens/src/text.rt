//! Shared texts of tokens.
ghost use Rattle.std.specs.Prelude.{◌≡◌, IfOk};

use arrayvec::ArrayString;
use std::alloc::{AllocError, Global};
use std::marker::Model;
use std::rc::Rc;

/// The largest size in bytes of a text that is stored beside its reference count.
const SHORT: usize = 24;

/// A reference-counted text, seen as its bytes.
#[derive(Debug, Drop)]
pub struct Text {
    inner: Rc<Shared>,
}

/// The storage of a text: a short one is stored beside its reference count, to save an allocation.
#[derive(Debug, Drop)]
enum Shared {
    Short(ArrayString<SHORT>),
    Long(String),
}

impl Model for Text {
    ghost use Rattle.std.specs.Prelude.{List, ℕ};
    ghost use Rattle.syn_tokens.specs.Texts.{bytes_of};

    ghost Value = { List ℕ };

    ghost view = { λ t. bytes_of t.inner.value };
}

impl Text {
    /// The text, in memory of its own.
    pub fn from_str(alloc: Global, text: &str) -> Result<Text, AllocError>
        ensures { IfOk result (λ t. t ≡ text.now) }
    {
        let shared = match ArrayString::from(text) {
            Ok(short) => Shared::Short(short),
            Err(_) => Shared::Long(String::from_str(alloc, text)?),
        };
        Ok(Text {
            inner: Rc::new(alloc, shared)?,
        })
    }

    /// A copy that shares the text. It allocates nothing, and fails only if there are 2^64 - 1 copies.
    pub fn share(&self) -> Result<Text, AllocError>
        ensures { IfOk result (λ t. t ≡ self.now) }
    {
        Ok(Text {
            inner: self.inner.clone()?,
        })
    }

    /// The text.
    pub fn as_str(&self) -> &str
        ensures { result.now ≡ self.now }
    {
        match &*self.inner {
            Shared::Short(short) => short.as_str(),
            Shared::Long(long) => long.as_str(),
        }
    }
}
