//! Variants, by their names.

/// A tree that tells its variant.
pub(crate) trait Named {
    /// The name of its variant; an empty word where it has none.
    fn variant(&self) -> &'static str {
        ""
    }
}
