//! The laws of equality that forgets spans.

ghost use Rattle.syn_grammar.specs.Same.{SameStreamsArePlain, SameTreesArePlain};

/// A law of all streams: two pass the test `same_stream` exactly where they are equal once every
/// span (in bytes) is 0 to 0. The function is empty.
pub fn same_streams_are_plain()
    ensures tested { SameStreamsArePlain }
{}

/// A law of all syntax trees: two pass the test `same_syntax` exactly where they are equal once
/// every span (in bytes) is 0 to 0. The function is empty.
pub fn same_trees_are_plain()
    ensures tested { SameTreesArePlain }
{}
