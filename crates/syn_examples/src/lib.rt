//! Worked examples of the grammar, as theorems: for each rule of the table, texts that it reads with what they print, texts of which
//! it reads a beginning, and texts that it refuses (`proofs/ExamplesOf*`, which `tools/grammar.py` writes from `tools/examples.txt`).
//! `proofs/WorkedValues` has the syntax trees of some texts. No other crate uses this one.
#![tactic(auto)]
