//! Items that are joined, items that are listed, and faults that depend on more than one token.
mod faults;
mod joined;
mod listed;
mod support;
