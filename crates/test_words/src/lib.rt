//! Tests of words and their bounds. They are a crate of their own, so that no
//! crate of the product is proved once more for them.
#![tactic(auto)]

#[cfg(test)]
mod words;
