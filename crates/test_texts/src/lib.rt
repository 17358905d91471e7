//! Tests of texts that are read and written: traces, replies, and the words of the programs. They are a crate of their own, so
//! that no crate of the product is proved once more for them.
#![tactic(auto)]

#[cfg(test)]
mod asked;
#[cfg(test)]
mod derived;
#[cfg(test)]
mod logs;
#[cfg(test)]
mod process;
#[cfg(test)]
mod replies;
#[cfg(test)]
mod short_texts;
#[cfg(test)]
mod texts;
