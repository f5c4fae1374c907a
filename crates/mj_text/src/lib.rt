//! Texts, the values of the language: at most 1,048,576 bytes each, with the faults that a job may end by.
//!
//! A contract sees a text as the list of its bytes, and each call gives exactly the list that its clause names, `Length` exactly where
//! that is above the limit, else want of memory. What puts a text together is told the [`Limit`] that it has to keep to. How a text is
//! kept is closed: a whole number isn't spelled until its bytes are asked for, few bytes lie in the value, and more are shared, so that
//! a clone copies none of them.
#![tactic(auto)]

mod fault;
mod limit;
mod short;
mod text;

pub use fault::{Failure, Fault};
pub use limit::Limit;
pub use text::{Digits, TEXT_LIMIT, Text};
