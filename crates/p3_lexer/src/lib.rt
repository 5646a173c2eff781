//! The tokens of a text, as slices of it, and the classes of its words. Nothing here takes memory.
#![tactic(auto)]

mod lexer;
mod place;
mod words;

pub use lexer::{Lexer, Next, is_close, is_open};
pub use words::{
    begins_with_colon, is, is_decimal, is_function_name, is_name, is_predicate_name, is_variable,
};
