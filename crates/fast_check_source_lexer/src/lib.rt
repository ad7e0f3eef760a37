//! A lexer of TypeScript. It cuts one token at a time, and its caller says where a `/` begins a regular expression, where a `}` goes on with a template, where a
//! `>` goes on as an operator, and where JSX stands. Between two tokens stand white space and comments alone.
#![tactic(auto)]

mod bytes;
mod gaps;
mod jsx;
mod keywords;
mod kind;
mod literals;
mod scan;

pub use keywords::{Keyword, keyword_of};
pub use kind::TokenKind;
pub use scan::{Source, Token};
