//! The lexer and the parser on texts of their own: tokens and the heights of trees, which the table doesn't tell; and nodes of
//! trees, with ample memory.

mod nodes;
mod token;
mod tokens;
mod trees;
mod types;
