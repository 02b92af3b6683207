//! Copies of trees: for each type, a value that says the same.

mod change;
mod leaf;
mod parts;
mod query;
mod reply;
mod request;
mod schema;
mod statement;
mod term;
