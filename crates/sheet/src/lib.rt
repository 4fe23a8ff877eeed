#![tactic(auto)]
// A sheet is a run of bytes: fields of terms, then fields of rows. Its types, and the reader and the writer of one field.
pub mod fault;
pub mod field;
pub mod fields;
mod label;
pub mod layer;
pub mod reader;
pub mod refusal;
pub mod row;
pub mod term;
pub mod writer;
