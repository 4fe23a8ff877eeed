#![tactic(auto)]
// Tables of cases for the reader and the writer of one field.
#[cfg(test)]
mod reader_cases;
#[cfg(test)]
mod writer_cases;
