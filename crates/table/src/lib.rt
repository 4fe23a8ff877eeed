#![tactic(auto)]
// The table engine: equality over tables, decided by congruence closure.
mod classes;
mod closing;
mod equalities;
mod separation;
pub mod table;
pub mod table_engine;
