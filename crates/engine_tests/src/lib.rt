#![tactic(auto)]
// Tables of cases for the engines.
#[cfg(test)]
mod calls;
#[cfg(test)]
mod dates;
#[cfg(test)]
mod equalities;
#[cfg(test)]
mod script;
