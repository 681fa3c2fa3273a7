// The fault register: a run of records lent by the caller, and the search and the filing of a refusal in it.
// What is asked of one record is asked by value; the functions over the run itself are thin.
#![tactic(auto)]

pub mod run;
mod search;
