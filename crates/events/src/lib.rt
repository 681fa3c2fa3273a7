// Key and pin events: what each does to the panel, and the report that a key event sends.
#![tactic(auto)]

pub mod keys;
pub mod pins;
