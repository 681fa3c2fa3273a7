// The panel's state as bytes: where each part stands, and the line's part read and written.
#![tactic(auto)]

pub mod line;
pub mod places;
