// Painting: what each cell draws, and the picture repainted where it changed.
#![tactic(auto)]

mod draw;
pub mod repaint;
