// Readers of rows: words that are lent, and what is known of them.
#![tactic(auto)]

pub mod jobs;
pub mod numbered;
pub mod patterns;
pub mod steps;
pub mod tables;
pub mod trees;
