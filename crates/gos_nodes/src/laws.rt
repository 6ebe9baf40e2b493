// In reading order.
pub mod assign_part;
pub mod assignments;
pub mod blocks;
pub mod folds;
pub mod nodes;
pub mod parallel;
pub mod products;
pub mod resting;
pub mod sessions;
pub mod windows;
