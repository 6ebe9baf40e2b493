// In reading order.
pub mod applying;
pub mod assignment_forms;
pub mod branches;
pub mod control_forms;
pub mod function_forms;
pub mod ground_forms;
pub mod leaves;
pub mod meanings;
pub mod numbers;
pub mod pair_forms;
pub mod regions;
pub mod regular;
pub mod regular_and_resting;
pub mod run_children;
pub mod stages;
pub mod theorem;
pub mod wired;
