// In reading order.
pub mod renumbered;
pub mod unions;
pub mod weaving;
pub mod webs;
