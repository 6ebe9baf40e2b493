// In reading order.
pub mod applications;
pub mod arrays;
pub mod instances;
pub mod literals;
pub mod names;
pub mod ports;
pub mod progress;
pub mod turns;
pub mod typing;
pub mod unfoldings;
pub mod unjoined;
