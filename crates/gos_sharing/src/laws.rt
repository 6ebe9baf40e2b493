// In reading order.
pub mod behind;
pub mod buffers;
pub mod cores;
pub mod function_types;
pub mod ground_types;
pub mod loyal;
pub mod pair_types;
pub mod parts_of_types;
pub mod sharing;
