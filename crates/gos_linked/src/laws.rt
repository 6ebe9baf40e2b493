// In reading order.
pub mod fits;
pub mod keeping;
pub mod linked;
