// In reading order.
pub mod joined;
pub mod quiet;
pub mod realises;
