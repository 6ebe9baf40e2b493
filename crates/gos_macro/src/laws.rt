// In reading order.
pub mod causal;
pub mod gates;
pub mod path_search;
