// The README has these chapters in reading order.
pub mod arrays;
pub mod contexts;
pub mod results;
pub mod variables;
