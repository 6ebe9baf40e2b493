// The chapters. Their reading order is that of specs/Lib.antt.
pub mod doings;
pub mod heights;
pub mod needed;
pub mod orders;
pub mod proper;
