// Records of bytes: numbers in fields one after the other, big-endian, and the 16-bit sum that seals them.
#![tactic(auto)]

pub mod inner;
