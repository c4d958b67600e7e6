// The parts of an operation list's call: not for a user, whose calls are in lib.rt.
pub mod gather;
pub mod list;
pub mod request;
pub mod step;
