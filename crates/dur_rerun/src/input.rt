//! What commands read: a plan, and the records of the capture behind it.

pub mod breaks;
pub mod plan;
pub mod prefix;
pub mod records;
