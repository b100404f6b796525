//! Reliable reading: what is known of the numbers of one writer, which of them is next, and which are missing
//! (DDSI-RTPS 8.4.10, the reader's proxy of a writer).
#![tactic(auto)]

mod known;
mod laws;
mod proxy;
mod ready;
mod ring;
#[cfg(test)]
mod tests;

pub use known::Known;
pub use laws::skips_have_one_end;
pub use proxy::Proxy;
pub use ready::Ready;
