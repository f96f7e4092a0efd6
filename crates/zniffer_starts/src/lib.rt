// Where a command or a frame starts: the bytes before it, which an idle parser ignores, and a whole header. Both look at several bytes
// without a step for each. The Rust has neither: what they give is what `zniffer_parser.rs` gives byte by byte.
#![tactic(auto)]

pub mod headers; // a whole header at once
pub mod idle; // bytes that an idle parser ignores

pub use headers::{Head, header_of};
pub use idle::idle_bytes;
