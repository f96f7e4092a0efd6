// The C interface, of one body's frame, the parser and the numbers: exported functions over the crates. Each answers what the function
// under it answers, as a flat struct of numbers that is returned by value, so a caller lends nothing but the bytes and a parser.
// include/zlf.h says the same in C.
#![tactic(auto)]

pub mod frames; // one body's frame, the parser by bytes, milliseconds, speed
