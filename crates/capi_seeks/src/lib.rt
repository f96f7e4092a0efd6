// The C interface, of seeks: exported functions over the crates. Each answers what the function under it answers, as a flat struct of
// numbers that is returned by value, so a caller lends nothing but the bytes. include/zlf.h says the same in C.
#![tactic(auto)]

pub mod seeks; // the span, the whole seek, the plain seek and the stepped seek
