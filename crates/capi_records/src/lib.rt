// The C interface, of opening and of single records: exported functions over the crates. Each answers what the function under it
// answers, as a flat struct of numbers that is returned by value, so a caller lends nothing but the bytes. include/zlf.h says the same in C.
#![tactic(auto)]

pub mod opens; // opening as a cursor and in sequence, and the next record in sequence
pub mod records; // the record at an offset, and the search for a boundary
