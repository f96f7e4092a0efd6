// The C interface, of pages: exported functions over the crates. Each answers what the function under it answers, as a flat struct of
// numbers that is returned by value, so a caller lends nothing but the bytes and a table of rows. include/zlf.h says the same in C.
#![tactic(auto)]

pub mod pages; // a page into a lent table of rows, and the seam check
