// What each state of the Zniffer's parser makes of a byte. Carried over from `zniffer_parser.rs`.
#![tactic(auto)]

pub mod states; // what each state makes of a byte

pub use states::{take_byte, whole_of};
