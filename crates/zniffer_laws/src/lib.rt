// The laws of the Zniffer's parser: which parsers some bytes leave, that the numbers alone agree with it, where a payload stands. It
// has no code.
#![tactic(auto)]
