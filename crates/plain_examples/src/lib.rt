// The example traces of request 10: their bytes (specs/Traces.antt), and what is proved of them. There is no code here: the program
// `premises` makes the traces.
#![tactic(auto)]
