// The laws of trace-list's output: how many bytes a frame takes at least, so that no page of an input is refused with 7; and how long the
// text is at most. It has no code.
#![tactic(auto)]
