// Laws on PTI payloads that are joined, on the frames and rows of such payloads, and on the beams in a bracket record's body. It has no code.
#![tactic(auto)]
