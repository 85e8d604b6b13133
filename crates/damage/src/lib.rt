// What the checksum catches, and what it does not: one byte of a sound frame changed on the wire, of the definitions, of
// the calls that read a slice and of those that feed the line. There is no code here.
#![tactic(auto)]
