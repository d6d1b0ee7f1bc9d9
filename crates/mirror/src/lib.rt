// Several disks as one, whatever a block means: in which order blocks go to them, how they are made the same
// after power went, and what holds of them at any moment. It is all in specs/ and proofs/; the code that reads
// and writes two disks is device::mirror, since it is written for any device.
#![tactic(auto)]
