// Files held against memory: the same calls on two disks that are files and on two that are in memory
// answer the same and leave the same blocks. Of files nothing can be proved; here they are tried.
#![tactic(auto)]

#[cfg(test)]
mod tests;
