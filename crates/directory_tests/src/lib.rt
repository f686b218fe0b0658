// Tests of the hierarchy and of the directory on examples, in a crate of their own.
#![tactic(auto)]

#[cfg(test)]
mod answers;
#[cfg(test)]
mod chains;
#[cfg(test)]
mod diamonds;
#[cfg(test)]
mod sessions;
