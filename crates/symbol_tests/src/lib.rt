// Tests of the interner and of names at their limits.
#![tactic(auto)]

#[cfg(test)]
mod interning;
#[cfg(test)]
mod naming;
