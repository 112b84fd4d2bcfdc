// Tests of the policies, and of the adversary that tests of the machine use.
#![tactic(auto)]

#[cfg(test)]
mod picks;
