// Tests of the machine through its calls, with each policy and with the adversary.
#![tactic(auto)]

#[cfg(test)]
mod asking;
#[cfg(test)]
mod making;
#[cfg(test)]
mod picking;
#[cfg(test)]
mod refusing;
#[cfg(test)]
mod shooting;
