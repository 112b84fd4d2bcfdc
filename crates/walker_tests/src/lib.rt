// Tests of level one: each refusal by its example, nested memories, damaged blocks.
#![tactic(auto)]

#[cfg(test)]
mod damage;
#[cfg(test)]
mod nesting;
#[cfg(test)]
mod refusals;
