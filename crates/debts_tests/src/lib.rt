// Tests of rows and debts: how they read, and a debt from its opening to its settling.
#![tactic(auto)]

#[cfg(test)]
mod reading;
#[cfg(test)]
mod settling;
