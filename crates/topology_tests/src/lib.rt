// Tests of the topology reader, as tables of texts with what they read as.
#![tactic(auto)]

#[cfg(test)]
mod tests;
