// Tests of trees: one leaf, deep and wide ones, refused loads, resets, jobs.
#![tactic(auto)]

#[cfg(test)]
mod large;
#[cfg(test)]
mod small;
