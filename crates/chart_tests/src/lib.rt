// Tests of the charts on examples, apart from the crate that they test, so that it is proved once.
#![tactic(auto)]

#[cfg(test)]
mod filed;
#[cfg(test)]
mod meter;
#[cfg(test)]
mod pairs;
