// Paths shown on the example meter and on a counter: what is laid, what is left, and every refusal of showing.
#![tactic(auto)]

#[cfg(test)]
mod bench;
#[cfg(test)]
mod counter;
#[cfg(test)]
mod meter;
