// Worked numbers of sheets and books on the example meter and on a counter: lines, rounds, early answers, counts, paths,
// the report, every refusal of asking, showing and reporting, and sheets that are full, cleared or reopened.
#![tactic(auto)]

#[cfg(test)]
mod counter;
#[cfg(test)]
mod meter;
