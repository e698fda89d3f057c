//! Runs of the whole program over files in memory, as tests: workers that are held at gates, numbers of workers, and demo
//! programs.
#![tactic(auto)]

#[cfg(test)]
mod files;
#[cfg(test)]
mod gates;
#[cfg(test)]
mod tests;
