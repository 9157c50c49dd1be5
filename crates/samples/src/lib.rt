// Worked samples: as one theorem, and as tests through the library.
#![tactic(auto)]

mod samples;

pub use samples::samples_stand;

#[cfg(test)]
mod docket_tests;
#[cfg(test)]
mod set_tests;
