// What the benchmark calls from C. Each call does one operation many times, so that opening weighs nothing.
#![tactic(auto)]

mod answer;
mod filing;
mod reading;
mod times;
mod trims;

pub use answer::Answer;
pub use filing::{bench_file, bench_open};
pub use reading::{Reading, bench_read};
pub use trims::{bench_trim_four, bench_trimmed_four, bench_trimmed_two};
