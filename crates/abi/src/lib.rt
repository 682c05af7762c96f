// What a controller calls from C or Rust: numbers and slices only. ptp.h says the same in C.
// Each function answers how many numbers or bytes it gave, or minus the number of its refusal. What is right is in specs/.
#![tactic(auto)]

mod answer;
mod copied;
mod dataset;
mod linked;
mod mended;
mod name;
mod object_table;
mod packet;
mod payload;
mod property;
mod record;
mod recorded;
mod setting;
mod strings;
mod transaction;
mod value;
mod window;
mod write;
