// What C calls: each function of `capi` under the same name and with the same contract. `include/gemlab.h` says what each means
// to its caller; a slice is passed as a pointer and its length.
#![tactic(auto)]

mod cells;
mod directories;
mod distances;
mod index;
mod library;
mod lists;
mod sheet;
mod survey;
