// What the programs that check the services share: lines of vectors, parts of slices, records and their fields, stores with their areas, what is read from standard input and how values are written to standard output. None of it is a service.
#![tactic(auto)]

pub mod fields;
pub mod input;
pub mod parts;
pub mod say;
pub mod stores;
pub mod vectors;
