//! A till's machine: told by hand what came of what it asks for, and with its driver over a store in memory and a line.

mod delivering;
mod driver;
mod keys;
mod machine;
mod renewing;
mod rows;
