//! Each call of a store that may answer out of memory, where any one allocation fails.
//!
//! A test makes its call and looks at what comes of it; then the same call is made again, and gives what it gives with ample memory.
//! Here each allocation succeeds; `bench/starve` lets the first, the second and so on of a test's allocations fail.

mod store;
