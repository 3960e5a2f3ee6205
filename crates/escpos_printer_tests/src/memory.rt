//! Each call from the decoder up to the printer that may answer out of memory, where any one allocation fails.
//!
//! A test makes its call and looks at what comes of it. Where an allocation fails, the call has said just that, and what
//! it works on is as its contract says; then the same call is made again, and gives what it gives with ample memory. Here each
//! allocation succeeds; `bench/starve` lets the first, the second and so on of a test's allocations fail.

mod printer;
