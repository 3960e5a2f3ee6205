//! The simulated line by its calls. escpos_jobs_tests has the line by scripts, in `play`.

mod blocks;
mod late;
mod rows;
