//! Commands (escpos_command). Expected values are those of the command table.

mod graphics;
mod rows;
mod settings;
mod values;
