//! The tests of texts, layouts and pictures, by their calls. What happens where memory is refused is in escpos_host_tests.
//!
//! They stand apart from what they test because tests are proved together with the functions of their crate: here no function
//! is proved a second time for them. A test that looks into a value stands in the crate of that value.
//!
//! `text` is of escpos_text, `layout` of escpos_layout, and `image` of escpos_image.
#![tactic(auto)]

#[cfg(test)]
mod image;
#[cfg(test)]
mod layout;
#[cfg(test)]
mod text;
