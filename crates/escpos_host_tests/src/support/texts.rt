//! Values as text.

use std::alloc::Global;
use std::fmt::Debug;
use std::process::Abort;

// A value is shown so.
pub fn is_shown_as<T: Debug>(rt: &impl Abort, alloc: Global, value: &T, wanted: &str) {
    let text = format!(in alloc; "{value:?}").expect(rt, "memory");
    assert!(rt; text.as_str() == wanted, "{wanted}");
}
