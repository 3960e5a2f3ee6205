//! Values that are compared.

/// The first two places where a value equals another one or doesn't equal itself. There are none where all of them differ.
pub fn unlike<T: PartialEq>(values: &[T]) -> Option<(usize, usize)> {
    for (place, value) in values.iter().enumerate() {
        for (other_place, other) in values.iter().enumerate() {
            if (value == other) != (place == other_place) {
                return Some((place, other_place));
            }
        }
    }
    None
}
