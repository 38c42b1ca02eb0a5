//! Reading a list at a place that may lie beyond its end, and setting a number of it.
ghost use Rattle.std.specs.Prelude.{◌≡◌, slice_index_or};

/// The number at a place, and the other one beyond the last.
pub fn number_at(numbers: &[usize], at: usize, other: usize) -> usize
    ensures { result ≡ slice_index_or numbers.now at other }
{
    if at < numbers.len() {
        numbers[at]
    } else {
        other
    }
}

/// Puts a number at a place, where there is one.
pub fn put(numbers: &mut [usize], at: usize, number: usize) {
    if at < numbers.len() {
        numbers[at] = number;
    }
}
