//! The lines of the tables in the tests.

/// How many digits there are at the front.
fn digits(line: &[u8]) -> usize {
    let mut count = 0usize;
    for byte in line {
        if !byte.is_ascii_digit() {
            return count;
        }
        count = count.saturating_add(1);
    }
    count
}

/// The number that a line begins with, and the text behind it.
pub fn parts_of(line: &[u8]) -> (usize, &[u8]) {
    let (front, back) = line.split_at(digits(line).min(line.len()));
    let mut number = 0usize;
    for digit in front {
        let units = usize::from(digit.saturating_sub(b'0'));
        number = number.saturating_mul(10).saturating_add(units);
    }
    (number, back)
}
