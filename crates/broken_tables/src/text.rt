// The numbers in a line of text.

// As many numbers as a line has.
pub(crate) const NUMBERS: usize = 8;

// A number with one digit more, in 32 bits.
fn with_digit(number: u32, byte: u8) -> u32 {
    number.wrapping_mul(10).wrapping_add(u32::from(byte % 16))
}

// The numbers behind the first word of a line, each behind a space; 0 where there are fewer. What stands behind the last goes on with it.
pub(crate) fn numbers(line: &[u8]) -> [u32; NUMBERS] {
    let mut numbers = [0; NUMBERS];
    let mut i = 0;
    for &byte in line.iter().skip(2) {
        if byte != b' ' {
            numbers[i] = with_digit(numbers[i], byte);
        } else if i + 1 < NUMBERS {
            i += 1;
        }
    }
    numbers
}
