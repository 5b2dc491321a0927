// The table of the syndromes under the columns of ECC-2. A line has the syndromes with the same high hexadecimal digit, in the order of the low
// one, as docs/SYNDROMES.md has them. Entries are numbers, since `rt fmt` would break a line of sixteen readings into sixteen.

// A flip bit stands for "corrected" at that bit, and each of the other two readings has its letter of LINE-14.
pub(crate) const N: u8 = 72;

pub(crate) const U: u8 = 73;

// ECC-6, FORM-8: the entries of the 256 syndromes.
pub(crate) static SYNDROMES: [[u8; 16]; 16] = [
    [N, 64, 65, U, 66, U, U, 0, 67, U, U, 1, U, 2, 3, U],
    [68, U, U, 4, U, 5, 6, U, U, 7, 8, U, 9, U, U, 56],
    [69, U, U, 10, U, 11, 12, U, U, 13, 14, U, 15, U, U, 57],
    [U, 16, 17, U, 18, U, U, 58, 19, U, U, 59, U, 60, 61, U],
    [70, U, U, 20, U, 21, 22, U, U, 23, 24, U, 25, U, U, 62],
    [U, 26, 27, U, 28, U, U, 63, 29, U, U, U, U, U, U, U],
    [U, 30, 31, U, 32, U, U, U, 33, U, U, U, U, U, U, U],
    [34, U, U, U, U, U, U, U, U, U, U, U, U, U, U, U],
    [71, U, U, 35, U, 36, 37, U, U, 38, 39, U, 40, U, U, U],
    [U, 41, 42, U, 43, U, U, U, 44, U, U, U, U, U, U, U],
    [U, 45, 46, U, 47, U, U, U, 48, U, U, U, U, U, U, U],
    [49, U, U, U, U, U, U, U, U, U, U, U, U, U, U, U],
    [U, 50, 51, U, 52, U, U, U, 53, U, U, U, U, U, U, U],
    [54, U, U, U, U, U, U, U, U, U, U, U, U, U, U, U],
    [55, U, U, U, U, U, U, U, U, U, U, U, U, U, U, U],
    [U, U, U, U, U, U, U, U, U, U, U, U, U, U, U, U],
];
