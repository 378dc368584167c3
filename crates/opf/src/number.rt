// A number field of a file, and the unit and range in which a value is read.

// digits × 10 ^ (exponent - 5), or minus that: the sign stands apart, as a count takes it off and judges it by itself.
#[derive(Clone, Copy, Debug)]
pub(crate) struct Number {
    pub(crate) negative: bool,
    pub(crate) digits: u32,
    pub(crate) exponent: i8,
}

// A unit of ten to the -`decimals` of the file's own, and the range in it.
#[derive(Clone, Copy, Debug)]
pub(crate) struct Quantity<T> {
    pub(crate) decimals: u8,
    pub(crate) low: T,
    pub(crate) high: T,
}
