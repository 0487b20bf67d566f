// A number in a file where a kind or a code is due.

// The number that is no kind's, or no code's.
#[derive(Clone, Copy, PartialEq, Eq, Debug)]
pub struct UnknownNumber(pub u8);
