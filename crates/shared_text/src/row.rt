// The two rows of bits, the bit arrays of the Othello map.
#[derive(Clone, Copy, PartialEq, Eq, Debug)]
pub enum Row {
    A,
    B,
}
