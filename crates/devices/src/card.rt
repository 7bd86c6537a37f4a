// A punched card of eighty columns, a byte in each. Any byte may stand in a column: what a column may hold
// is asked by whoever reads it.
#[derive(Clone, Copy, PartialEq, Eq, Debug)]
pub struct Card {
    pub columns: [u8; 80],
}
