use crate::kinds::{Input, RecordType};
use cards::kinds::Shape;
use fields::FieldTable;

// What the cards of a deck define: the field table, the shape of each control level (L1 to L9 at places 1 to 9),
// the record types and their inputs, all in deck order.
#[derive(Drop)]
pub struct Definitions {
    pub fields: FieldTable,
    pub levels: [Option<Shape>; 10],
    pub types: Vec<RecordType>,
    pub inputs: Vec<Input>,
}
