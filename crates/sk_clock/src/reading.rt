use arrayvec::ArrayVec;

/// The values of the first ten fields, and whether there are more fields.
#[derive(Drop)]
pub struct Values {
    pub first: ArrayVec<u64, 10>,
    pub more: bool,
}

/// What a clock string says: the partition where it names one, and the values of its fields.
#[derive(Drop)]
pub struct Reading {
    pub partition: Option<u32>,
    pub values: Values,
}
