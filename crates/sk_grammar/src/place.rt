use crate::bytes::Bytes;
use crate::value::Op;
use crate::values::Values;

/// What has been read of the open item: what is due is what its last token leaves.
#[derive(Drop)]
pub enum Place {
    /// No item is open.
    Idle,
    Named(Bytes),
    Signed(Bytes, Op),
    Opened(Bytes, Op),
    Comma(Bytes, Op, Values),
    Valued(Bytes, Op, Values),
    Closed(Bytes, Op, Values),
}
