//! What a C program holds from one call to the next.
use crate::fed::FedStream;
use crate::fed_rows::FedRowReader;
use crate::rows::RowReader;

/// What a call goes on with that another one has begun.
#[derive(Drop)]
pub enum Handle {
    /// A picture that is given line by line.
    Rows(RowReader),
    /// A stream that arrives in pieces.
    Stream(FedStream),
    /// A picture that is given line by line while its stream arrives.
    FedRows(FedRowReader),
}
