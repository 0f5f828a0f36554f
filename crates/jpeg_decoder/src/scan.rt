//! A scan: its tables, the order of its blocks, and what it brings (T.81, B.2.3 and A.2).

pub mod block_array;
pub mod blocks;
pub mod coded;
pub mod codings;
pub mod decoded;
pub mod kept;
pub mod lossless;
pub mod mcus;
pub mod order;
pub mod planes;
pub mod raster;
pub mod restarts;
pub mod rows;
pub mod samples;
pub mod segment;
pub mod spots;
pub mod strips;
pub mod whole_rows;
pub mod work;
