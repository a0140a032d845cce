/// The number of cells of a bucket.
pub const BUCKET_CELLS: usize = 4;

/// Where a pair of a key and a slot stands. Buckets, the cells of a bucket and the places of the overflow list are each
/// counted from 0.
#[derive(Clone, Copy, Debug, PartialEq, Eq)]
pub enum Place {
    /// in its key's bucket
    Cell { bucket: u32, cell: u32 },
    /// in the overflow list, since its key's bucket is full
    Overflow { at: u32 },
}
