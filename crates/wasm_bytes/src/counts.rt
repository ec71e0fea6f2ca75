/// How many entries of each kind an index can name.
#[derive(Clone, Copy, Debug)]
pub struct Counts {
    pub types: u32,
    pub funcs: u32,
    pub tables: u32,
    pub memories: u32,
    pub globals: u32,
    pub tags: u32,
    pub elems: u32,
    /// The data segments that a body can name: as many as the data count section tells.
    pub segments: u32,
    /// The parameters and locals of the body that is read.
    pub locals: u64,
}
