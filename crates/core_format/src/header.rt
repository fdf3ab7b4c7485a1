/// What the first record of a core says.
#[derive(Clone, Copy)]
pub struct Header {
    pub version: u32,
    pub flags: u32,
    pub frames: u32,
    pub contents: u32,
    pub cpus: u32,
    pub caches: u32,
    pub slabs: u32,
    pub large: u32,
    pub audits: u32,
    pub trans_capacity: u32,
    pub trans: u32,
    pub fail_capacity: u32,
    pub fails: u32,
    pub next_chunk: u32,
    pub entries: u64,
}

/// What the second record of a core of version 2 says. A core of version 1 has none of it.
#[derive(Clone, Copy)]
pub struct SecondHeader {
    pub threads: u32,
    pub contents_capacity: u32,
    pub saved: u32,
}
