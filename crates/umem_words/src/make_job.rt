use umem_options::{Logging, Options};

/// A script is to be made, and run.
#[derive(Clone, Copy, Debug)]
pub struct MakeJob {
    pub seed: u64,
    /// How many operations the script has.
    pub ops: u32,
    pub options: Options,
    pub logging: Logging,
}
