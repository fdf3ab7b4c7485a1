/// What the chunks of a usage come to.
#[derive(Clone, Copy, Debug, PartialEq, Eq)]
pub struct Sum {
    pub total: u64,
    pub count: u64,
}
