/// What the words of a command line give.
#[derive(Clone, Copy)]
pub struct Told<'a> {
    pub mode: Option<&'a str>,
    pub file: Option<&'a str>,
    pub core: Option<&'a str>,
    pub debug: Option<&'a str>,
    pub logging: Option<&'a str>,
    pub seed: Option<&'a str>,
    pub ops: Option<&'a str>,
}
