/// No taken span begins at the address that was given back.
#[derive(Clone, Copy, Debug, PartialEq, Eq)]
pub struct NotASpan;
