//! Scripts that are read, drawn and written.

mod reading;
mod texts;
