//! The whole command over objects in memory.

mod commands;
mod first_path;
mod guarded;
mod made;
mod scene;
mod small_core;
mod words;
