//! Drawn scripts that a heap runs, against walks over plain lists.

mod cases;
mod compare;
mod core_walk;
mod draw;
mod drawing;
mod fault;
mod plain_arena;
mod plain_places;
mod plain_roots;
mod plain_run;
mod plain_shape;
mod rows;
mod script_text;
mod seeds;
mod steps;
mod taste;
