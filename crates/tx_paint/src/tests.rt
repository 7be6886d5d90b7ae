//! Drawings, as pictures and by their pens.
mod drawings;
mod tables;
