mod faces;
mod frames;
mod measures;
mod reaction_table;
mod reactions;
mod table;
