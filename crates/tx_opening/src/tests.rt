//! Files as texts. In a table `|` stands for a line feed.
mod faults;
mod focus;
