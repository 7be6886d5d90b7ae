//! The children of a container while they are arranged.

use crate::styles::BoxStyle;
use tx_box::Basis;
use tx_geom::{Axis, Region, Size};

/// The cells of a child in one direction: where they begin, and how many they are.
#[derive(Clone, Copy)]
pub struct Side {
    pub from: u64,
    pub size: u32,
}

/// A child with its place among all children, and the columns and rows that it has so far.
#[derive(Clone, Copy)]
pub struct Child {
    pub place: u32,
    pub style: BoxStyle,
    pub wide: Side,
    pub tall: Side,
}

/// A child of a grid with the columns and rows of the cells that it takes.
#[derive(Clone, Copy)]
pub struct Framed {
    pub child: Child,
    pub columns: Side,
    pub rows: Side,
}

/// In what children are given their sizes.
#[derive(Clone, Copy)]
pub struct Setting {
    /// The direction in which they follow each other. Without one each stands by itself.
    pub main: Option<Axis>,
    pub basis: Basis,
    /// How many children the container has. A measure may be asked of each of these.
    pub count: u32,
}

/// The flow of a layer: its children with their cells, and how far they go to the right and down.
#[derive(Drop)]
pub struct LaidFlow {
    pub children: Vec<Child>,
    pub wide: u64,
    pub tall: u64,
}

/// What the layers so far come to: the region of each child that has one, and how far they go over
/// their rooms.
#[derive(Drop)]
pub struct Laid {
    pub placed: Vec<Option<Region>>,
    pub over: Size,
}
