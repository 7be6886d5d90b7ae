//! The layers of a container, the room that docked children take, and how far the flow goes.

ghost use Rattle.std.specs.Prelude.{◌≡◌, ◌+◌, ◌<◌, ◌≤◌, ◌^◌, ◌-◌, ℕ, length, map, All, IfOk, IfErr, take, drop, ◌∷◌, None, Ok};
ghost use Rattle.std.specs.List.{filter};
ghost use Rattle.tx_read.specs.Answer.{Gives};
ghost use Rattle.tx_layout.specs.Ask.{told};
ghost use Rattle.tx_layout.specs.Style.{IsBoxStyle};
ghost use Rattle.tx_layout.specs.Children.{IsChild, child_at, numbered, layers, runs, layer_of, is_side_edge};
ghost use Rattle.tx_layout.specs.Room.{IsEdges, outer_end, is_at, stands_at, taken, is_edge, is_in, edges_of, edges_along, inside, greatest, extent, last_end};

use crate::children::{Child, Side};
use crate::sides::is_main;
use crate::styles::BoxStyle;
use std::alloc::Global;
use tx_box::LayoutFault;
use tx_geom::{Axis, Edge, Size};

// A child that has no cells yet.
fn child_at(place: u32, style: &BoxStyle) -> Child
    ensures { result ≡ child_at place style.now }
{
    let nothing = Side { from: 0, size: 0 };
    Child {
        place,
        style: *style,
        wide: nothing,
        tall: nothing,
    }
}

// The children with their places.
fn numbered_children(alloc: Global, styles: &[BoxStyle]) -> Result<Vec<Child>, LayoutFault>
    requires styles { All IsBoxStyle styles.now }
    requires count { length styles.now ≤ 65536 }
    ensures exact { IfOk result (λ v. v.items ≡ numbered 0 styles.now) }
    ensures children { IfOk result (λ v. All (IsChild (length styles.now)) v.items) }
    ensures count { IfOk result (λ v. length v.items ≡ length styles.now) }
    ensures refused { IfErr result (λ fault. told fault ≡ None) }
{
    let mut children = Vec::with_capacity(alloc, styles.len())?;
    for (index, style) in styles.iter().enumerate() {
        children.push(child_at(index as u32, style))?;
    }
    Ok(children)
}

/// The children with their places, ordered by layer, and in the order of the document in each.
pub fn by_layer(alloc: Global, styles: &[BoxStyle]) -> Result<Vec<Child>, LayoutFault>
    requires styles { All IsBoxStyle styles.now }
    requires count { length styles.now ≤ 65536 }
    ensures layers { IfOk result (λ v. runs v.items ≡ layers (numbered 0 styles.now)) }
    ensures children { IfOk result (λ v. All (IsChild (length styles.now)) v.items) }
    ensures count { IfOk result (λ v. length v.items ≡ length styles.now) }
    ensures refused { IfErr result (λ fault. told fault ≡ None) }
{
    let mut children = numbered_children(alloc, styles)?;
    children.sort_by_key(|child| child.style.layer)?;
    Ok(children)
}

/// How many of the first children are of one layer.
pub fn layer_len(children: &[Child]) -> usize
    requires some { 0 < length children.now }
    ensures cut { runs children.now ≡ take result children.now ∷ runs (drop result children.now) }
    ensures some { 0 < result }
    ensures within { result ≤ length children.now }
{
    let first = children[0].style.layer;
    for index in 1..children.len() {
        if children[index].style.layer != first {
            return index;
        }
    }
    children.len()
}

/// A part of a layer.
#[derive(Clone, Copy)]
pub enum Part {
    /// The children at an edge.
    Docked,
    /// The children at the left or at the right edge.
    AtSides,
    /// The children that follow each other.
    Flow,
}

// Whether a child is in a part.
fn is_in(part: Part, child: &Child) -> bool
    ensures { result ≡ is_in part child.now }
{
    match part {
        Part::Docked => child.style.dock.is_some(),
        Part::AtSides => is_at_side(child.style.dock),
        Part::Flow => child.style.dock.is_none(),
    }
}

// Whether it is the left or the right edge.
fn is_at_side(dock: Option<Edge>) -> bool
    ensures { result ≡ is_side_edge dock }
{
    match dock {
        None => false,
        Some(Edge::Top) => false,
        Some(Edge::Right) => true,
        Some(Edge::Bottom) => false,
        Some(Edge::Left) => true,
    }
}

/// The children of a part, in their order.
pub fn part_of(
    alloc: Global,
    children: &[Child],
    part: Part,
    count: u32,
) -> Result<Vec<Child>, LayoutFault>
    requires children { All (IsChild count) children.now }
    ensures exact { Gives (λ v. v.items) told result (Ok (filter (is_in part) children.now)) }
    ensures children { IfOk result (λ v. All (IsChild count) v.items) }
    ensures count { IfOk result (λ v. length v.items ≤ length children.now) }
{
    let mut chosen = Vec::with_capacity(alloc, children.len())?;
    for child in children {
        if !is_in(part, child) {
            continue;
        }
        chosen.push(*child)?;
    }
    Ok(chosen)
}

/// What the docked children take along each edge.
#[derive(Clone, Copy)]
pub struct Edges {
    pub top: u64,
    pub right: u64,
    pub bottom: u64,
    pub left: u64,
}

// Where the margin after a child ends.
fn outer_end(child: &Child, axis: Axis, count: u32) -> u64
    requires { IsChild count child.now }
    ensures exact { result ≡ outer_end axis child.now }
    ensures bound { result < 2 ^ 42 }
{
    let side = match axis {
        Axis::Width => child.wide,
        Axis::Height => child.tall,
    };
    side.from + side.size as u64 + child.style.margin.behind(axis) as u64
}

// Whether a dock is an edge.
fn is_at(dock: Option<Edge>, edge: Edge) -> bool
    ensures { result ≡ is_at edge dock }
{
    match dock {
        None => false,
        Some(other) => is_edge(edge, other),
    }
}

fn is_edge(edge: Edge, other: Edge) -> bool
    ensures { result ≡ is_edge edge other }
{
    match edge {
        Edge::Top => match other {
            Edge::Top => true,
            _ => false,
        },
        Edge::Right => match other {
            Edge::Right => true,
            _ => false,
        },
        Edge::Bottom => match other {
            Edge::Bottom => true,
            _ => false,
        },
        Edge::Left => match other {
            Edge::Left => true,
            _ => false,
        },
    }
}

// Whether a child is docked at an edge.
fn stands_at(child: &Child, edge: Edge) -> bool
    ensures { result ≡ stands_at edge child.now }
{
    is_at(child.style.dock, edge)
}

// The greatest of what children take of an edge.
#[tactic(auto, unfolding(crate::specs::Room::taken))]
fn taken(children: &[Child], edge: Edge, axis: Axis, count: u32) -> u64
    requires { All (IsChild count) children.now }
    ensures exact { result ≡ taken edge axis children.now }
    ensures bound { result < 2 ^ 42 }
{
    let mut most: u64 = 0;
    for child in children {
        if !stands_at(child, edge) {
            continue;
        }
        most = most.max(outer_end(child, axis, count));
    }
    most
}

/// What docked children take along each edge.
pub fn edges_of(children: &[Child], count: u32) -> Edges
    requires { All (IsChild count) children.now }
    ensures exact { result ≡ edges_of children.now }
    ensures bounds { IsEdges result }
{
    Edges {
        top: taken(children, Edge::Top, Axis::Height, count),
        right: taken(children, Edge::Right, Axis::Width, count),
        bottom: taken(children, Edge::Bottom, Axis::Height, count),
        left: taken(children, Edge::Left, Axis::Width, count),
    }
}

impl Edges {
    /// What the two edges along a direction take.
    pub fn along(self, axis: Axis) -> u64
        requires { IsEdges self }
        ensures exact { result ≡ edges_along axis self }
        ensures bound { result < 2 ^ 43 }
    {
        match axis {
            Axis::Width => self.left + self.right,
            Axis::Height => self.top + self.bottom,
        }
    }

    /// What the edges leave of an area.
    pub fn inside(self, area: Size) -> Size
        requires { IsEdges self }
        ensures { result ≡ inside self area }
    {
        Size {
            width: room_beside(area.width, self.left + self.right),
            height: room_beside(area.height, self.top + self.bottom),
        }
    }
}

// What is left of a room.
fn room_beside(room: u32, taken: u64) -> u32
    ensures { result ≡ room - taken }
{
    (room as u64).saturating_sub(taken) as u32
}

// Where the last of the margins after children ends.
fn greatest_end(children: &[Child], axis: Axis, count: u32) -> u64
    requires { All (IsChild count) children.now }
    ensures exact { result ≡ greatest (map (outer_end axis) children.now) }
    ensures bound { result < 2 ^ 42 }
{
    let mut most: u64 = 0;
    for child in children {
        most = most.max(outer_end(child, axis, count));
    }
    most
}

// Where the margin after the last child ends.
fn last_end(children: &[Child], axis: Axis, count: u32) -> u64
    requires { All (IsChild count) children.now }
    ensures exact { result ≡ last_end axis children.now }
    ensures bound { result < 2 ^ 42 }
{
    let mut end: u64 = 0;
    for child in children {
        end = outer_end(child, axis, count);
    }
    end
}

/// How far a flow goes in a direction.
#[tactic(auto, unfolding(crate::specs::Room::extent))]
pub fn extent(children: &[Child], main: Option<Axis>, axis: Axis, count: u32) -> u64
    requires { All (IsChild count) children.now }
    ensures exact { result ≡ extent main axis children.now }
    ensures bound { result < 2 ^ 42 }
{
    if is_main(main, axis) {
        last_end(children, axis, count)
    } else {
        greatest_end(children, axis, count)
    }
}
