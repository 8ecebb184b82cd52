//! Shapes of six vertices, and their edges.
ghost use Rattle.std.specs.Prelude.{ℕ, ℤ, pos, ◌≡◌, ◌+◌, ◌%◌, ◌≤◌, ◌<◌, ◌↔◌, ◌*ℤ◌, ◌-ℤ◌, ◌<ℤ◌, All, IsTrue, IsSome, IfSome};
ghost use Rattle.hull_domains.specs.Inner.EdgeSides.{IsShort};
ghost use Rattle.hull_domains.specs.Inner.Ways.{longest_way, way_to};
ghost use Rattle.hull_domains.specs.Shapes.{edge_of, shape_of, vertex_of, HasInside, IsNearVertex, IsShape, Turns};

use fixed_geometry::{Point, turn};
use std::marker::Model;

/// From a vertex of a shape to the next: metres forward of the vessel (`x`) and to starboard of her (`y`).
#[derive(Clone, Copy, PartialEq, Eq)]
pub(crate) struct Edge {
    pub(crate) from: Point,
    /// The displacement to the next vertex.
    pub(crate) along: Point,
}

fn vertex(vertices: &[(i32, i32); 6], k: usize) -> (i32, i32)
    requires { k < 6 }
    ensures { result ≡ vertex_of vertices.now k }
{
    vertices[k]
}

fn wide(metres: i32) -> i64
    ensures { result ≡ metres }
{
    i64::from(metres)
}

fn difference(from: i32, to: i32) -> i64
    ensures { result ≡ to -ℤ from }
{
    i64::from(to) - i64::from(from)
}

/// Returns the edge that begins at a vertex.
#[tactic(auto, unfolding(crate::specs::Shapes::edge_of))]
fn edge_at(vertices: &[(i32, i32); 6], k: usize) -> Edge
    requires { k < 6 }
    ensures { result ≡ edge_of vertices.now k }
{
    let from = vertex(vertices, k);
    let to = vertex(vertices, (k + 1) % 6);
    Edge {
        from: Point {
            x: wide(from.0),
            y: wide(from.1),
        },
        along: Point {
            x: difference(from.0, to.0),
            y: difference(from.1, to.1),
        },
    }
}

fn is_near(vertex: (i32, i32)) -> bool
    ensures { IsTrue result ↔ IsNearVertex vertex }
{
    vertex.0.unsigned_abs() <= 2000 && vertex.1.unsigned_abs() <= 2000
}

fn are_near(vertices: &[(i32, i32); 6]) -> bool
    ensures { IsTrue result ↔ All IsNearVertex vertices.now }
{
    vertices.iter().all(|vertex| is_near(*vertex))
}

/// Returns whether the next edge turns to starboard at the end of this one.
fn turns(edge: Edge, next: Edge) -> bool
    requires edge { IsShort edge }
    requires next { IsShort next }
    ensures { IsTrue result ↔ Turns edge next }
{
    turn(edge.along, next.along) > 0
}

/// Returns whether the vessel is strictly inside an edge.
fn has_inside(edge: Edge) -> bool
    requires { IsShort edge }
    ensures { IsTrue result ↔ HasInside edge }
{
    turn(edge.along, edge.from) < 0
}

/// Returns an edge of vertices that are near.
fn short_edge(vertices: &[(i32, i32); 6], k: usize) -> Edge
    requires k { k < 6 }
    requires near { All IsNearVertex vertices.now }
    ensures value { result ≡ edge_of vertices.now k }
    ensures short { IsShort result }
{
    edge_at(vertices, k)
}

/// Returns the way to a vertex in metres: forward or aft, and then abeam.
fn way_to(vertex: (i32, i32)) -> u32
    requires { IsNearVertex vertex }
    ensures value { result ≡ way_to vertex }
    ensures short { result ≤ 4000 }
{
    vertex.0.unsigned_abs() + vertex.1.unsigned_abs()
}

/// Returns the way to a vertex of a list.
fn way_to_one(vertices: &[(i32, i32); 6], k: usize) -> u32
    requires k { k < 6 }
    requires near { All IsNearVertex vertices.now }
    ensures value { result ≡ way_to (vertex_of vertices.now k) }
    ensures short { result ≤ 4000 }
{
    way_to(vertex(vertices, k))
}

/// Returns the longest way to a vertex, in metres.
#[tactic(auto, unfolding(crate::specs::Inner::Ways::longest_way))]
fn longest_way(vertices: &[(i32, i32); 6]) -> u32
    requires { All IsNearVertex vertices.now }
    ensures value { result ≡ longest_way vertices.now 6 }
    ensures short { result ≤ 4000 }
{
    let mut longest = 0;
    for k in 0..6 {
        longest = longest.max(way_to_one(vertices, k));
    }
    longest
}

/// Returns whether vertices stand clockwise about the vessel.
fn are_around(vertices: &[(i32, i32); 6]) -> bool
    requires { All IsNearVertex vertices.now }
    ensures { IsTrue result
        ↔ ((k : ℕ) → k < 6
        → Turns (edge_of vertices.now k) (edge_of vertices.now ((k + 1) % 6))
        × HasInside (edge_of vertices.now k)) }
{
    for k in 0..6 {
        let edge = short_edge(vertices, k);
        if !turns(edge, short_edge(vertices, (k + 1) % 6)) {
            return false;
        }
        if !has_inside(edge) {
            return false;
        }
    }
    true
}

/// A domain about a vessel, which turns with her: six vertices clockwise about her, none more than 2000 m from her in a component.
#[derive(Clone, Copy, Debug, PartialEq, Eq)]
pub struct Shape {
    vertices: [(i32, i32); 6],
    /// The longest way to a vertex, in metres: none is farther. Most steps of a search stay out of the circle with this
    /// radius.
    longest: u32,
}

impl Model for Shape {
    ghost use Rattle.std.specs.Prelude.{List, ℤ};
    ghost use Rattle.hull_domains.specs.Inner.Ways.{longest_way};
    ghost use Rattle.hull_domains.specs.Shapes.{IsShape};
    ghost use Rattle.std.specs.Prelude.{◌≡◌};

    ghost Value = { List (ℤ × ℤ) };

    ghost view = { λ s. s.vertices };

    ghost invariant = { λ s. IsShape s.vertices × (s.longest ≡ longest_way s.vertices 6) };

    ghost inverse = { λ vs. record { vertices = vs; longest = longest_way vs 6 } };
}

impl Shape {
    /// Returns the shape of these vertices, each by its metres forward of the vessel and to starboard, or `None` if
    /// they are none.
    #[tactic(auto, using(crate::proofs::Tested::shaped, crate::proofs::Tested::unshaped))]
    pub fn new(vertices: &[(i32, i32); 6]) -> Option<Shape>
        ensures value { IfSome result (λ shape. shape ≡ vertices.now) }
        ensures some { IsSome result ↔ IsShape vertices.now }
        ensures exact { result ≡ shape_of vertices.now }
    {
        if are_near(vertices) && are_around(vertices) {
            Some(Shape {
                vertices: *vertices,
                longest: longest_way(vertices),
            })
        } else {
            None
        }
    }

    /// Returns the longest way to a vertex, in metres.
    pub(crate) fn longest_way(&self) -> u32
        ensures value { result ≡ longest_way self.now 6 }
        ensures short { result ≤ 4000 }
        ensures each { (k : ℕ) → k < 6 → way_to (vertex_of self.now k) ≤ result }
    {
        self.longest
    }

    /// Returns the edge that begins at a vertex.
    pub(crate) fn edge(&self, k: usize) -> Edge
        requires { k < 6 }
        ensures value { result ≡ edge_of self.now k }
        ensures short { IsShort result }
    {
        short_edge(&self.vertices, k)
    }
}
