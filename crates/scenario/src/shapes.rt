//! The shape of own ship's part, and its fault.
ghost use Rattle.std.specs.Prelude.{◌≡◌, codes, length, map, option_map, position};
ghost use Rattle.toml.specs.Data.{as_integer};
ghost use Rattle.toml.specs.View.{array_view, table_view, view};
ghost use Rattle.scenario.specs.Shapes.{is_no_integer_list, is_no_vertex, near_vertex, no_shape_fault, shape_fault, shape_in, vertex_by, vertex_in, vertex_of, vertices_fault};
ghost use Rattle.scenario_keys.specs.KeyValues.{integer_of, list_at};
ghost use Rattle.scenario_keys.specs.ListFaults.{elements};

use crate::listed::array;
use hull_domains::Shape;
use scenario_keys::{Cause, element_count, integer_of, is_integer_list, length_fault};
use toml::value::Array;
use toml::{Table, Value};

/// Returns the vertex of two integers, if neither is farther than 2000 from 0.
fn near_vertex(forward: i64, starboard: i64) -> Option<(i32, i32)>
    ensures { result ≡ near_vertex (forward, starboard) }
{
    if forward.unsigned_abs() <= 2000 && starboard.unsigned_abs() <= 2000 {
        Some((forward as i32, starboard as i32))
    } else {
        None
    }
}

#[tactic(auto, using(crate::proofs::Vertices::two_integers, crate::proofs::Vertices::other_integers))]
fn vertex_by(list: &Array) -> Option<(i32, i32)>
    ensures { result ≡ vertex_by (map (λ v. integer_of (as_integer (view v))) list.now.items) }
{
    if list.len() != 2 {
        return None;
    }
    near_vertex(integer_of(&list[0]), integer_of(&list[1]))
}

/// Returns the vertex of a list of two integers that are near enough.
#[tactic(auto, using(scenario_keys::proofs::Elements::mapped_seen))]
fn vertex_in(found: &Value) -> Option<(i32, i32)>
    ensures { result ≡ vertex_in (view found.now) }
{
    match found.as_array() {
        Some(list) => vertex_by(list),
        None => None,
    }
}

fn vertex_of(found: &Value) -> (i32, i32)
    ensures { result ≡ vertex_of (view found.now) }
{
    match vertex_in(found) {
        Some(vertex) => vertex,
        None => (0, 0),
    }
}

#[tactic(auto, using(crate::proofs::Vertices::six_vertices))]
fn six_vertices(list: &Array) -> [(i32, i32); 6]
    requires { length list.now.items ≡ 6 }
    ensures { result ≡ map (λ v. vertex_of (view v)) list.now.items }
{
    [
        vertex_of(&list[0]),
        vertex_of(&list[1]),
        vertex_of(&list[2]),
        vertex_of(&list[3]),
        vertex_of(&list[4]),
        vertex_of(&list[5]),
    ]
}

/// Returns the shape of a list, if it forms one.
fn shape_in(list: &Array) -> Option<Shape>
    ensures { result ≡ shape_in (elements (array_view list.now)) }
{
    if list.len() != 6 {
        return None;
    }
    Shape::new(&six_vertices(list))
}

fn first_no_integer_list(list: &Array) -> Option<usize>
    ensures { result ≡ position (λ v. is_no_integer_list (view v)) list.now.items }
{
    list.iter().position(|found| !is_integer_list(found))
}

fn first_no_vertex(list: &Array) -> Option<usize>
    ensures { result ≡ position (λ v. is_no_vertex (view v)) list.now.items }
{
    list.iter().position(|found| vertex_in(found).is_none())
}

fn no_shape_fault(list: &Array) -> Option<(usize, Cause)>
    ensures { result ≡ no_shape_fault (shape_in (elements (array_view list.now))) }
{
    match shape_in(list) {
        Some(_) => None,
        None => Some((0, Cause::Range)),
    }
}

#[tactic(auto, unfolding(crate::specs::Shapes::vertices_fault), using(scenario_keys::proofs::Elements::position_seen))]
fn vertices_fault(list: &Array) -> Option<(usize, Cause)>
    ensures { result ≡ vertices_fault (elements (array_view list.now)) }
{
    if let Some(item) = first_no_integer_list(list) {
        return Some((item, Cause::Type_));
    }
    if let Some(fault) = length_fault(6, 6, element_count(list)) {
        return Some(fault);
    }
    if let Some(item) = first_no_vertex(list) {
        return Some((item, Cause::Range));
    }
    no_shape_fault(list)
}

/// Returns the fault of an optional shape and its vertex; a fault of the whole shape is at vertex 0.
pub(crate) fn shape_fault(found: Option<&Value>) -> Option<(usize, Cause)>
    ensures { result ≡ shape_fault (option_map (λ v. view v.now) found.entry) }
{
    match found {
        Some(found) => match found.as_array() {
            Some(list) => vertices_fault(list),
            None => Some((0, Cause::Type_)),
        },
        None => None,
    }
}

/// Returns the shape of a document, if it has one.
#[tactic(auto, unfolding(scenario_keys::specs::KeyValues::list_at, hull_domains::specs::Shapes::is_shape))]
pub(crate) fn shape_at(document: &Table) -> Option<Shape>
    ensures { result ≡ shape_in (list_at (codes "own") (codes "shape") (table_view document.now)) }
{
    match array(document, "own", "shape") {
        Some(list) => shape_in(list),
        None => None,
    }
}
