//! Points of the plane, their distances, and the products that compare distances and sides.
ghost use Rattle.std.specs.Prelude.{ℕ, pos, ◌≡◌, ◌^◌, ◌+◌, ◌*◌, ◌<◌, ◌≤◌, ◌+ℤ◌, ◌-ℤ◌, ◌*ℤ◌, ◌≤ℤ◌, ◌↔◌, IsTrue, unsigned_abs};
ghost use Rattle.fixed_geometry.specs.Displacement.{displacement};
ghost use Rattle.fixed_geometry.specs.Plane.{dot_of, turn_of, norm2_of};
ghost use Rattle.fixed_geometry.specs.Sizes.{IsWithin};

/// A point of the plane, or a vector in it, such as the displacement from one point to another: the second minus the
/// first.
#[derive(Clone, Copy, Debug, PartialEq, Eq)]
pub struct Point {
    /// Tenths of a millimetre to the east.
    pub x: i64,
    /// Tenths of a millimetre to the north.
    pub y: i64,
}

pub(crate) fn product(a: i64, b: i64) -> i128
    requires a_small { unsigned_abs a ≤ 2 ^ 62 }
    requires b_small { unsigned_abs b ≤ 2 ^ 62 }
    ensures value { result ≡ a *ℤ b }
    ensures size { unsigned_abs result ≡ unsigned_abs a * unsigned_abs b }
    ensures small { unsigned_abs result ≤ 2 ^ 124 }
{
    i128::from(a) * i128::from(b)
}

fn sum(a: i128, b: i128) -> i128
    requires a_small { unsigned_abs a ≤ 2 ^ 124 }
    requires b_small { unsigned_abs b ≤ 2 ^ 124 }
    ensures value { result ≡ a +ℤ b }
    ensures small { unsigned_abs result ≤ unsigned_abs a + unsigned_abs b }
{
    a + b
}

fn minus(a: i128, b: i128) -> i128
    requires a_small { unsigned_abs a ≤ 2 ^ 124 }
    requires b_small { unsigned_abs b ≤ 2 ^ 124 }
    ensures value { result ≡ a -ℤ b }
    ensures small { unsigned_abs result ≤ unsigned_abs a + unsigned_abs b }
{
    a - b
}

/// Returns the second component minus the first.
fn difference(a: i64, b: i64) -> i64
    requires a_small { unsigned_abs a ≤ 2 ^ 61 }
    requires b_small { unsigned_abs b ≤ 2 ^ 61 }
    ensures value { result ≡ b -ℤ a }
    ensures small { unsigned_abs result ≤ unsigned_abs a + unsigned_abs b }
{
    b - a
}

/// Returns the displacement from one point to another: the second minus the first. Components are at most 2^61 in size.
pub fn displacement(a: Point, b: Point) -> Point
    requires a_small { IsWithin (2 ^ 61) a }
    requires b_small { IsWithin (2 ^ 61) b }
    ensures value { result ≡ displacement a b }
    ensures small { IsWithin (2 ^ 62) result }
    ensures small_x { unsigned_abs result.x ≤ unsigned_abs a.x + unsigned_abs b.x }
    ensures small_y { unsigned_abs result.y ≤ unsigned_abs a.y + unsigned_abs b.y }
{
    Point {
        x: difference(a.x, b.x),
        y: difference(a.y, b.y),
    }
}

/// Returns the square of a distance.
pub fn square(distance: u64) -> u128
    ensures { result ≡ distance * distance }
{
    u128::from(distance) * u128::from(distance)
}

fn component_square(a: i64) -> u128
    requires { unsigned_abs a ≤ 2 ^ 62 }
    ensures value { pos result ≡ a *ℤ a }
    ensures size { result ≡ unsigned_abs a * unsigned_abs a }
{
    square(a.unsigned_abs())
}

/// Returns the dot product of two vectors, components at most 2^62 in size: positive if the angle between them is less
/// than a right angle, negative if it is more.
pub fn dot(a: Point, b: Point) -> i128
    requires a_small { IsWithin (2 ^ 62) a }
    requires b_small { IsWithin (2 ^ 62) b }
    ensures value { result ≡ dot_of a b }
    ensures small { unsigned_abs result
        ≤ unsigned_abs a.x * unsigned_abs b.x + unsigned_abs a.y * unsigned_abs b.y }
{
    sum(product(a.x, b.x), product(a.y, b.y))
}

/// Returns the cross product of two vectors, components at most 2^62 in size: positive if `b` points to port of `a`,
/// negative if it points to starboard.
pub fn turn(a: Point, b: Point) -> i128
    requires a_small { IsWithin (2 ^ 62) a }
    requires b_small { IsWithin (2 ^ 62) b }
    ensures value { result ≡ turn_of a b }
    ensures small { unsigned_abs result
        ≤ unsigned_abs a.x * unsigned_abs b.y + unsigned_abs a.y * unsigned_abs b.x }
{
    minus(product(a.x, b.y), product(a.y, b.x))
}

/// Returns the square of a vector's length, components at most 2^62 in size.
pub fn norm2(a: Point) -> u128
    requires { IsWithin (2 ^ 62) a }
    ensures value { pos result ≡ norm2_of a }
    ensures squares { result
        ≡ unsigned_abs a.x * unsigned_abs a.x + unsigned_abs a.y * unsigned_abs a.y }
{
    component_square(a.x) + component_square(a.y)
}

/// Returns whether two points are at most `range` apart. Their components are at most 2^61 in size.
pub fn within(a: Point, b: Point, range: u64) -> bool
    requires a_small { IsWithin (2 ^ 61) a }
    requires b_small { IsWithin (2 ^ 61) b }
    ensures { IsTrue result ↔ (norm2_of (displacement a b) ≤ℤ pos (range * range)) }
{
    norm2(displacement(a, b)) <= square(range)
}

/// Returns a power of two that is at least the root of `n`, from the number's bit length.
fn power_above(n: u128) -> u128
    requires { 0 < n }
    ensures above { n < (result + 1) * (result + 1) }
    ensures some { 0 < result }
    ensures small { result ≤ 2 ^ 64 }
{
    1 << (n.ilog2() / 2 + 1)
}

/// Returns a number nearer to the root of `n`, by Newton's method. The result is at least the root, rounded down. If it
/// is not less than the previous number, that number is the root.
fn nearer_root(n: u128, root: u128) -> u128
    requires above { n < (root + 1) * (root + 1) }
    requires some { 0 < root }
    requires small { root ≤ 2 ^ 64 }
    ensures above { n < (result + 1) * (result + 1) }
    ensures some { 0 < n → 0 < result }
    ensures last { root ≤ result → root * root ≤ n }
{
    (root + n / root) / 2
}

/// Returns the greatest whole number whose square is at most `n`: a length, from its square, rounded down.
pub fn isqrt(n: u128) -> u64
    ensures square_le { result * result ≤ n }
    ensures greatest { (m : ℕ) → m * m ≤ n → m ≤ result }
    ensures next_square_gt { n < (result + 1) * (result + 1) }
{
    if n == 0 {
        return 0;
    }
    let mut root = power_above(n);
    let mut next = nearer_root(n, root);
    while next < root {
        root = next;
        next = nearer_root(n, root);
    }
    root as u64
}
