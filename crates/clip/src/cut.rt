// The cut of a polygon along x or z: what its vertices, one after another, give to either side.
ghost use Rattle.std.specs.Prelude.{◌≡◌, [], ◌∷◌, ◌++◌, ◌+◌, ◌≤◌, ◌<◌, List, ℕ, length, cond};
ghost use Rattle.std.specs.Float.Ieee.{le};
ghost use Rattle.grid.specs.declared.Corner.{Corner};
ghost use Rattle.clip.specs.Cut.{nought, along, distance, crossing_of, joining, to_first, to_second, first_of, second_of, fitting, verdict_of, slice_cut};

use grid::Corner;

#[derive(Clone, Copy)]
pub enum Axis {
    X,
    Z,
}

// Reply 6: a cut would give a part an eighth vertex.
#[derive(Clone, Copy)]
pub struct EighthVertex;

// A vertex of the round, with its d, and whether d ≥ 0 holds: the vertex after it asks that once more.
#[derive(Clone, Copy)]
struct Passed {
    vertex: Corner,
    d: f32,
    before: bool,
}

// How many vertices each part of a cut has.
#[derive(Clone, Copy)]
struct Counts {
    first: usize,
    second: usize,
}

// A part of a cut, which is given its vertices one after another, and at last how many there were. What it keeps of them is its own affair:
// `made` says what it then is, whatever it was before, and `holding` what it is until then.
pub trait Part {
    ghost holding: { Self → List Corner → Self };

    ghost made: { Self → List Corner → Self };

    // The vertex v, after `at` others.
    fn put(&mut self, at: usize, v: Corner)
        ensures { (s : Self) (vs : List Corner) → length vs ≡ at → self.old ≡ holding s vs → self.new ≡ holding s (vs ++ v ∷ []) };

    // There were n.
    fn end(&mut self, n: usize)
        ensures { (s : Self) (vs : List Corner) → length vs ≡ n → self.old ≡ holding s vs → self.new ≡ made s vs };

    ghost holding_none: { (s : Self) → s ≡ holding s [] };
}

fn coordinate(v: Corner, axis: Axis) -> f32
    ensures { result ≡ along axis v }
{
    match axis {
        Axis::X => v.x,
        Axis::Z => v.z,
    }
}

impl Passed {
    fn of(vertex: Corner, axis: Axis, offset: f32) -> Self
        ensures vertex { result.vertex ≡ vertex }
        ensures d { result.d ≡ distance axis offset vertex }
        ensures before { result.before ≡ le nought result.d }
    {
        let d = offset - coordinate(vertex, axis);
        Passed {
            vertex,
            d,
            before: d >= 0.0,
        }
    }
}

// b + (a - b) * s, with s = db / (db - da).
fn crossing(b: Corner, a: Corner, db: f32, da: f32) -> Corner
    ensures { result ≡ crossing_of b a db da }
{
    let s = db / (db - da);
    Corner {
        x: b.x + (a.x - b.x) * s,
        y: b.y + (a.y - b.y) * s,
        z: b.z + (a.z - b.z) * s,
    }
}

// The vertex v, where it joins; how many vertices the part then has.
fn put_if<P: Part>(part: &mut P, at: usize, v: Corner, joins: bool) -> usize
    requires { at < 14 }
    ensures count { result ≡ at + length (joining joins v) }
    ensures part { (s : P) (vs : List Corner) → length vs ≡ at → part.old ≡ P.holding s vs → part.new ≡ P.holding s (vs ++ joining joins v) }
{
    if joins {
        part.put(at, v);
        return at + 1;
    }
    at
}

// The vertex v for the parts that the two flags name.
fn join<F: Part, S: Part>(
    first: &mut F,
    second: &mut S,
    n: Counts,
    v: Corner,
    to_first: bool,
    to_second: bool,
) -> Counts
    requires { (n.first < 14) × (n.second < 14) }
    ensures counts { (result.first ≡ n.first + length (joining to_first v)) × (result.second ≡ n.second + length (joining to_second v)) }
    ensures first { (s : F) (vs : List Corner) → length vs ≡ n.first → first.old ≡ F.holding s vs → first.new ≡ F.holding s (vs ++ joining to_first v) }
    ensures second { (s : S) (vs : List Corner) → length vs ≡ n.second → second.old ≡ S.holding s vs → second.new ≡ S.holding s (vs ++ joining to_second v) }
{
    Counts {
        first: put_if(first, n.first, v, to_first),
        second: put_if(second, n.second, v, to_second),
    }
}

// What the vertex a, with b before it, gives to each part.
fn turn<F: Part, S: Part>(first: &mut F, second: &mut S, n: Counts, b: Passed, a: Passed) -> Counts
    requires room { (n.first + 1 < 14) × (n.second + 1 < 14) }
    requires tested { (b.before ≡ le nought b.d) × (a.before ≡ le nought a.d) }
    ensures counts { (result.first ≡ n.first + length (to_first b.vertex a.vertex b.d a.d)) × (result.second ≡ n.second + length (to_second b.vertex a.vertex b.d a.d)) }
    ensures first { (s : F) (vs : List Corner) → length vs ≡ n.first → first.old ≡ F.holding s vs → first.new ≡ F.holding s (vs ++ to_first b.vertex a.vertex b.d a.d) }
    ensures second { (s : S) (vs : List Corner) → length vs ≡ n.second → second.old ≡ S.holding s vs → second.new ≡ S.holding s (vs ++ to_second b.vertex a.vertex b.d a.d) }
{
    if a.before == b.before {
        return join(first, second, n, a.vertex, a.before, a.d <= 0.0);
    }
    let c = crossing(b.vertex, a.vertex, b.d, a.d);
    let m = join(first, second, n, c, true, true);
    join(first, second, m, a.vertex, a.d > 0.0, a.d < 0.0)
}

// The round of a polygon, whose last vertex stands before its first.
#[inline(always)]
fn go_round<F: Part, S: Part>(
    vs: &[Corner],
    axis: Axis,
    offset: f32,
    first: &mut F,
    second: &mut S,
) -> Counts
    requires { length vs.now ≤ 7 }
    ensures counts { (result.first ≡ length (first_of axis offset vs.now)) × (result.second ≡ length (second_of axis offset vs.now)) }
    ensures first { first.new ≡ F.holding first.old (first_of axis offset vs.now) }
    ensures second { second.new ≡ S.holding second.old (second_of axis offset vs.now) }
{
    let mut n = Counts {
        first: 0,
        second: 0,
    };
    let Some(last) = vs.last() else {
        return n;
    };
    let mut b = Passed::of(*last, axis, offset);
    for v in vs {
        let a = Passed::of(*v, axis, offset);
        n = turn(first, second, n, b, a);
        b = a;
    }
    n
}

// The cut of the polygon whose vertices are `vs`. Both parts stand whole even where one of them has an eighth vertex, which is an error;
// a polygon of more than 7 vertices is one too, and then both parts stay as they were.
#[inline(always)]
pub fn divide<F: Part, S: Part>(
    vs: &[Corner],
    axis: Axis,
    offset: f32,
    first: &mut F,
    second: &mut S,
) -> Result<(), EighthVertex>
    ensures verdict { result ≡ verdict_of (slice_cut axis offset vs.now) }
    ensures first { first.new ≡ cond (fitting vs.now) (F.made first.old (first_of axis offset vs.now)) first.old }
    ensures second { second.new ≡ cond (fitting vs.now) (S.made second.old (second_of axis offset vs.now)) second.old }
{
    if vs.len() > 7 {
        return Err(EighthVertex);
    }
    let n = go_round(vs, axis, offset, first, second);
    first.end(n.first);
    second.end(n.second);
    if n.first > 7 || n.second > 7 {
        return Err(EighthVertex);
    }
    Ok(())
}
