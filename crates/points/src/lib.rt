// Points in lent buffers: one read, one put, and zeros.
#![tactic(auto)]

ghost use Rattle.std.specs.Prelude.{◌≡◌, ◌+◌, ◌*◌, ◌<◌, length, replicate};
ghost use Rattle.points.specs.Points.{zero32, point_at};
ghost use Rattle.points.specs.Model.{put_point};

// A point, in-phase first.
#[derive(Clone, Copy)]
pub struct Point {
    pub i: f32,
    pub q: f32,
}

// Point n of a buffer.
pub fn point_at(floats: &[f32], n: usize) -> Point
    requires { n * 2 + 1 < length floats.now }
    ensures { result ≡ point_at floats.now n }
{
    Point {
        i: floats[n * 2],
        q: floats[n * 2 + 1],
    }
}

pub fn put_point(floats: &mut [f32], n: usize, p: Point)
    requires { n * 2 + 1 < length floats.old }
    ensures { floats.new ≡ put_point floats.old n p }
{
    floats[n * 2] = p.i;
    floats[n * 2 + 1] = p.q;
}

// Zeros everywhere.
pub fn clear(floats: &mut [f32])
    ensures { floats.new ≡ replicate (length floats.old) zero32 }
{
    floats.fill(0.0);
}
