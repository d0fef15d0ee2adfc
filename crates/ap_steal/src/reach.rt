//! How far a worker searches by itself before it shares out the kids of a path.

ghost use Rattle.std.specs.Prelude.{◌≡◌, ◌≢◌, ◌≤◌};
ghost use Rattle.ap_steal.specs.Reach as specs;
ghost use Rattle.ap_steal.specs.Reach.{reach_by_twos, reach_of_narrow};

/// A worker whose deque has paths searches all that is below a path, after so many.
const FIRST: u64 = 16;

/// How far it searches until then.
const LEAST: u64 = 64;

/// How many choices a worker makes that left its deque empty with so many paths in a row, on a way of this
/// length.
fn of_narrow(narrow: u32, way: usize) -> u64
    requires { narrow ≢ 0 }
    ensures { result ≡ reach_of_narrow narrow way }
{
    let again = (way as u64).min(1 << 24).max(LEAST);
    again << (3 * narrow.trailing_zeros().min(13))
}

/// How many choices a worker makes below a path where all answers are wanted, at most, or all of them:
/// after `count` paths, the last `narrow` of which left its deque empty, on a way of this length.
pub fn reach_for_all(count: u64, narrow: u32, way: usize) -> Option<u64>
    ensures { result ≡ specs.reach_for_all count narrow way }
{
    if narrow != 0 {
        return Some(of_narrow(narrow, way));
    }
    if count > FIRST { None } else { Some(LEAST) }
}

/// How many choices it makes where so many twos divide the length of the way, and not all answers are
/// wanted.
fn first_by(twos: u32) -> u64
    requires { twos ≤ 26 }
    ensures { result ≡ reach_by_twos twos }
{
    32 << (twos + twos.min(5))
}

/// How many choices a worker makes below a path where not all answers are wanted, on a way of this
/// length.
pub fn reach_for_first(way: usize) -> u64
    ensures { result ≡ specs.reach_for_first way }
{
    if way == 0 {
        return 0;
    }
    first_by((way as u64).trailing_zeros().min(26))
}
