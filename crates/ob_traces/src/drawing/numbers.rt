ghost use Rattle.std.specs.Prelude.{◌≡◌, ◌+◌, ◌*◌, ◌<◌, ◌≤◌};
ghost use Rattle.ob_traces.specs.Draw.{greater, nearest};

/// The greater of two numbers.
pub fn greater(a: u32, b: u32) -> u32
    ensures { result ≡ greater a b }
{
    if a < b { b } else { a }
}

/// The whole number nearest to a quotient; of two the greater.
pub fn nearest(number: u64, by: u64) -> u64
    requires some { 0 < by }
    requires small { number < 4611686018427387904 }
    requires small_by { by < 4611686018427387904 }
    ensures value { result ≡ nearest number by }
    ensures within { result ≤ 2 * number + by }
{
    (2 * number + by) / (2 * by)
}
