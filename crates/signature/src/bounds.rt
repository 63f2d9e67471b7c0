// CheckBounds over the fields of a signature (000, Algorithm 4), settled early (02, #112): hint, then response, to the first coefficient that
// decides.
ghost use Rattle.std.specs.Prelude.{◌≡◌, ◌+◌, ◌/◌, ◌^◌, ◌<◌, ◌≤◌, length};
ghost use Rattle.signature.specs.Decision.{standing_of, square_of, count_in, measured, decided};

// 2^(2 * 44 - 64): the hint counts in 2^44, and the sum in 2^64 (lines 5 to 7).
const SCALE_HINT: u64 = 16777216;

// 2^20 - 1: a larger hint adds 2^64 or more, which is above any sum.
const HINT_TOP: u64 = 1048575;

// Where the check stands: whether no coefficient decided, how many were read, and the sum of squares of those that passed.
#[derive(Clone, Copy)]
pub(crate) struct Standing {
    pub passed: bool,
    pub coefficients: usize,
    pub sum: u64,
}

// What the check tells: whether the fields pass, and how many coefficients it read.
#[repr(C)]
#[derive(Clone, Copy)]
pub struct Decision {
    pub passed: bool,
    pub coefficients: usize,
}

// A standing of its three parts.
fn standing_of(passed: bool, coefficients: usize, sum: u64) -> Standing
    ensures { result ≡ standing_of passed coefficients sum }
{
    Standing {
        passed,
        coefficients,
        sum,
    }
}

// One coefficient c more: is |c| within `limit`, and the sum with s * (|c| >> v)^2 not above `all`? The sum is compared before it is made.
fn count_in(c: i64, limit: u64, s: u64, v: usize, all: u64, t: Standing) -> Standing
    requires { (v < 64) × (limit / 2 ^ v < 2 ^ 32) × (square_of s v limit < 2 ^ 64) × (t.sum ≤ all) × (t.coefficients + 1 < 2 ^ 64) }
    ensures { result ≡ count_in limit s v all t c }
{
    let n = t.coefficients;
    let sum = t.sum;
    let m = c.unsigned_abs();
    let k = n + 1;
    if m <= limit {
        let x = m >> v;
        let y = s * (x * x);
        if y <= all - sum {
            return standing_of(true, k, sum + y);
        }
    }
    standing_of(false, k, sum)
}

// On from t, through one list, to the first coefficient that decides.
fn measure(cs: &[i64], limit: u64, s: u64, v: usize, all: u64, t: Standing) -> Standing
    requires v_bound { (v < 64) × (limit / 2 ^ v < 2 ^ 32) × (square_of s v limit < 2 ^ 64) }
    requires sum_le_all { (t.sum ≤ all) × (t.coefficients + length cs.now < 2 ^ 64) }
    ensures { result ≡ measured limit s v all t cs.now }
{
    let mut r = t;
    for &c in cs {
        if !r.passed {
            return r;
        }
        r = count_in(c, limit, s, v, all, r);
    }
    r
}

// Lines 3 to 7, with the hint's limit, B_inf and 2^-64 B_2^2, for any numbers.
pub fn check_bounds(
    hint: &[i64],
    response: &[i64],
    hint_limit: u64,
    binf: u64,
    b22: u64,
) -> Decision
    ensures { result ≡ decided hint_limit binf b22 hint.now response.now }
{
    let limit = hint_limit.min(HINT_TOP);
    let h = measure(hint, limit, SCALE_HINT, 0, b22, standing_of(true, 0, 0));
    let z = measure(response, binf, 1, 32, b22, h);
    Decision {
        passed: z.passed,
        coefficients: z.coefficients,
    }
}
