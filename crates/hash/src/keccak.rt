// Keccak-f[1600], FIPS 202 section 3. A state is five planes of five lanes: a[y][x] is the lane (x, y).
ghost use Rattle.std.specs.Prelude.{◌≡◌, ℕ, suc, ◌<◌};
ghost use Rattle.hash.specs.Keccak.{State, lane, rotl, theta, chi, rho, pi, iota, round, keccak_f, xor_plane, chi_plane, effect, parity};
ghost use Rattle.hash.specs.Moves.{ahead, move_numbers, move_lane, Moving};

// A lane rotated by n places toward the high end, n taken modulo 64.
fn rotl(x: u64, n: u32) -> u64
    ensures { result ≡ rotl x n }
{
    x.rotate_left(n)
}

// Two planes, lane by lane.
fn xor_plane(p: [u64; 5], q: [u64; 5]) -> [u64; 5]
    ensures { result ≡ xor_plane p q }
{
    [
        p[0] ^ q[0],
        p[1] ^ q[1],
        p[2] ^ q[2],
        p[3] ^ q[3],
        p[4] ^ q[4],
    ]
}

// 3.2.4 within a plane.
fn chi_plane(p: [u64; 5]) -> [u64; 5]
    ensures { result ≡ chi_plane p }
{
    [
        p[0] ^ (!p[1] & p[2]),
        p[1] ^ (!p[2] & p[3]),
        p[2] ^ (!p[3] & p[4]),
        p[3] ^ (!p[4] & p[0]),
        p[4] ^ (!p[0] & p[1]),
    ]
}

// 3.2.4, chi.
fn chi(a: [[u64; 5]; 5]) -> [[u64; 5]; 5]
    ensures { result ≡ chi a }
{
    [
        chi_plane(a[0]),
        chi_plane(a[1]),
        chi_plane(a[2]),
        chi_plane(a[3]),
        chi_plane(a[4]),
    ]
}

// 3.2.1, step 2: D of the column parities C.
fn effect(c: [u64; 5]) -> [u64; 5]
    ensures { result ≡ effect c }
{
    [
        c[4] ^ rotl(c[1], 1),
        c[0] ^ rotl(c[2], 1),
        c[1] ^ rotl(c[3], 1),
        c[2] ^ rotl(c[4], 1),
        c[3] ^ rotl(c[0], 1),
    ]
}

// 3.2.1, step 1: C, the parities of the columns.
fn parity(a: [[u64; 5]; 5]) -> [u64; 5]
    ensures { result ≡ parity a }
{
    xor_plane(
        xor_plane(xor_plane(xor_plane(a[0], a[1]), a[2]), a[3]),
        a[4],
    )
}

// 3.2.1, theta.
fn theta(a: [[u64; 5]; 5]) -> [[u64; 5]; 5]
    ensures { result ≡ theta a }
{
    let d = effect(parity(a));
    [
        xor_plane(a[0], d),
        xor_plane(a[1], d),
        xor_plane(a[2], d),
        xor_plane(a[3], d),
        xor_plane(a[4], d),
    ]
}

// 3.2.2, table 2, modulo 64: row y has the offsets of the lanes (0, y) to (4, y).
const OFFSETS: [[u32; 5]; 5] = [
    [0, 1, 62, 28, 27],
    [36, 44, 6, 55, 20],
    [3, 10, 43, 25, 39],
    [41, 45, 15, 21, 8],
    [18, 2, 61, 56, 14],
];

// The move of the lane (x, y), held in spare: rotated by its offset (rho) it goes to its place (pi), and spare takes up what stood there.
fn move_lane(mut s: [[u64; 5]; 5], spare: &mut u64, x: usize, y: usize) -> [[u64; 5]; 5]
    requires x_bound { x < 5 }
    requires y_bound { y < 5 }
    ensures value { (result ≡ move_lane s x y spare.old) × (spare.new ≡ lane s y (ahead x y)) }
    ensures moving { (A : State) (i : ℕ)
        → lane move_numbers x y ≡ i
        → Moving A i x y s spare.old
        → Moving A (suc i) y (ahead x y) result spare.new }
{
    let to = (2 * x + 3 * y) % 5;
    let offset = OFFSETS[y][x];
    let moved = rotl(*spare, offset);
    *spare = s[to][y];
    s[to][y] = moved;
    s
}

// 3.2.2 and 3.2.3, rho and then pi, inside the state: 24 moves along the walk of algorithm 2, which pi goes too, with one spare lane.
// They stand in a straight line, since a loop over them would keep the lanes in memory.
fn rho_pi(a: [[u64; 5]; 5]) -> [[u64; 5]; 5]
    ensures { result ≡ pi (rho a) }
{
    let mut spare = a[0][1];
    let s = move_lane(a, &mut spare, 1, 0);
    let s = move_lane(s, &mut spare, 0, 2);
    let s = move_lane(s, &mut spare, 2, 1);
    let s = move_lane(s, &mut spare, 1, 2);
    let s = move_lane(s, &mut spare, 2, 3);
    let s = move_lane(s, &mut spare, 3, 3);
    let s = move_lane(s, &mut spare, 3, 0);
    let s = move_lane(s, &mut spare, 0, 1);
    let s = move_lane(s, &mut spare, 1, 3);
    let s = move_lane(s, &mut spare, 3, 1);
    let s = move_lane(s, &mut spare, 1, 4);
    let s = move_lane(s, &mut spare, 4, 4);
    let s = move_lane(s, &mut spare, 4, 0);
    let s = move_lane(s, &mut spare, 0, 3);
    let s = move_lane(s, &mut spare, 3, 4);
    let s = move_lane(s, &mut spare, 4, 3);
    let s = move_lane(s, &mut spare, 3, 2);
    let s = move_lane(s, &mut spare, 2, 2);
    let s = move_lane(s, &mut spare, 2, 0);
    let s = move_lane(s, &mut spare, 0, 4);
    let s = move_lane(s, &mut spare, 4, 2);
    let s = move_lane(s, &mut spare, 2, 4);
    let s = move_lane(s, &mut spare, 4, 1);
    let s = move_lane(s, &mut spare, 1, 1);
    s
}

// 3.2.5, iota, with the round constant rc.
fn iota(a: [[u64; 5]; 5], rc: u64) -> [[u64; 5]; 5]
    ensures { result ≡ iota rc a }
{
    let mut b = a;
    b[0][0] ^= rc;
    b
}

// Two rounds, by their constants. One function with one caller, so that both are compiled into the loop and the lanes stay in registers.
fn rounds_two(a: [[u64; 5]; 5], rc: u64, rd: u64) -> [[u64; 5]; 5]
    ensures { result ≡ round rd (round rc a) }
{
    let b = iota(chi(rho_pi(theta(a))), rc);
    iota(chi(rho_pi(theta(b))), rd)
}

// 3.2.5: the constants of the 24 rounds.
const CONSTANTS: [u64; 24] = [
    0x0000000000000001,
    0x0000000000008082,
    0x800000000000808a,
    0x8000000080008000,
    0x000000000000808b,
    0x0000000080000001,
    0x8000000080008081,
    0x8000000000008009,
    0x000000000000008a,
    0x0000000000000088,
    0x0000000080008009,
    0x000000008000000a,
    0x000000008000808b,
    0x800000000000008b,
    0x8000000000008089,
    0x8000000000008003,
    0x8000000000008002,
    0x8000000000000080,
    0x000000000000800a,
    0x800000008000000a,
    0x8000000080008081,
    0x8000000000008080,
    0x0000000080000001,
    0x8000000080008008,
];

// 3.3 and 3.4: the permutation, 24 rounds.
pub fn permute(a: [[u64; 5]; 5]) -> [[u64; 5]; 5]
    ensures { result ≡ keccak_f a }
{
    let constants = CONSTANTS;
    let mut s = a;
    for i in 0..12 {
        let t = rounds_two(s, constants[2 * i], constants[2 * i + 1]);
        s = t;
    }
    s
}
