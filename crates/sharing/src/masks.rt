// The mask generator (01: masking generator): polynomials of masking words from the stream of SHAKE256 of a seed, read as those of the matrix are,
// for zero encodings (000, Algorithm 12).
ghost use Rattle.std.specs.Prelude.{◌≡◌, false, ◌+◌, ◌*◌, ◌/◌, ◌%◌, ◌^◌, ◌<◌, ◌≤◌, get_or, length};
ghost use Rattle.hash.specs.Keccak.{lanes};
ghost use Rattle.sharing.specs.declared.masks.Neighbours.{Neighbours};
ghost use Rattle.sharing.specs.Masks.{held_at, mask_draw, mask_moved, mask_start, drawn, flagged, mask_poly, mask_next};

use ring::poly::Q;

// A state of SHAKE256, its lanes in the order of FIPS 202, 3.1.2; the place of the next draw, a byte of its block; and whether no polynomial ran dry.
#[derive(Clone, Copy)]
pub struct MaskGen {
    pub lanes: [u64; 25],
    pub at: usize,
    pub ok: bool,
}

// A draw, and the generator behind it.
#[derive(Clone, Copy)]
pub struct Drawn {
    pub word: u64,
    pub next: MaskGen,
}

// Two lanes, one behind the other.
#[derive(Clone, Copy)]
pub struct Neighbours {
    pub low: u64,
    pub high: u64,
}

// Lanes as five planes.
fn planes(l: [u64; 25]) -> [[u64; 5]; 5]
    ensures { result ≡ lanes (λ x y. get_or l (5 * y + x) 0) }
{
    [
        [l[0], l[1], l[2], l[3], l[4]],
        [l[5], l[6], l[7], l[8], l[9]],
        [l[10], l[11], l[12], l[13], l[14]],
        [l[15], l[16], l[17], l[18], l[19]],
        [l[20], l[21], l[22], l[23], l[24]],
    ]
}

// The generator at a place of a state's block.
fn hold(s: [[u64; 5]; 5], at: usize, ok: bool) -> MaskGen
    ensures { result ≡ held_at s at ok }
{
    let a = s[0];
    let b = s[1];
    let c = s[2];
    let d = s[3];
    let e = s[4];
    MaskGen {
        lanes: [
            a[0], a[1], a[2], a[3], a[4], b[0], b[1], b[2], b[3], b[4], c[0], c[1], c[2], c[3],
            c[4], d[0], d[1], d[2], d[3], d[4], e[0], e[1], e[2], e[3], e[4],
        ],
        at,
        ok,
    }
}

// The generator of a seed.
pub fn start(seed: &[u8]) -> MaskGen
    ensures { result ≡ mask_start seed.now }
{
    let s = hash::shake::absorb(hash::shake::start(), 0, seed);
    hold(hash::shake::finish(s, seed.len()), 0, true)
}

// The same generator, its place below 136.
fn settled(g: MaskGen) -> MaskGen
    ensures { result ≡ mask_moved 0 g }
{
    MaskGen {
        at: g.at.min(135),
        ..g
    }
}

// Lanes k and k + 1. No index here is computed, so that the compiler holds lanes and not an array, which it would copy for each draw. The last arm
// is met by no k.
fn lanes_from(l: [u64; 25], k: usize) -> Neighbours
    requires { k ≤ 16 }
    ensures { result ≡ record { low = get_or l k 0; high = get_or l (k + 1) 0 } }
{
    match k {
        0 => Neighbours {
            low: l[0],
            high: l[1],
        },
        1 => Neighbours {
            low: l[1],
            high: l[2],
        },
        2 => Neighbours {
            low: l[2],
            high: l[3],
        },
        3 => Neighbours {
            low: l[3],
            high: l[4],
        },
        4 => Neighbours {
            low: l[4],
            high: l[5],
        },
        5 => Neighbours {
            low: l[5],
            high: l[6],
        },
        6 => Neighbours {
            low: l[6],
            high: l[7],
        },
        7 => Neighbours {
            low: l[7],
            high: l[8],
        },
        8 => Neighbours {
            low: l[8],
            high: l[9],
        },
        9 => Neighbours {
            low: l[9],
            high: l[10],
        },
        10 => Neighbours {
            low: l[10],
            high: l[11],
        },
        11 => Neighbours {
            low: l[11],
            high: l[12],
        },
        12 => Neighbours {
            low: l[12],
            high: l[13],
        },
        13 => Neighbours {
            low: l[13],
            high: l[14],
        },
        14 => Neighbours {
            low: l[14],
            high: l[15],
        },
        15 => Neighbours {
            low: l[15],
            high: l[16],
        },
        16 => Neighbours {
            low: l[16],
            high: l[17],
        },
        _ => Neighbours { low: 0, high: 0 },
    }
}

// The 49 bits from byte r on of two lanes. With an or it would be compiled to one shift over both, which is slower on some processors.
fn draw_bits(x: u64, y: u64, r: usize) -> u64
    requires { r < 8 }
    ensures { result ≡ (x + y * 2 ^ 64) / 2 ^ (8 * r) % 2 ^ 49 }
{
    let s = 8 * r;
    (x >> s ^ y << 1 << (63 - s)) % 0x2_0000_0000_0000
}

// A draw, on values: the seven bytes at the place; with the last bytes of a block the next block.
fn step(g: MaskGen) -> Drawn
    ensures { result ≡ drawn g }
{
    let l = g.lanes;
    let place = g.at;
    if place < 129 {
        let n = lanes_from(l, place / 8);
        let word = draw_bits(n.low, n.high, place % 8);
        return Drawn {
            word,
            next: MaskGen { at: place + 7, ..g },
        };
    }
    let at = place.min(135);
    let s = hash::keccak::permute(planes(l));
    let word = draw_bits(l[16], s[0][0], at % 8);
    Drawn {
        word,
        next: hold(s, at - 129, g.ok),
    }
}

// A draw: the generator is lent, and moved on. It has one caller, so that it is compiled into fill.
pub fn draw(g: &mut MaskGen) -> u64
    ensures { (result ≡ mask_draw g.old) × (g.new ≡ mask_moved 1 g.old) }
{
    let x = step(*g);
    *g = x.next;
    x.word
}

// The generator, dry.
fn dried(g: MaskGen) -> MaskGen
    ensures { result ≡ flagged false g }
{
    MaskGen { ok: false, ..g }
}

// The next polynomial into p, and the generator behind it: draws below q until there are 512, at most 777 draws. Else p is zero and the generator
// dry. A draw is put where the next word goes, and one of q or more is written over: so no jump hangs on it.
pub fn fill(p: &mut [u64], g: MaskGen) -> MaskGen
    requires { length p.old ≡ 512 }
    ensures { (p.new ≡ mask_poly g) × (result ≡ mask_next g) }
{
    if !g.ok {
        p.fill(0);
        return g;
    }
    let mut h = settled(g);
    let mut k: usize = 0;
    for _ in 0..777usize {
        let w = draw(&mut h);
        p[k] = w;
        if w < Q {
            k += 1;
        }
        if k == 512 {
            return h;
        }
    }
    p.fill(0);
    dried(h)
}
