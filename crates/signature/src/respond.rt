// The response of one attempt (000, Algorithm 2, lines 12 to 16) on the work buffer, laid out as specs/Layout.antt says.
ghost use Rattle.std.specs.Prelude.{◌≡◌, ◌+◌, ◌*◌, ◌≤◌, length};
ghost use Rattle.ring.specs.Words.{q, add_w, Below, Words};
ghost use Rattle.ring.specs.Transform.{intt, pointwise};
ghost use Rattle.sharing.specs.Blocks.{build, totals};
ghost use Rattle.sharing.specs.Region.{span, Wrote};
ghost use Rattle.signature.specs.AttemptSteps.{response_share, Renewed, Responded};
ghost use Rattle.signature.specs.Layout.{at_x};
ghost use Rattle.signature.specs.Sign.{masked_response};

use crate::layout::{at_r, at_s, at_x};
use crate::row::Row;
use crate::vector::map_vector;
use hash::params::Params;
use ring::poly::{add, intt, ntt, pointwise};
use sharing::encoding::refresh_vector;
use sharing::masks::MaskGen;
use sharing::region::{load, store_at};
use sharing::shares::decode_at;

// Line 14 at one share: that of s at a, that of r at b; c is the transform of the challenge.
fn respond_share(s: &[u64], a: usize, b: usize, c: [u64; 512]) -> [u64; 512]
    requires { (a + 512 ≤ length s.now) × (b + 512 ≤ length s.now) × Below q s.now × Words 512 c }
    ensures { (result ≡ add_w (intt (pointwise c (span s.now a 512))) (span s.now b 512)) × Words 512 result }
{
    let x = load(s, a);
    let y = load(s, b);
    let m = pointwise(c, x);
    let p = intt(m);
    add(p, y)
}

// .. at the d shares of one polynomial, in place of those of r.
fn respond_at(s: &mut [u64], a: usize, b: usize, c: [u64; 512], d: usize)
    requires { (a + d * 512 ≤ b) × (b + d * 512 ≤ length s.old) × Below q s.old × Words 512 c }
    ensures { Wrote 0 b (d * 512) (build d (response_share c (span s.old a (d * 512)) (span s.old b (d * 512))))
        s.old s.new }
{
    for j in 0..d {
        let e = b + j * 512;
        let p = respond_share(s, a + j * 512, e, c);
        store_at(s, e, &p);
    }
}

// .. at all l polynomials; c is the challenge.
fn respond_vector(s: &mut [u64], a: usize, b: usize, c: [u64; 512], l: usize, d: usize)
    requires { (a + l * (d * 512) ≤ b) × (b + l * (d * 512) ≤ length s.old) × Below q s.old × Words 512 c }
    ensures { Wrote 0 b (l * (d * 512))
        (masked_response d l c (span s.old a (l * (d * 512))) (span s.old b (l * (d * 512)))) s.old
        s.new }
{
    let t = ntt(c);
    for i in 0..l {
        let u = a + i * (d * 512);
        let v = b + i * (d * 512);
        respond_at(s, u, v, t, d);
    }
}

// Line 16: the sums of the l sharings at `at`, one behind the other from `to` on.
fn decode_vector(s: &mut [u64], at: usize, to: usize, p: Params)
    requires { (at + p.l * (p.shares * 512) ≤ to) × (to + p.l * 512 ≤ length s.old) × Below q s.old }
    ensures { Wrote 0 to (p.l * 512) (totals p.l p.shares (span s.old at (p.l * (p.shares * 512))))
        s.old s.new }
{
    let l = p.l;
    let d = p.shares;
    for i in 0..l {
        let a = at + i * (d * 512);
        let b = to + i * 512;
        decode_at(s, a, b, p);
    }
}

// Lines 12 and 13: s at a, in the transform domain; r at b, turned back from it.
fn refresh_both(s: &mut [u64], a: usize, b: usize, row: Row, g: MaskGen) -> MaskGen
    requires { (row.p.shares * 512 ≤ a) × (a + row.p.l * (row.p.shares * 512) ≤ b)
        × (b + row.p.l * (row.p.shares * 512) ≤ length s.old) × Below q s.old }
    ensures { Renewed row.p.l row.p.shares a b g result s.old s.new }
{
    let p = row.p;
    let l = p.l;
    let d = p.shares;
    let x = refresh_vector(s, a, l, p, g);
    map_vector(s, b, l * d, intt);
    refresh_vector(s, b, l, p, x)
}

// Lines 12 to 16 of the challenge polynomial c; g is the generator behind line 7. The generator behind line 15.
pub(crate) fn respond(work: &mut [u64], row: Row, c: [u64; 512], g: MaskGen) -> MaskGen
    requires { (at_x row.p.k row.p.l row.p.shares + row.p.l * 512 ≤ length work.old) × Below q work.old × Words 512 c }
    ensures { Responded row.p.k row.p.l row.p.shares c g result work.old work.new }
{
    let p = row.p;
    let l = p.l;
    let d = p.shares;
    let a = at_s(row);
    let b = at_r(row);
    let e = at_x(row);
    let x = refresh_both(work, a, b, row, g);
    respond_vector(work, a, b, c, l, d);
    let y = refresh_vector(work, b, l, p, x);
    decode_vector(work, b, e, p);
    y
}
