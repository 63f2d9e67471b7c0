// One attempt behind its commitment, up to its response (000, Algorithm 2, lines 9 to 16), on the work buffer, laid out as specs/Layout.antt says.
ghost use Rattle.std.specs.Prelude.{◌≡◌, List, ◌++◌, ℕ, ◌+◌, ◌*◌, ◌/◌, ◌≤◌, ◌<◌, length};
ghost use Rattle.hash.specs.Shake.{shake256};
ghost use Rattle.ring.specs.Words.{q, Below};
ghost use Rattle.ring.specs.UniformSteps.{option_of};
ghost use Rattle.ring.specs.Round.{round_w};
ghost use Rattle.sharing.specs.Region.{span, Wrote};
ghost use Rattle.sharing.specs.declared.masks.MaskGen.{MaskGen};
ghost use Rattle.signature.specs.AttemptSteps.{Committed, Answered};
ghost use Rattle.signature.specs.Challenge.{headed, ordered, challenge};
ghost use Rattle.signature.specs.Checks.{work_words};
ghost use Rattle.signature.specs.Masked.{Noise};

use crate::challenge::{chal_hash, chal_poly};
use crate::layout::at_t;
use crate::respond::respond;
use crate::row::Row;
use crate::vector::map_vector;
use hash::params::Edition;
use ring::poly::{from_signed, round};
use sharing::masks::MaskGen;

// What lines 9 to 16 answer: the challenge polynomial, if it fills (check 11), and whether every mask drawn so far did (check 20).
#[derive(Drop)]
pub(crate) struct Reply {
    pub challenge: Option<[i8; 512]>,
    pub full: bool,
}

// Words below 256 as bytes.
fn to_bytes(words: &[u64], out: &mut [u8])
    requires { (length out.old ≡ length words.now) × Below 256 words.now }
    ensures { out.new ≡ words.now }
{
    for (i, &x) in words.iter().enumerate() {
        out[i] = x as u8;
    }
}

// Line 10: of the k rounded polynomials at `at`, a byte for each coefficient, and mu.
fn hash_at(s: &[u64], at: usize, k: usize, edition: Edition, mu: &[u8], hash: &mut [u8])
    requires { (at + k * 512 ≤ length s.now) × (k ≤ 9) × Below 31 (span s.now at (k * 512)) }
    ensures { hash.new
        ≡ shake256 (headed 104 k ++ ordered edition (span s.now at (k * 512)) mu.now) (length hash.old) }
{
    let n = k * 512;
    let e = at + n;
    let mut w = [0u8; 4608];
    to_bytes(&s[at..e], &mut w[0..n]);
    chal_hash(k, edition, &w[0..n], mu, hash);
}

// Lines 9 to 11: w, at `at`, is rounded where it is.
fn challenge_at(
    s: &mut [u64],
    at: usize,
    k: usize,
    omega: usize,
    edition: Edition,
    mu: &[u8],
    hash: &mut [u8],
) -> Option<[i8; 512]>
    requires { (at + k * 512 ≤ length s.old) × Below q s.old × (k ≤ 9) × (omega < 256) }
    ensures { Wrote 0 at (k * 512) (round_w (span s.old at (k * 512))) s.old s.new
        × (hash.new ≡ shake256
        (headed 104 k ++ ordered edition (round_w (span s.old at (k * 512))) mu.now) (length hash.old))
        × (result ≡ option_of (challenge edition omega (shake256 (headed 99 omega ++ hash.new) 2176))) }
{
    map_vector(s, at, k, round::<44, 31>);
    hash_at(s, at, k, edition, mu, hash);
    chal_poly(omega, edition, hash)
}

// Lines 9 to 16, behind the commitment; g is the generator behind line 7. Where the challenge does not fill (check 11) there is no response.
pub(crate) fn answer(work: &mut [u64], row: Row, mu: &[u8], hash: &mut [u8], g: MaskGen) -> Reply
    requires { (length work.old ≡ work_words row.p) × Below q work.old × (length hash.old ≡ row.p.kappa / 4) }
    ensures work_len_unchanged { (length work.new ≡ length work.old) × Below q work.new }
    ensures answered { (N : Noise) (h : MaskGen) (A s : List ℕ)
        → Committed row.p N h A s g work.old
        → Answered row.p N h A mu.now s result hash.new work.new }
{
    let p = row.p;
    let k = p.k;
    let w = p.omega;
    let edition = p.edition;
    let at = at_t(row);
    let c = challenge_at(work, at, k, w, edition, mu, hash);
    let Some(f) = c else {
        return Reply {
            challenge: None,
            full: g.ok,
        };
    };
    let y = respond(work, row, from_signed(f), g);
    Reply {
        challenge: Some(f),
        full: y.ok,
    }
}
