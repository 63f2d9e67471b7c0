// The lengths that a signing call takes (01: checks 7 and 8), which can be asked beforehand (02, #103).
ghost use Rattle.std.specs.Prelude.{◌≡◌, ◌≤◌};
ghost use Rattle.signature.specs.Checks.{noise_seed_bytes, mask_seed_bytes, work_words};
ghost use Rattle.signature.specs.Table.{Tabled};

use hash::params::Params;

// The noise seeds of n attempts.
pub fn noise_seed_bytes(p: Params, n: usize) -> usize
    requires { Tabled p × (n ≤ 16) }
    ensures { result ≡ noise_seed_bytes p n }
{
    let c = (p.l + p.k) * p.shares;
    n * (c * p.rep * (p.kappa / 8))
}

// The mask seeds of n attempts.
pub fn mask_seed_bytes(n: usize) -> usize
    requires { n ≤ 16 }
    ensures { result ≡ mask_seed_bytes n }
{
    n * 32
}

// The words of the work buffer: 512 (2 l d + 4 d + 2 k + 8).
pub fn work_words(p: Params) -> usize
    requires { Tabled p }
    ensures { result ≡ work_words p }
{
    512 * (2 * p.l * p.shares + 4 * p.shares + 2 * p.k + 8)
}
