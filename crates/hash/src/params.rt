// The parameter table: the three sets and six orders of Tables 2 to 4 of paper 000.
ghost use Rattle.std.specs.Prelude.{◌≡◌, ◌<◌};
ghost use Rattle.hash.specs.Lists.{other_than};
ghost use Rattle.hash.specs.Params.{set_index, order_index, row_at, params_of, lookup_of, refusal_of};

use crate::refusal::Refusal;

// Which text of Algorithms 9, 10, 14 and 15 a call follows: the printed one, or the one that gives the submission's response files.
#[derive(Clone, Copy)]
pub enum Edition {
    Printed,
    Kat,
}

// One column of Tables 2 to 4, with the hint's limit of Algorithm 4 and the edition beside it.
#[derive(Clone, Copy)]
pub struct Params {
    pub kappa: usize,
    pub shares: usize,
    pub k: usize,
    pub l: usize,
    pub omega: usize,
    pub b22: u64,
    pub binf: u64,
    pub hint_limit: u64,
    pub vk_bytes: usize,
    pub sk_bytes: usize,
    pub sig_bytes: usize,
    pub rep: usize,
    pub ut: usize,
    pub uw: usize,
    pub edition: Edition,
}

// Which of a look-up's two numbers is in no column (checks 1 and 2).
#[derive(Clone, Copy, Debug, PartialEq, Eq)]
pub enum Unknown {
    Set,
    Shares,
}

impl From<Unknown> for Refusal {
    ghost from_gives = { λ unknown refusal. refusal ≡ refusal_of unknown };

    fn from(unknown: Unknown) -> Refusal {
        match unknown {
            Unknown::Set => Refusal::BadSet,
            Unknown::Shares => Refusal::BadShareCount,
        }
    }
}

// Columns: kappa, d, k, l, omega, 2^-64 B_2^2, B_inf, hint limit, bytes of vk, sk and sig, rep, u_t, u_w.
const ROWS: [[u64; 14]; 18] = [
    [
        128,
        1,
        5,
        4,
        19,
        14656575897,
        41954689765971,
        2,
        2256,
        14800,
        11524,
        8,
        6,
        41,
    ],
    [
        128,
        2,
        5,
        4,
        19,
        14656575897,
        41954689765971,
        2,
        2256,
        14816,
        11524,
        4,
        6,
        41,
    ],
    [
        128,
        4,
        5,
        4,
        19,
        14656575897,
        41954689765971,
        2,
        2256,
        14848,
        11524,
        2,
        6,
        41,
    ],
    [
        128,
        8,
        5,
        4,
        19,
        14656575897,
        41954689765971,
        2,
        2256,
        14912,
        11524,
        4,
        5,
        40,
    ],
    [
        128,
        16,
        5,
        4,
        19,
        14656575897,
        41954689765971,
        2,
        2256,
        15040,
        11524,
        2,
        5,
        40,
    ],
    [
        128,
        32,
        5,
        4,
        19,
        14656575897,
        41954689765971,
        2,
        2256,
        15296,
        11524,
        4,
        4,
        39,
    ],
    [
        192,
        1,
        7,
        5,
        31,
        24964497408,
        47419426657048,
        3,
        3160,
        18840,
        14544,
        8,
        7,
        41,
    ],
    [
        192,
        2,
        7,
        5,
        31,
        24964497408,
        47419426657048,
        3,
        3160,
        18864,
        14544,
        4,
        7,
        41,
    ],
    [
        192,
        4,
        7,
        5,
        31,
        24964497408,
        47419426657048,
        3,
        3160,
        18912,
        14544,
        2,
        7,
        41,
    ],
    [
        192,
        8,
        7,
        5,
        31,
        24964497408,
        47419426657048,
        3,
        3160,
        19008,
        14544,
        4,
        6,
        40,
    ],
    [
        192,
        16,
        7,
        5,
        31,
        24964497408,
        47419426657048,
        3,
        3160,
        19200,
        14544,
        2,
        6,
        40,
    ],
    [
        192,
        32,
        7,
        5,
        31,
        24964497408,
        47419426657048,
        3,
        3160,
        19584,
        14544,
        4,
        5,
        39,
    ],
    [
        256,
        1,
        9,
        7,
        44,
        38439957299,
        50958538642039,
        3,
        4064,
        26016,
        20330,
        8,
        6,
        41,
    ],
    [
        256,
        2,
        9,
        7,
        44,
        38439957299,
        50958538642039,
        3,
        4064,
        26048,
        20330,
        4,
        6,
        41,
    ],
    [
        256,
        4,
        9,
        7,
        44,
        38439957299,
        50958538642039,
        3,
        4064,
        26112,
        20330,
        2,
        6,
        41,
    ],
    [
        256,
        8,
        9,
        7,
        44,
        38439957299,
        50958538642039,
        3,
        4064,
        26240,
        20330,
        4,
        5,
        40,
    ],
    [
        256,
        16,
        9,
        7,
        44,
        38439957299,
        50958538642039,
        3,
        4064,
        26496,
        20330,
        2,
        5,
        40,
    ],
    [
        256,
        32,
        9,
        7,
        44,
        38439957299,
        50958538642039,
        3,
        4064,
        27008,
        20330,
        4,
        4,
        39,
    ],
];

// The set's place in the table.
fn set_index(set: u64) -> Option<usize>
    ensures { result ≡ other_than 3 (set_index set) }
{
    match set {
        128 => Some(0),
        192 => Some(1),
        256 => Some(2),
        _ => None,
    }
}

// The share count's place among the six.
fn order_index(shares: u64) -> Option<usize>
    ensures { result ≡ other_than 6 (order_index shares) }
{
    match shares {
        1 => Some(0),
        2 => Some(1),
        4 => Some(2),
        8 => Some(3),
        16 => Some(4),
        32 => Some(5),
        _ => None,
    }
}

fn row_at(i: usize) -> [u64; 14]
    requires { i < 18 }
    ensures { result ≡ row_at i }
{
    let rows = ROWS;
    rows[i]
}

fn params_of(r: [u64; 14], edition: Edition) -> Params
    ensures { result ≡ params_of r edition }
{
    Params {
        kappa: r[0] as usize,
        shares: r[1] as usize,
        k: r[2] as usize,
        l: r[3] as usize,
        omega: r[4] as usize,
        b22: r[5],
        binf: r[6],
        hint_limit: r[7],
        vk_bytes: r[8] as usize,
        sk_bytes: r[9] as usize,
        sig_bytes: r[10] as usize,
        rep: r[11] as usize,
        ut: r[12] as usize,
        uw: r[13] as usize,
        edition,
    }
}

// The record of a set and a share count. Every call begins here.
#[tactic(auto, unfolding(crate::specs::Params::lookup_of))]
pub fn lookup(set: u64, shares: u64, edition: Edition) -> Result<Params, Unknown>
    ensures { result ≡ lookup_of set shares edition }
{
    let s = set_index(set).ok_or(Unknown::Set)?;
    let o = order_index(shares).ok_or(Unknown::Shares)?;
    Ok(params_of(row_at(6 * s + o), edition))
}
