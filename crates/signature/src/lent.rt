// What a call is lent in either of two forms: a key, and the noise that its attempts draw on.
ghost use Rattle.std.specs.Prelude.{◌≡◌, length};
ghost use Rattle.signature.specs.AttemptSteps.{key_bytes};
ghost use Rattle.signature.specs.ExpandSteps.{part_bytes};

use crate::row::Row;

// A signing key, or an expanded key (01: opened key).
#[derive(Clone, Copy)]
pub(crate) enum LentKey<'a> {
    Signing(&'a [u8]),
    Expanded { bytes: &'a [u8], words: &'a [u64] },
}

// The noise of all attempts: seeds (01: noise tape), or explicit words (01: bench form).
#[derive(Clone, Copy)]
pub(crate) enum NoiseTape<'a> {
    Seeds(&'a [u8]),
    Words(&'a [u64]),
}

// What all attempts draw on (01: tapes): noise, and the mask seeds.
#[derive(Clone, Copy)]
pub(crate) struct LentCoins<'a> {
    pub noise: NoiseTape<'a>,
    pub masks: &'a [u8],
}

// What stands in a signing key behind the public key (000, 2.5.4): share seeds and full share.
#[derive(Clone, Copy)]
pub(crate) struct SharePart<'a> {
    pub row: Row,
    pub bytes: &'a [u8],
    ghost sized: { length bytes.now ≡ part_bytes row.p },
}

// The bytes of a key of either form, the public key in front.
pub(crate) fn key_bytes<'a>(key: LentKey<'a>) -> &'a [u8]
    ensures { result.now ≡ key_bytes key.entry }
{
    match key {
        LentKey::Signing(bytes) => bytes,
        LentKey::Expanded { bytes, words: _ } => bytes,
    }
}
