// The digest of a key's public key (02, #102): of a signing key computed, of an expanded key as it stands behind the public key.
ghost use Rattle.std.specs.Prelude.{◌≡◌, length};
ghost use Rattle.signature.specs.AttemptSteps.{key_lent, BytesHeld};
ghost use Rattle.signature.specs.ExpandedKey.{expanded_bytes};
ghost use Rattle.signature.specs.Form.{hash_bytes};
ghost use Rattle.signature.specs.Keys.{digest_of, with_digest};

use crate::lent::{LentKey, key_bytes};
use crate::row::Row;
use hash::params::Params;
use hash::shake::shake256;
use ring::poly::copy_into;

// The digest into out.
pub(crate) fn digest_into(p: Params, key: LentKey, out: &mut [u8])
    requires { BytesHeld p key × (length out.old ≡ hash_bytes p) }
    ensures { out.new ≡ digest_of p (key_lent key.entry) }
{
    let e = p.vk_bytes;
    match key {
        LentKey::Signing(bytes) => shake256(&bytes[0..e], out),
        LentKey::Expanded { bytes, words: _ } => copy_into(out, &bytes[e..]),
    }
}

// The bytes of an expanded key into out: the public key, and behind it the digest.
pub(crate) fn put_bytes(row: Row, key: LentKey, out: &mut [u8])
    requires bytes_held { BytesHeld row.p key }
    requires out_len { length out.old ≡ expanded_bytes row.p }
    ensures { out.new ≡ with_digest row.p (key_lent key.entry) }
{
    let p = row.p;
    let e = p.vk_bytes;
    let b = p.kappa / 4;
    let n = e + b;
    let bytes = key_bytes(key);
    copy_into(&mut out[..e], &bytes[..e]);
    digest_into(p, key, &mut out[e..n]);
}
