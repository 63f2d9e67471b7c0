// The unit's calls for C: one export for each call of paper 01 and of the requests of paper 02, with the contract of the function behind it.
#![tactic(auto)]

ghost use Rattle.std.specs.Prelude.{◌≡◌, ◌≤◌};
ghost use Rattle.hash.specs.declared.params.Edition.{Edition};
ghost use Rattle.ring.specs.Uniform.{sampled_of};
ghost use Rattle.signature.specs.Challenge.{sampled_challenge};
ghost use Rattle.signature.specs.ExpandedKey.{expanded_in};
ghost use Rattle.signature.specs.KeyCalls.{keygen_call, expand_call, refresh_call};
ghost use Rattle.signature.specs.Outcome.{outcome, signing};
ghost use Rattle.signature.specs.Sign.{from_seeds, from_noise};
ghost use Rattle.signature.specs.SignCalls.{packed, expanded, sign_call};
ghost use Rattle.signature.specs.Verify.{verify_call};
ghost use Rattle.sizes.specs.Count.{signature_bits_call};
ghost use Rattle.sizes.specs.Lengths.{lengths_call};
ghost use Rattle.slip.specs.Calls.{read_slip_call, write_slip_call};
ghost use Rattle.slip.specs.Format.{slip_of};

use hash::refusal::status;
use signature::sign::Signed;
use sizes::count::CountedBits;
use sizes::lengths::SigningLengths;
use slip::read::ReadSlip;

// Key generation (01: key making): checks 1, 2, 7, 8, 10 and 20.
#[unsafe(no_mangle)]
pub extern "C" fn raccoon_keygen(
    set: u32,
    shares: u32,
    seeds: &[u8],
    mask_seed: &[u8],
    key_out: &mut [u8],
    work: &mut [u64],
) -> u32
    ensures { outcome result key_out.new work.new
        ≡ keygen_call Edition.Printed set shares seeds.now mask_seed.now key_out.old
        work.old }
{
    status(signature::keygen::keygen(
        set as u64,
        shares as u64,
        hash::params::Edition::Printed,
        seeds,
        mask_seed,
        key_out,
        work,
    ))
}

// The same with the headers of the response files.
#[unsafe(no_mangle)]
pub extern "C" fn raccoon_kat_keygen(
    set: u32,
    shares: u32,
    seeds: &[u8],
    mask_seed: &[u8],
    key_out: &mut [u8],
    work: &mut [u64],
) -> u32
    ensures { outcome result key_out.new work.new
        ≡ keygen_call Edition.Kat set shares seeds.now mask_seed.now key_out.old work.old }
{
    status(signature::keygen::keygen(
        set as u64,
        shares as u64,
        hash::params::Edition::Kat,
        seeds,
        mask_seed,
        key_out,
        work,
    ))
}

// Expanding a signing key (01: opening): checks 1, 2, 3, 4, 5, 8 and 10.
#[unsafe(no_mangle)]
pub extern "C" fn raccoon_expand_key(
    set: u32,
    shares: u32,
    key: &[u8],
    bytes_out: &mut [u8],
    words_out: &mut [u64],
) -> u32
    ensures { outcome result bytes_out.new words_out.new
        ≡ expand_call Edition.Printed set shares key.now bytes_out.old words_out.old }
{
    status(signature::keys::expand_key(
        set as u64,
        shares as u64,
        hash::params::Edition::Printed,
        key,
        bytes_out,
        words_out,
    ))
}

// The same for a key of the response files.
#[unsafe(no_mangle)]
pub extern "C" fn raccoon_kat_expand_key(
    set: u32,
    shares: u32,
    key: &[u8],
    bytes_out: &mut [u8],
    words_out: &mut [u64],
) -> u32
    ensures { outcome result bytes_out.new words_out.new
        ≡ expand_call Edition.Kat set shares key.now bytes_out.old words_out.old }
{
    status(signature::keys::expand_key(
        set as u64,
        shares as u64,
        hash::params::Edition::Kat,
        key,
        bytes_out,
        words_out,
    ))
}

// A new sharing of an expanded key (01: refreshing): checks 1 to 5, 7, 8 and 20.
#[unsafe(no_mangle)]
pub extern "C" fn raccoon_refresh_key(
    set: u32,
    shares: u32,
    bytes: &[u8],
    words: &[u64],
    mask_seed: &[u8],
    bytes_out: &mut [u8],
    words_out: &mut [u64],
) -> u32
    ensures { outcome result bytes_out.new words_out.new
        ≡ refresh_call set shares (expanded_in bytes.now words.now) mask_seed.now
        bytes_out.old words_out.old }
{
    status(signature::keys::refresh_key(
        set as u64,
        shares as u64,
        bytes,
        words,
        mask_seed,
        bytes_out,
        words_out,
    ))
}

// Signing with a signing key, from noise seeds: checks 1 to 10, 11 and 20 within each attempt, 12. Status and attempts.
#[unsafe(no_mangle)]
pub extern "C" fn raccoon_sign(
    set: u32,
    shares: u32,
    attempts: u32,
    key: &[u8],
    message: &[u8],
    noise_seeds: &[u8],
    mask_seeds: &[u8],
    signature_out: &mut [u8],
    work: &mut [u64],
) -> Signed
    ensures { signing result.status result.attempts signature_out.new work.new
        ≡ sign_call Edition.Printed set shares (packed key.now) attempts message.now
        (from_seeds noise_seeds.now mask_seeds.now) signature_out.old work.old }
{
    let answer = signature::sign::sign(
        set as u64,
        shares as u64,
        hash::params::Edition::Printed,
        attempts as u64,
        key,
        message,
        noise_seeds,
        mask_seeds,
        signature_out,
        work,
    );
    answer
}

// The same in the edition of the response files.
#[unsafe(no_mangle)]
pub extern "C" fn raccoon_kat_sign(
    set: u32,
    shares: u32,
    attempts: u32,
    key: &[u8],
    message: &[u8],
    noise_seeds: &[u8],
    mask_seeds: &[u8],
    signature_out: &mut [u8],
    work: &mut [u64],
) -> Signed
    ensures { signing result.status result.attempts signature_out.new work.new
        ≡ sign_call Edition.Kat set shares (packed key.now) attempts message.now
        (from_seeds noise_seeds.now mask_seeds.now) signature_out.old work.old }
{
    signature::sign::sign(
        set as u64,
        shares as u64,
        hash::params::Edition::Kat,
        attempts as u64,
        key,
        message,
        noise_seeds,
        mask_seeds,
        signature_out,
        work,
    )
}

// With an expanded key (01: opened key).
#[unsafe(no_mangle)]
pub extern "C" fn raccoon_sign_expanded(
    set: u32,
    shares: u32,
    attempts: u32,
    bytes: &[u8],
    words: &[u64],
    message: &[u8],
    noise_seeds: &[u8],
    mask_seeds: &[u8],
    signature_out: &mut [u8],
    work: &mut [u64],
) -> Signed
    ensures { signing result.status result.attempts signature_out.new work.new
        ≡ sign_call Edition.Printed set shares (expanded (expanded_in bytes.now words.now)) attempts
        message.now (from_seeds noise_seeds.now mask_seeds.now) signature_out.old
        work.old }
{
    signature::sign::sign_expanded(
        set as u64,
        shares as u64,
        hash::params::Edition::Printed,
        attempts as u64,
        bytes,
        words,
        message,
        noise_seeds,
        mask_seeds,
        signature_out,
        work,
    )
}

// With a signing key and explicit noise (01: bench form).
#[unsafe(no_mangle)]
pub extern "C" fn raccoon_sign_explicit(
    set: u32,
    shares: u32,
    attempts: u32,
    key: &[u8],
    message: &[u8],
    noise_words: &[u64],
    mask_seeds: &[u8],
    signature_out: &mut [u8],
    work: &mut [u64],
) -> Signed
    ensures { signing result.status result.attempts signature_out.new work.new
        ≡ sign_call Edition.Printed set shares (packed key.now) attempts message.now
        (from_noise noise_words.now mask_seeds.now) signature_out.old work.old }
{
    signature::sign::sign_explicit(
        set as u64,
        shares as u64,
        hash::params::Edition::Printed,
        attempts as u64,
        key,
        message,
        noise_words,
        mask_seeds,
        signature_out,
        work,
    )
}

// With an expanded key and explicit noise.
#[unsafe(no_mangle)]
pub extern "C" fn raccoon_sign_expanded_explicit(
    set: u32,
    shares: u32,
    attempts: u32,
    bytes: &[u8],
    words: &[u64],
    message: &[u8],
    noise_words: &[u64],
    mask_seeds: &[u8],
    signature_out: &mut [u8],
    work: &mut [u64],
) -> Signed
    ensures { signing result.status result.attempts signature_out.new work.new
        ≡ sign_call Edition.Printed set shares (expanded (expanded_in bytes.now words.now)) attempts
        message.now (from_noise noise_words.now mask_seeds.now) signature_out.old
        work.old }
{
    signature::sign::sign_expanded_explicit(
        set as u64,
        shares as u64,
        hash::params::Edition::Printed,
        attempts as u64,
        bytes,
        words,
        message,
        noise_words,
        mask_seeds,
        signature_out,
        work,
    )
}

// Verifying: checks 1, 3, 4, 9, 13, 14, 15, 10, 11 and 16.
#[unsafe(no_mangle)]
pub extern "C" fn raccoon_verify(
    set: u32,
    public_key: &[u8],
    message: &[u8],
    signature: &[u8],
) -> u32
    ensures { result ≡ verify_call Edition.Printed set public_key.now message.now signature.now }
{
    let verdict = signature::verify::verify(
        set as u64,
        hash::params::Edition::Printed,
        public_key,
        message,
        signature,
    );
    status(verdict)
}

// The same for a signature of the response files.
#[unsafe(no_mangle)]
pub extern "C" fn raccoon_kat_verify(
    set: u32,
    public_key: &[u8],
    message: &[u8],
    signature: &[u8],
) -> u32
    ensures { result ≡ verify_call Edition.Kat set public_key.now message.now signature.now }
{
    status(signature::verify::verify(
        set as u64,
        hash::params::Edition::Kat,
        public_key,
        message,
        signature,
    ))
}

// The uniform sampler over lent bytes: checks 8 and 10.
#[unsafe(no_mangle)]
pub extern "C" fn raccoon_sample_uniform(bytes: &[u8], words_out: &mut [u64]) -> u32
    ensures { (result, words_out.new) ≡ sampled_of bytes.now words_out.old }
{
    status(ring::uniform::sample_uniform(bytes, words_out))
}

// The challenge sampler over lent bytes: checks 1, 8 and 11.
#[unsafe(no_mangle)]
pub extern "C" fn raccoon_sample_challenge(
    set: u32,
    bytes: &[u8],
    signed_bytes_out: &mut [i8],
) -> u32
    ensures { (result, signed_bytes_out.new) ≡ sampled_challenge set bytes.now signed_bytes_out.old }
{
    status(signature::challenge::sample_challenge(set as u64, bytes, signed_bytes_out))
}

// What a signing call takes (02, #103): checks 1, 2 and 6. Status, bytes of noise seeds and mask seeds, words of the work buffer.
#[unsafe(no_mangle)]
pub extern "C" fn raccoon_lengths(set: u32, shares: u32, attempts: u32) -> SigningLengths
    ensures { result ≡ lengths_call set shares attempts }
{
    sizes::lengths::lengths(set as u64, shares as u64, attempts as u64)
}

// How many bits the fields of a signature take (02, #103): checks 1 and 13. Status and bits.
#[unsafe(no_mangle)]
pub extern "C" fn raccoon_signature_bits(set: u32, hint: &[i8], response: &[i64]) -> CountedBits
    ensures value { result ≡ signature_bits_call set hint.now response.now }
    ensures bits_bound { result.bits ≤ 30065521152 }
{
    sizes::count::signature_bits(set as u64, hint, response)
}

// Reading a slip (02, #101): checks 17, 18 and 19, then those of verifying. Status and fields, text and signature by place.
#[unsafe(no_mangle)]
pub extern "C" fn raccoon_read_slip(public_key: &[u8], slip: &[u8]) -> ReadSlip
    ensures { result ≡ read_slip_call public_key.now slip.now }
{
    slip::read::read_slip(public_key, slip)
}

// Writing a slip (02, #101): checks 19 and 8.
#[unsafe(no_mangle)]
pub extern "C" fn raccoon_write_slip(
    movement: u16,
    track: u8,
    text: &[u8],
    signature: &[u8],
    slip_out: &mut [u8],
) -> u32
    ensures { (result, slip_out.new)
        ≡ write_slip_call (slip_of movement track text.now signature.now) slip_out.old }
{
    status(slip::write::write_slip(movement, track, text, signature, slip_out))
}
