// The numbered refusals of a call (01, "Questions put to a call"; 02, #101 and #105): each is the number of the question that was answered with no.
ghost use Rattle.std.specs.Prelude.{◌≡◌};
ghost use Rattle.hash.specs.Refusal.{number_of, status_of};

// The questions, in the order of their numbers.
#[derive(Clone, Copy, Debug, PartialEq, Eq)]
pub enum Refusal {
    BadSet = 1,
    BadShareCount,
    BadKeyLength,
    BadPublicKey,
    BadShareWords,
    BadAttempts,
    BadSeeds,
    BadBuffer,
    BadMessageLength,
    UniformNotFilled,
    ChallengeNotFilled,
    NoAttemptPassed,
    BadSignatureLength,
    BadSignatureForm,
    BadSignatureBounds,
    BadSignatureHash,
    BadSlipMark,
    BadSlipVersion,
    BadSlipLength,
    MasksNotFilled,
}

impl Refusal {
    // Its number.
    pub fn number(self) -> u32
        ensures { result ≡ number_of self }
    {
        self as u32
    }
}

// The status that C is told: 0, or the number of the refusal.
pub fn status(answer: Result<(), Refusal>) -> u32
    ensures { result ≡ status_of answer }
{
    match answer {
        Ok(()) => 0,
        Err(refusal) => refusal.number(),
    }
}
