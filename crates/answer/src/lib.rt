// What every reader, writer and ruling refuses with: the refusals of document 01 by name, each with its number, and the place of
// one. specs/Refusal.antt has the same names for the definitions.
#![tactic(auto)]

ghost use Rattle.std.specs.Prelude.{◌≡◌};
ghost use Rattle.answer.specs.Refusal.{number_of};

use std::error::Error;
use std::fmt;

// A refusal of document 01 ("Numbers of the reader and writer", "The use ruling", "The enrolment ruling") or of the C interface.
#[derive(Clone, Copy, Debug, PartialEq, Eq)]
pub enum Refusal {
    // Over the limit of bytes; place 0.
    TooLong = 1,
    // An element is missing at the top, or identifier, length or content runs out of its holder.
    RunsOut = 2,
    // Identifier against the rules.
    BadIdentifier = 3,
    // Length against the rules.
    BadLength = 4,
    // One level deeper than allowed.
    TooDeep = 5,
    // One element more than allowed.
    TooManyElements = 6,
    // Bytes after the outermost element; place is the first spare byte.
    SpareBytes = 7,
    // Version unknown.
    UnknownVersion = 8,
    // Wrong, missing or extra element; place is its start, or the holder's end if missing.
    WrongElement = 9,
    // INTEGER, ENUMERATED, BOOLEAN or NULL content wrong or above its top.
    BadContent = 10,
    // Field number not in this version.
    NotInVersion = 11,
    // Field number not above the one before.
    FieldOrder = 12,
    // Set member not above the one before.
    MemberOrder = 13,
    // 17th set member.
    TooManyMembers = 14,
    // Record not well-shaped, or an octet part outside its buffer; place 0.
    IllShaped = 20,
    // The output is shorter than what is to be written; place 0.
    OutputShort = 21,
    // The encoding has over 8,192 bytes; place 0.
    EncodingTooLong = 22,

    // The use ruling; place 0.
    // The purpose is not DECRYPT, SIGN, AGREE_KEY or ATTEST_KEY.
    PurposeUnknown = 30,
    // The purpose is not allowed.
    PurposeNotAllowed = 31,
    // The algorithm is absent, the lists disagree, or it does not go with the purpose.
    AlgorithmUnfit = 32,
    // The padding does not go with the use, or is not allowed.
    PaddingNotAllowed = 33,
    // The digest does not go with the padding, or is not allowed.
    DigestNotAllowed = 34,
    // The key size is absent or too small for the digest.
    KeyTooSmall = 35,
    // A date applies and the clock is below its floor.
    ClockBelowFloor = 36,
    // The clock is before the active date.
    NotYetActive = 37,
    // The clock is after the expiry date that applies.
    Expired = 38,
    // Neither 503 nor 504 is present.
    NoAuthRule = 39,
    // 504 asks for a token: there is none, or its type shares no bit.
    TokenUnfit = 40,
    // The token is too old, from the future, or for another operation.
    TokenNotFresh = 41,
    // The key asks for an unlocked device.
    DeviceLocked = 42,
    // The key asks for presence.
    UserNotPresent = 43,
    // The key asks for confirmation.
    NotConfirmed = 44,
    // The key is for early boot alone.
    EarlyBootOver = 45,
    // The uses so far have reached the limit.
    UsedUp = 46,

    // The enrolment ruling; place 0.
    // The expected challenge is not 1 to 128 bytes, or not the one attested.
    ChallengeDiffers = 50,
    // Either security level is Software.
    SoftwareLevel = 51,
    // The hardware list has no 704.
    NoRootOfTrust = 52,
    // The device is not locked.
    BootUnlocked = 53,
    // The boot state is not Verified.
    BootNotVerified = 54,
    // The origin in the hardware list is absent or not 0.
    OriginNotGenerated = 55,

    // The C interface; place 0.
    // A lent image, request, permit or part has too few words.
    ShortImage = 200,
}

impl Refusal {
    // The number that document 01 gives it.
    pub fn number(self) -> u8
        ensures { result ≡ number_of self }
    {
        self as u8
    }
}

// A refusal and its place.
#[derive(Clone, Copy, Debug, PartialEq, Eq)]
pub struct Refused(pub Refusal, pub usize);

// A refusal that has no place of its own stands at 0.
impl From<Refusal> for Refused {
    ghost from_gives = { λ refusal r. r ≡ record { 0 = refusal; 1 = 0 } };

    fn from(refusal: Refusal) -> Refused {
        Refused(refusal, 0)
    }
}

impl fmt::Display for Refused {
    fn fmt<W: fmt::Write>(&self, f: &mut fmt::Formatter<W>) -> fmt::Result {
        let number = self.0.number();
        let place = self.1;
        write!(f, "refused {number} at {place}")
    }
}

impl Error for Refused {}
