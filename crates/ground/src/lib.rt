// Numbers out of octets and into them (SCOPE 2.1, 2.2), the limits of a catalogue (SCOPE 4.2), and refusals (SCOPE 20).
#![tactic(auto)]

ghost use Rattle.std.specs.Prelude.{◌≡◌, ◌+◌, ◌<◌, ◌≤◌, length, get_or, ◌∷◌, []};
ghost use Rattle.ground.specs.Cases.{has};
ghost use Rattle.ground.specs.Lists.{laid};
ghost use Rattle.ground.specs.Refusals.{refused, refused_with, number_of, refusal_of};
ghost use Rattle.ground.specs.Words.{half_of, half_at, word_of, word_at, octets_of_word, six_octets, six_at};

pub const MOST_GROUPS: usize = 64;

pub const MOST_TRACKS: usize = 256;

pub const MOST_SEGMENTS: usize = 1024;

pub const MOST_TEXT: usize = 32768;

pub const MOST_DURATION: u32 = 8640000;

pub const MOST_TITLE: usize = 128;

pub const LEAST_OUTPUT: usize = 128;

// Why a call is refused: the rows of the table of SCOPE 20.2, in its order.
#[derive(Clone, Copy, PartialEq, Eq)]
pub enum Reason {
    BadCatalogue,
    BadRenames,
    SmallOutput,
    BadState,
    NoClient,
    NoService,
    NotConnected,
    AlreadyConnected,
    BadMtu,
    NoCharacteristic,
    NoSlot,
    NotReadable,
    NotWritable,
    NotEncrypted,
    ValueChanged,
    BeyondEnd,
    BadLength,
    NotAllowed,
    TooManyResults,
    BadName,
    BadGroup,
    BadCardLength,
    BadCheck,
    BadBlockNumber,
    BadKind,
    BadCount,
    NotFull,
    BadPadding,
    NoRoom,
    NoCardRoom,
    BadEntries,
    NoObjectRoom,
    LongSheet,
    BadLine,
    NotRising,
    ManyStarts,
}

// The number of a reason (SCOPE 20.2).
impl From<Reason> for u32 {
    ghost from_gives = { λ reason number. number ≡ number_of reason };

    fn from(reason: Reason) -> u32
        ensures { result ≡ number_of reason }
    {
        match reason {
            Reason::BadCatalogue => 200,
            Reason::BadRenames => 224,
            Reason::SmallOutput => 205,
            Reason::BadState => 201,
            Reason::NoClient => 202,
            Reason::NoService => 219,
            Reason::NotConnected => 203,
            Reason::AlreadyConnected => 204,
            Reason::BadMtu => 206,
            Reason::NoCharacteristic => 0x01,
            Reason::NoSlot => 209,
            Reason::NotReadable => 0x02,
            Reason::NotWritable => 0x03,
            Reason::NotEncrypted => 0x0F,
            Reason::ValueChanged => 0x80,
            Reason::BeyondEnd => 0x07,
            Reason::BadLength => 0x0D,
            Reason::NotAllowed => 0x13,
            Reason::TooManyResults => 0x11,
            Reason::BadName => 207,
            Reason::BadGroup => 208,
            Reason::BadCardLength => 210,
            Reason::BadCheck => 211,
            Reason::BadBlockNumber => 215,
            Reason::BadKind => 216,
            Reason::BadCount => 217,
            Reason::NotFull => 214,
            Reason::BadPadding => 218,
            Reason::NoRoom => 212,
            Reason::NoCardRoom => 213,
            Reason::BadEntries => 222,
            Reason::NoObjectRoom => 223,
            Reason::LongSheet => 225,
            Reason::BadLine => 226,
            Reason::NotRising => 227,
            Reason::ManyStarts => 228,
        }
    }
}

// What a refusal carries besides its number (SCOPE 20.4).
#[derive(Clone, Copy, PartialEq, Eq)]
pub enum Carried {
    Nothing,
    One(usize),
    Two(usize, usize),
}

#[derive(Clone, Copy, PartialEq, Eq)]
pub struct Refusal {
    pub reason: Reason,
    pub carried: Carried,
}

// A refusal that carries nothing.
impl From<Reason> for Refusal {
    ghost from_gives = { λ reason refusal. refusal_of refusal ≡ refused (number_of reason) };

    fn from(reason: Reason) -> Refusal
        ensures { refusal_of result ≡ refused (number_of reason) }
    {
        Refusal {
            reason: reason,
            carried: Carried::Nothing,
        }
    }
}

impl Reason {
    // A refusal that carries a number besides.
    pub fn at(self, place: usize) -> Refusal
        ensures { refusal_of result ≡ refused_with (number_of self) (place ∷ []) }
    {
        Refusal {
            reason: self,
            carried: Carried::One(place),
        }
    }

    // A refusal that carries two numbers besides.
    pub fn at_both(self, first: usize, second: usize) -> Refusal
        ensures { refusal_of result ≡ refused_with (number_of self) (first ∷ second ∷ []) }
    {
        Refusal {
            reason: self,
            carried: Carried::Two(first, second),
        }
    }
}

pub fn wide_octet(x: u8) -> u32
    ensures { (result ≡ x) × (result < 256) }
{
    u32::from(x)
}

pub fn wide_word(x: u32) -> usize
    ensures { (result ≡ x) × (result < 4294967296) }
{
    x as usize
}

// Two octets, little endian.
pub fn half_of(a: u8, b: u8) -> usize
    ensures { (result ≡ half_of a b) × (result < 65536) }
{
    usize::from(u16::from_le_bytes([a, b]))
}

// The little endian half word that starts at a place.
pub fn half_at(s: &[u8], at: usize) -> usize
    requires { at + 2 ≤ length s.now }
    ensures { (result ≡ half_at s.now at) × (result < 65536) }
{
    half_of(s[at], s[at + 1])
}

// Four octets, little endian.
pub fn word_of(a: u8, b: u8, c: u8, d: u8) -> u32
    ensures { result ≡ word_of a b c d }
{
    u32::from_le_bytes([a, b, c, d])
}

// The little endian word that starts at a place.
pub fn word_at(s: &[u8], at: usize) -> u32
    requires { at + 4 ≤ length s.now }
    ensures { result ≡ word_at s.now at }
{
    word_of(s[at], s[at + 1], s[at + 2], s[at + 3])
}

// Copies the elements of one slice over another of the same length. The library's copy_from_slice asks of two addresses whether the slices lie apart, and moves
// octets by memmove: the library for C asks for no addresses, and on a chip they would have another size (docs/ASSUMPTIONS.md).
pub fn copy<T: Copy>(to: &mut [T], from: &[T])
    requires { length to.old ≡ length from.now }
    ensures len { length to.new ≡ length to.old }
    ensures after { to.new ≡ from.now }
{
    for (i, place) in to.iter_mut().enumerate() {
        *place = from[i];
    }
}

// A word, little endian, over b from a place on.
pub fn put_word(b: &mut [u8], at: usize, w: u32)
    requires { at + 4 ≤ length b.old }
    ensures { b.new ≡ laid b.old at (octets_of_word w) }
{
    copy(&mut b[at..at + 4], &w.to_le_bytes());
}

// The six octets of a number of 48 bits, little endian (SCOPE 7.1).
pub fn six_octets(n: usize) -> [u8; 6]
    ensures { result ≡ six_octets n }
{
    let [a, b, c, d, e, f, _, _] = n.to_le_bytes();
    [a, b, c, d, e, f]
}

// The little endian number of 48 bits that starts at a place.
pub fn six_at(s: &[u8], at: usize) -> usize
    requires { at + 6 ≤ length s.now }
    ensures { (result ≡ six_at s.now at) × (result < 281474976710656) }
{
    let low = wide_word(word_at(s, at));
    let high = half_at(s, at + 4);
    low + high * 4294967296
}

// The element at a place, or another value behind the end. The library's get would hand back a reference that may be missing, which on a chip lies elsewhere
// (docs/ASSUMPTIONS.md).
pub fn at_or<T: Copy>(s: &[T], at: usize, default: T) -> T
    ensures { result ≡ get_or s.now at default }
{
    if at < s.len() {
        return s[at];
    }
    default
}

// The octet at a place, or 0 behind the end.
pub fn octet_or_zero(s: &[u8], at: usize) -> u8
    ensures { result ≡ get_or s.now at 0 }
{
    at_or(s, at, 0)
}

// Whether a bit of a word is set.
pub fn has_bit(w: u32, s: u32) -> bool
    requires { s < 32 }
    ensures { result ≡ has w s }
{
    (w >> s) & 1 == 1
}
