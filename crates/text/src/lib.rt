// UTF-8 (SCOPE 2.5, 2.6): whether octets are text, and if not, where.
#![tactic(auto)]

ghost use Rattle.std.specs.Prelude.{◌≡◌, true, ◌&&◌, ℕ, ◌+◌, ◌<◌, ◌≤◌, length, get_or, drop, [], ◌∷◌};
ghost use Rattle.ground.specs.Cases.{pick, within};
ghost use Rattle.ground.specs.Refusals.{refused_with, refusal_of};
ghost use Rattle.text.specs.Utf8.{is_tail, char_of, char_length, text_of, is_fine, said_of, text_said};

use ground::{Reason, Refusal};

// Why octets are not text: the offset of the first one that does not start a whole valid character. All before it are whole valid characters.
#[derive(Clone, Copy, PartialEq, Eq)]
pub struct NotText {
    pub at: usize,
}

// As a name it is refused with 207, which carries the offset (SCOPE 20.4).
impl From<NotText> for Refusal {
    ghost from_gives = { λ e refusal. refusal_of refusal ≡ refused_with 207 (e.at ∷ []) };

    fn from(e: NotText) -> Refusal
        ensures { refusal_of result ≡ refused_with 207 (e.at ∷ []) }
    {
        Reason::BadName.at(e.at)
    }
}

fn is_within(low: u8, high: u8, x: u8) -> bool
    ensures { result ≡ within low high x }
{
    (low <= x) & (x <= high)
}

// 3 where the second and the third octet of a character are right, else 0.
fn three(low: u8, high: u8, b: u8, c: u8) -> usize
    ensures { result ≡ pick (within low high b && is_tail c) 3 0 }
{
    if is_within(low, high, b) & is_within(0x80, 0xBF, c) {
        return 3;
    }
    0
}

// 4 where the second to the fourth octet of a character are right, else 0.
fn four(low: u8, high: u8, b: u8, c: u8, d: u8) -> usize
    ensures { result ≡ pick (within low high b && is_tail c && is_tail d) 4 0 }
{
    if is_within(low, high, b) & is_within(0x80, 0xBF, c) & is_within(0x80, 0xBF, d) {
        return 4;
    }
    0
}

// A character of three octets, whose first is within E0..EF.
fn char_of_three(a: u8, b: u8, c: u8) -> usize
    requires { (0xE0 ≤ a) × (a ≤ 0xEF) }
    ensures { (d : ℕ) → result ≡ char_of a b c d }
{
    if a == 0xE0 {
        return three(0xA0, 0xBF, b, c);
    }
    if a == 0xED {
        return three(0x80, 0x9F, b, c);
    }
    three(0x80, 0xBF, b, c)
}

// A character of four octets, whose first is within F0..F4.
fn char_of_four(a: u8, b: u8, c: u8, d: u8) -> usize
    requires { (0xF0 ≤ a) × (a ≤ 0xF4) }
    ensures { result ≡ char_of a b c d }
{
    if a == 0xF0 {
        return four(0x90, 0xBF, b, c, d);
    }
    if a == 0xF4 {
        return four(0x80, 0x8F, b, c, d);
    }
    four(0x80, 0xBF, b, c, d)
}

// How many octets the character has that starts at a place; 0 where none starts there. No octet is read that the first one does not ask for.
fn char_at(s: &[u8], at: usize) -> usize
    requires { at < length s.now }
    ensures value { result ≡ char_length (drop at s.now) }
    ensures result_in_bounds { at + result ≤ length s.now }
{
    let a = s[at];
    if a <= 0x7F {
        return 1;
    }
    if a <= 0xC1 {
        return 0;
    }
    if 0xF4 < a {
        return 0;
    }
    let b = ground::at_or(s, at + 1, 0);
    if a <= 0xDF {
        if is_within(0x80, 0xBF, b) {
            return 2;
        }
        return 0;
    }
    let c = ground::at_or(s, at + 2, 0);
    if a <= 0xEF {
        return char_of_three(a, b, c);
    }
    let d = ground::at_or(s, at + 3, 0);
    char_of_four(a, b, c, d)
}

// A number that no octet exceeds. The loop is never left early, so that it becomes vector code.
fn bits_of(s: &[u8]) -> u8
    ensures { (i : ℕ) → i < length s.now → get_or s.now i 0 ≤ result }
{
    let mut bits: u8 = 0;
    for x in s {
        bits |= *x;
    }
    bits
}

// How many octets of a long text are looked at before the rest.
const FRONT: usize = 64;

// Whether no octet is above 0x7F, so that every part of the octets is text. Where the front shows that this is not so, the rest is not looked at. On a chip
// without vector code that rest costs as much as a third of a scan.
pub fn is_plain(s: &[u8]) -> bool
    ensures { result ≡ true → (i : ℕ) → i < length s.now → get_or s.now i 0 ≤ 0x7F }
{
    if FRONT <= s.len() {
        if 0x7F < bits_of(&s[0..FRONT]) {
            return false;
        }
    }
    bits_of(s) <= 0x7F
}

// A number that none of the eight octets from a place on exceeds. They are read together, as one word.
fn eight_bits(s: &[u8], at: usize) -> u8
    requires { at + 8 ≤ length s.now }
    ensures { (i : ℕ) → at ≤ i → i < at + 8 → get_or s.now i 0 ≤ result }
{
    s[at] | s[at + 1] | s[at + 2] | s[at + 3] | s[at + 4] | s[at + 5] | s[at + 6] | s[at + 7]
}

// A place from which on no octet is above 0x7F. It is looked for from the end, eight octets at a time.
fn plain_from(s: &[u8]) -> usize
    ensures upper_bound { result ≤ length s.now }
    ensures by_index { (i : ℕ) → result ≤ i → i < length s.now → get_or s.now i 0 ≤ 0x7F }
{
    for k in 0..s.len() / 8 {
        let end = s.len() - k * 8;
        if 0x7F < eight_bits(s, end - 8) {
            return end;
        }
    }
    s.len() % 8
}

// Goes character by character, up to where all that is left is plain.
fn scan(s: &[u8]) -> Result<(), NotText>
    ensures { result ≡ text_of s.now }
{
    let end = plain_from(s);
    let mut i = 0;
    // Stays a while: a turn goes on by the length of a character, so that no counter runs by one; an iterator of characters would be a type of its own, and no plainer.
    while i < end {
        let n = char_at(s, i);
        if n == 0 {
            return Err(NotText { at: i });
        }
        i += n;
    }
    Ok(())
}

// Whether s is UTF-8, and if not, where (SCOPE 2.6). That a long text is plain ASCII is found out by one loop; a short text is scanned at once.
pub fn check(s: &[u8]) -> Result<(), NotText>
    ensures { said_of result ≡ text_said s.now }
{
    if s.len() < 32 {
        return scan(s);
    }
    if is_plain(s) {
        return Ok(());
    }
    scan(s)
}

pub fn is_text(s: &[u8]) -> bool
    ensures { result ≡ is_fine (text_of s.now) }
{
    check(s).is_ok()
}
