// A block of a card: its head, its check octets and its rules (SCOPE 3.2 to 3.9, 3.12).
#![tactic(auto)]

ghost use Rattle.std.specs.Prelude.{◌≡◌, ◌∷◌, [], ◌+◌, ◌*◌, ◌<◌, ◌≤◌, length};
ghost use Rattle.ground.specs.Refusals.{said_by, done_said};
ghost use Rattle.card_block.specs.Sums.{sum_of, running_sums, sums_of};
ghost use Rattle.card_block.specs.Block.{block_size, head_size, summed, kind_of, count_of, record_size, most_records, records_end, all_zero, check_rule, number_rule, kind_rule, count_rule, full_rule, padding_rule, block_rows};

use ground::{Reason, Refusal};

// The octets in a block, in its head, and in head and records; behind those stand the two check octets.
pub const BLOCK: usize = 512;

pub const HEAD: usize = 5;

const SUMMED: usize = 510;

const RUNNING_SUM: usize = 511;

const LAST_KIND: u8 = 4;

#[derive(Clone, Copy)]
pub struct CheckSums {
    pub plain: u32,
    pub running: u32,
}

// The octets in a half of what is summed.
const HALF: usize = 255;

// What an octet adds to the sum of the running sums of a half. A weight is at most 255, so that the product fits in 16 bits and a vector holds more of them.
fn weighed(weight: u16, octet: u8) -> u32
    requires { weight ≤ 255 }
    ensures { result ≡ weight * octet }
{
    let product = weight * (octet as u16);
    product as u32
}

// The sum of a half, and the sum of its running sums. Octet i of 255 is part of 255 − i running sums. Summed by these weights, the loop becomes vector code.
fn half_sums(s: &[u8]) -> CheckSums
    requires { length s.now ≡ 255 }
    ensures { (result.plain ≡ sum_of s.now) × (result.running ≡ sum_of (running_sums 0 s.now)) }
{
    let mut plain: u32 = 0;
    let mut running: u32 = 0;
    let mut weight: u16 = 255;
    for octet in s {
        plain += ground::wide_octet(*octet);
        running += weighed(weight, *octet);
        weight -= 1;
    }
    CheckSums {
        plain: plain,
        running: running,
    }
}

// Both check octets (SCOPE 3.4): summed plainly, and the remainder of each sum taken at the end. The running sums of the second half go on from the sum of the
// first.
pub fn sums(s: &[u8]) -> CheckSums
    requires { length s.now ≡ summed }
    ensures { result ≡ sums_of s.now }
{
    let first = half_sums(&s[0..HALF]);
    let second = half_sums(&s[HALF..SUMMED]);
    let plain = first.plain + second.plain;
    let running = first.running + 255 * first.plain + second.running;
    CheckSums {
        plain: plain % 255,
        running: running % 255,
    }
}

// The octets in a record of a kind (SCOPE 3.3).
pub fn record_size(kind: u8) -> usize
    ensures { result ≡ record_size kind }
{
    match kind {
        1 => 12,
        2 => 24,
        3 => 4,
        _ => 1,
    }
}

// The most records in a block of a kind (SCOPE 3.3).
pub fn most_records(kind: u8) -> usize
    ensures { result ≡ most_records kind }
{
    match kind {
        1 => 42,
        2 => 21,
        3 => 126,
        _ => 505,
    }
}

// The loop is never left early, so that it becomes vector code.
pub fn all_zero(s: &[u8]) -> bool
    ensures { result ≡ all_zero s.now }
{
    let mut good = true;
    for x in s {
        good = good & (*x == 0);
    }
    good
}

fn check_right(b: &[u8]) -> bool
    requires { length b.now ≡ block_size }
    ensures { result ≡ check_rule b.now }
{
    let s = sums(&b[0..SUMMED]);
    let plain = ground::wide_octet(b[SUMMED]);
    let running = ground::wide_octet(b[RUNNING_SUM]);
    (plain == s.plain) & (running == s.running)
}

fn number_right(b: &[u8], number: usize) -> bool
    requires { length b.now ≡ block_size }
    ensures { result ≡ number_rule number b.now }
{
    let written = ground::half_at(b, 0);
    written == number
}

fn kind_right(b: &[u8], least: u8) -> bool
    requires { length b.now ≡ block_size }
    ensures { result ≡ kind_rule least b.now }
{
    let kind = b[2];
    (least <= kind) & (kind <= LAST_KIND)
}

fn count_right(b: &[u8]) -> bool
    requires { length b.now ≡ block_size }
    ensures { result ≡ count_rule b.now }
{
    let count = ground::half_at(b, 3);
    let most = most_records(b[2]);
    (1 <= count) & (count <= most)
}

// Where the records of a block end.
pub fn records_end(b: &[u8]) -> usize
    requires b_len { length b.now ≡ block_size }
    requires b_bound { count_of b.now ≤ most_records (kind_of b.now) }
    ensures { (result ≡ records_end b.now) × (head_size ≤ result) × (result ≤ summed) }
{
    let count = ground::half_at(b, 3);
    let size = record_size(b[2]);
    HEAD + count * size
}

fn padding_right(b: &[u8]) -> bool
    requires b_len { length b.now ≡ block_size }
    requires b_bound { count_of b.now ≤ most_records (kind_of b.now) }
    ensures { result ≡ padding_rule b.now }
{
    let end = records_end(b);
    all_zero(&b[end..SUMMED])
}

// A block that is not the last of its kind has to be full (SCOPE 3.8).
fn full_right(b: &[u8], last: bool) -> bool
    requires { length b.now ≡ block_size }
    ensures { result ≡ full_rule last b.now }
{
    let count = ground::half_at(b, 3);
    let most = most_records(b[2]);
    last | (count == most)
}

// What is said of a block: the first rule that it breaks, in the order of SCOPE 3.12. `number` is its place on the card, `least` the kind of the block before
// it, 1 for the first block; `last` says whether it is the last of its kind.
pub fn judge(b: &[u8], number: usize, least: u8, last: bool) -> Result<(), Refusal>
    requires { length b.now ≡ block_size }
    ensures { done_said result ≡ said_by (block_rows number least last b.now) }
{
    if !check_right(b) {
        return Err(Reason::BadCheck.at(number));
    }
    if !number_right(b, number) {
        return Err(Reason::BadBlockNumber.at(number));
    }
    if !kind_right(b, least) {
        return Err(Reason::BadKind.at(number));
    }
    if !count_right(b) {
        return Err(Reason::BadCount.at(number));
    }
    if !full_right(b, last) {
        return Err(Reason::NotFull.at(number));
    }
    if !padding_right(b) {
        return Err(Reason::BadPadding.at(number));
    }
    Ok(())
}
