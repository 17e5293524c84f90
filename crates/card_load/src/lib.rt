// The card reader: a card into four lent tables (SCOPE 3.10 to 3.14).
#![tactic(auto)]

ghost use Rattle.std.specs.Prelude.{◌≡◌, ◌∷◌, [], ◌+◌, ◌*◌, ◌/◌, ◌<◌, ◌≤◌, length, drop};
ghost use Rattle.ground.specs.Refusals.{said_through, said_by, done_said};
ghost use Rattle.ground.specs.Lists.{filled, table_after};
ghost use Rattle.ground.specs.Words.{words};
ghost use Rattle.card_block.specs.Block.{block_size};
ghost use Rattle.card_load.specs.Card.{most_blocks, blocks, blocks_of, block_at, last_of_kind, blocks_rows, record_count, gather, octets, CountsFit};
ghost use Rattle.card_load.specs.Load.{fits, room_row, counted, said_of, load_said};

use ground::{Reason, Refusal};

// The octets in the longest card (SCOPE 3.1).
const MOST_CARD: usize = 65536;

// How many records of each kind were loaded.
#[derive(Clone, Copy, PartialEq, Eq)]
pub struct Counts {
    pub groups: usize,
    pub tracks: usize,
    pub segments: usize,
    pub text: usize,
}

// Whether block i of n is the last of its kind: the block behind it has another kind octet, or there is none (SCOPE 3.8).
fn last_of_kind(card: &[u8], n: usize, i: usize) -> bool
    requires block_size_in_bounds { n * block_size ≤ length card.now }
    requires i_lt_n { i < n }
    ensures { result ≡ last_of_kind (block_at card.now i) (drop (i + 1) (blocks n card.now)) }
{
    let own = i * card_block::BLOCK + 2;
    if i + 1 < n {
        let behind = own + card_block::BLOCK;
        return card[behind] != card[own];
    }
    true
}

// What is said of the first n blocks. The rules are asked block by block, so that the lowest bad block is named (SCOPE 3.12).
fn judge_blocks(card: &[u8], n: usize) -> Result<(), Refusal>
    requires { n * block_size ≤ length card.now }
    ensures { done_said result ≡ said_by (blocks_rows 0 1 (blocks n card.now)) }
{
    let mut least: u8 = 1;
    for i in 0..n {
        let a = i * card_block::BLOCK;
        let e = a + card_block::BLOCK;
        let b = &card[a..e];
        let last = last_of_kind(card, n, i);
        card_block::judge(b, i, least, last)?;
        least = b[2];
    }
    Ok(())
}

// How many records of a kind the first n blocks have.
fn record_count(card: &[u8], n: usize, kind: u8) -> usize
    requires block_size_in_bounds { n * block_size ≤ length card.now }
    requires n_le_most_blocks { n ≤ most_blocks }
    ensures { (result ≡ record_count kind (blocks n card.now)) × (result ≤ 8388608) }
{
    let mut sum: usize = 0;
    for i in 0..n {
        let a = i * card_block::BLOCK;
        let e = a + card_block::BLOCK;
        let b = &card[a..e];
        if b[2] == kind {
            sum += ground::half_at(b, 3);
        }
    }
    sum
}

// Writes the words of src, little endian, over dst.
fn copy_words(dst: &mut [u32], src: &[u8])
    requires { length dst.old ≡ length src.now / 4 }
    ensures { dst.new ≡ words src.now }
{
    for (i, word) in dst.iter_mut().enumerate() {
        *word = ground::word_at(src, i * 4);
    }
}

// Fills the front of dst with the words of the records of a kind in the first n blocks.
fn fill_words(dst: &mut [u32], card: &[u8], n: usize, kind: u8)
    requires block_size_in_bounds { n * block_size ≤ length card.now }
    requires counts_fit { CountsFit n card.now }
    requires card_in_bounds { length (gather words kind (blocks n card.now)) ≤ length dst.old }
    ensures { dst.new ≡ filled (gather words kind (blocks n card.now)) dst.old }
{
    let mut at: usize = 0;
    for i in 0..n {
        let a = i * card_block::BLOCK;
        let e = a + card_block::BLOCK;
        let b = &card[a..e];
        if b[2] == kind {
            let records = &b[card_block::HEAD..card_block::records_end(b)];
            let end = at + records.len() / 4;
            copy_words(&mut dst[at..end], records);
            at = end;
        }
    }
}

// Fills the front of dst with the octets of the records of a kind in the first n blocks.
fn fill_octets(dst: &mut [u8], card: &[u8], n: usize, kind: u8)
    requires block_size_in_bounds { n * block_size ≤ length card.now }
    requires counts_fit { CountsFit n card.now }
    requires card_in_bounds { length (gather octets kind (blocks n card.now)) ≤ length dst.old }
    ensures { dst.new ≡ filled (gather octets kind (blocks n card.now)) dst.old }
{
    let mut at: usize = 0;
    for i in 0..n {
        let a = i * card_block::BLOCK;
        let e = a + card_block::BLOCK;
        let b = &card[a..e];
        if b[2] == kind {
            let records = &b[card_block::HEAD..card_block::records_end(b)];
            let end = at + records.len();
            ground::copy(&mut dst[at..end], records);
            at = end;
        }
    }
}

// Whether a count is within its limit and within its table's room (SCOPE 3.13).
fn within(count: usize, limit: usize, room: usize) -> bool
    ensures { result ≡ fits count limit room }
{
    (count <= limit) & (count <= room)
}

// What is said where all blocks are right: 212, or the counts.
fn count(
    card: &[u8],
    n: usize,
    groups: usize,
    tracks: usize,
    segments: usize,
    text: usize,
) -> Result<Counts, Refusal>
    requires block_size_in_bounds { n * block_size ≤ length card.now }
    requires n_le_most_blocks { n ≤ most_blocks }
    ensures { said_of result ≡ said_through (room_row (blocks n card.now) groups tracks segments text ∷ []) (counted (blocks n card.now)) }
{
    let g = record_count(card, n, 1);
    let t = record_count(card, n, 2);
    let s = record_count(card, n, 3);
    let x = record_count(card, n, 4);
    let a = within(g, ground::MOST_GROUPS, groups / 3);
    let b = within(t, ground::MOST_TRACKS, tracks / 6);
    let c = within(s, ground::MOST_SEGMENTS, segments);
    let d = within(x, ground::MOST_TEXT, text);
    if a & b & c & d {
        let counts = Counts {
            groups: g,
            tracks: t,
            segments: s,
            text: x,
        };
        return Ok(counts);
    }
    Err(Refusal::from(Reason::NoRoom))
}

// What loading a card into tables of these lengths answers. It writes nothing.
fn survey(
    card: &[u8],
    groups: usize,
    tracks: usize,
    segments: usize,
    text: usize,
) -> Result<Counts, Refusal>
    ensures { said_of result ≡ load_said card.now groups tracks segments text }
{
    let len = card.len();
    if len % card_block::BLOCK != 0 {
        return Err(Refusal::from(Reason::BadCardLength));
    }
    if MOST_CARD < len {
        return Err(Refusal::from(Reason::BadCardLength));
    }
    let n = len / card_block::BLOCK;
    judge_blocks(card, n)?;
    count(card, n, groups, tracks, segments, text)
}

// Card load: fills the front of each lent table and answers the counts, or refuses and leaves the tables as they were.
pub fn load(
    card: &[u8],
    groups: &mut [u32],
    tracks: &mut [u32],
    segments: &mut [u32],
    text: &mut [u8],
) -> Result<Counts, Refusal>
    ensures result_value { said_of result ≡ load_said card.now (length groups.old) (length tracks.old) (length segments.old) (length text.old) }
    ensures groups_after { groups.new ≡ table_after (said_of result) (gather words 1 (blocks_of card.now)) groups.old }
    ensures tracks_after { tracks.new ≡ table_after (said_of result) (gather words 2 (blocks_of card.now)) tracks.old }
    ensures segments_after { segments.new ≡ table_after (said_of result) (gather words 3 (blocks_of card.now)) segments.old }
    ensures text_after { text.new ≡ table_after (said_of result) (gather octets 4 (blocks_of card.now)) text.old }
{
    let counts = survey(card, groups.len(), tracks.len(), segments.len(), text.len())?;
    let n = card.len() / card_block::BLOCK;
    fill_words(groups, card, n, 1);
    fill_words(tracks, card, n, 2);
    fill_words(segments, card, n, 3);
    fill_octets(text, card, n, 4);
    Ok(counts)
}
