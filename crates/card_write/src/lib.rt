// The card writer: a catalogue into a lent card, block by block (SCOPE 3.15 to 3.17).
#![tactic(auto)]

ghost use Rattle.std.specs.Prelude.{◌≡◌, [], ◌∷◌, min, ◌+◌, ◌*◌, ◌<◌, ◌≤◌, length};
ghost use Rattle.ground.specs.Refusals.{granted, said_through, count_said};
ghost use Rattle.ground.specs.Lists.{laid, table_after};
ghost use Rattle.ground.specs.Limits.{most_groups, most_tracks, most_segments, most_text, group_words, track_words};
ghost use Rattle.card_block.specs.Block.{block_size};
ghost use Rattle.catalogue_tables.specs.Tables.{tables};
ghost use Rattle.card_write.specs.Card.{words_take, octets_take, word_blocks, text_blocks, joined, blocks_taken, card_of};
ghost use Rattle.card_write.specs.Write.{room_row, write_said};

use ground::{Reason, Refusal};

// The words in a full block of records, and the octets in a full block of text (SCOPE 3.3).
const FULL_WORDS: usize = 126;

const FULL_TEXT: usize = 505;

// Writes the blocks of a kind for a table of words, from block `first` on; so many words as `unit` says make a record. The bounds on the length and the number
// are wide, and keep the block numbers within their two octets.
fn write_words(card: &mut [u8], first: usize, kind: u8, unit: usize, src: &[u32])
    requires le_unit { 1 ≤ unit }
    requires src_len_bound { length src.now ≤ 32768 }
    requires first_bound { first ≤ 1000 }
    requires block_size_in_bounds { (first + words_take (length src.now)) * block_size ≤ length card.old }
    ensures { card.new ≡ laid card.old (first * block_size) (joined (word_blocks kind unit first src.now)) }
{
    let n = (src.len() + 125) / FULL_WORDS;
    for i in 0..n {
        let from = i * FULL_WORDS;
        let m = FULL_WORDS.min(src.len() - from);
        let b = card_fill::words_block(first + i, kind, m / unit, src, from, m);
        card_fill::put_block(card, first + i, &b);
    }
}

// Writes the blocks of a text, from block `first` on.
fn write_text(card: &mut [u8], first: usize, src: &[u8])
    requires src_len_bound { length src.now ≤ 32768 }
    requires first_bound { first ≤ 1000 }
    requires block_size_in_bounds { (first + octets_take (length src.now)) * block_size ≤ length card.old }
    ensures { card.new ≡ laid card.old (first * block_size) (joined (text_blocks first src.now)) }
{
    let n = (src.len() + 504) / FULL_TEXT;
    for i in 0..n {
        let from = i * FULL_TEXT;
        let m = FULL_TEXT.min(src.len() - from);
        let b = card_fill::octets_block(first + i, 4, m, src, from, m);
        card_fill::put_block(card, first + i, &b);
    }
}

// Card write, of tables that are within the limits.
fn write_tables(
    groups: &[u32],
    tracks: &[u32],
    segments: &[u32],
    text: &[u8],
    card: &mut [u8],
) -> Result<usize, Refusal>
    requires groups_len_bound { length groups.now ≤ most_groups * group_words }
    requires tracks_len_bound { length tracks.now ≤ most_tracks * track_words }
    requires segments_len_bound { length segments.now ≤ most_segments }
    requires text_len_bound { length text.now ≤ most_text }
    ensures result_value { count_said result ≡ said_through (room_row (tables groups.now tracks.now segments.now text.now) (length card.old) ∷ []) (granted (blocks_taken (tables groups.now tracks.now segments.now text.now) ∷ [])) }
    ensures card_after { card.new ≡ table_after (count_said result) (card_of (tables groups.now tracks.now segments.now text.now)) card.old }
{
    let g = (groups.len() + 125) / FULL_WORDS;
    let t = (tracks.len() + 125) / FULL_WORDS;
    let s = (segments.len() + 125) / FULL_WORDS;
    let x = (text.len() + 504) / FULL_TEXT;
    let n = g + t + s + x;
    if card.len() < n * card_block::BLOCK {
        return Err(Refusal::from(Reason::NoCardRoom));
    }
    write_words(card, 0, 1, 3, groups);
    write_words(card, g, 2, 6, tracks);
    write_words(card, g + t, 3, 1, segments);
    write_text(card, g + t + s, text);
    Ok(n)
}

// Card write: the card of a catalogue over the front of the lent one, and how many blocks it has; or a refusal, and then the lent card is as it was.
pub fn write(
    groups: &[u32],
    tracks: &[u32],
    segments: &[u32],
    text: &[u8],
    card: &mut [u8],
) -> Result<usize, Refusal>
    ensures result_value { count_said result ≡ write_said (tables groups.now tracks.now segments.now text.now) (length card.old) }
    ensures card_after { card.new ≡ table_after (count_said result) (card_of (tables groups.now tracks.now segments.now text.now)) card.old }
{
    catalogue_check::check(groups, tracks, segments, text)?;
    write_tables(groups, tracks, segments, text, card)
}
