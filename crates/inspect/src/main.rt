// Reads a card from standard input, loads it into tables at the limits, and checks the catalogue that it holds.
// Writes the counts and "catalogue fine"; of a card with a bad block the refusal number, the block and what is wrong with it, in words; of a title that is not
// UTF-8 the refusal number, its track and the octet; or the refusal number alone.
#![tactic(auto)]

use card_load::Counts;
use ground::{Carried, Reason, Refusal};

fn write_number(n: usize) {
    io::print_decimal(1, n as u64);
}

// What is wrong with a block that is refused for this reason.
fn write_reason(reason: Reason) {
    match reason {
        Reason::BadCheck => {
            io::write_all(1, b"its check octets do not fit its contents");
        }
        Reason::BadBlockNumber => {
            io::write_all(1, b"its number is not its place on the card");
        }
        Reason::BadKind => {
            io::write_all(
                1,
                b"its kind is not 1 to 4, or below that of the block before",
            );
        }
        Reason::BadCount => {
            io::write_all(
                1,
                b"its record count is 0, or more than a block of its kind holds",
            );
        }
        Reason::NotFull => {
            io::write_all(1, b"it is not full, and the block behind it is of its kind");
        }
        Reason::BadPadding => {
            io::write_all(1, b"an octet behind its records is not 0");
        }
        _ => {}
    }
}

fn refuse(refusal: Refusal) {
    write_number(ground::wide_word(u32::from(refusal.reason)));
    match refusal.carried {
        Carried::Nothing => {}
        Carried::One(block) => {
            io::write_all(1, b": block ");
            write_number(block);
            io::write_all(1, b", ");
            write_reason(refusal.reason);
        }
        Carried::Two(track, offset) => {
            io::write_all(1, b": title of track ");
            write_number(track);
            io::write_all(1, b", octet ");
            write_number(offset);
        }
    }
    io::write_all(1, b"\n");
}

fn write_counts(counts: Counts) {
    write_number(counts.groups);
    io::write_all(1, b" groups, ");
    write_number(counts.tracks);
    io::write_all(1, b" tracks, ");
    write_number(counts.segments);
    io::write_all(1, b" segments, ");
    write_number(counts.text);
    io::write_all(1, b" octets of text\n");
}

// The loaded records alone are the catalogue.
fn check(counts: Counts, groups: &[u32], tracks: &[u32], segments: &[u32], text: &[u8]) {
    match catalogue_check::check(groups, tracks, segments, text) {
        Err(refusal) => {
            refuse(refusal);
        }
        Ok(()) => {
            write_counts(counts);
            io::write_all(1, b"catalogue fine\n");
        }
    }
}

fn inspect(card: &[u8]) {
    let mut groups = [0u32; 192];
    let mut tracks = [0u32; 1536];
    let mut segments = [0u32; 1024];
    let mut text = [0u8; 32768];
    match card_load::load(card, &mut groups, &mut tracks, &mut segments, &mut text) {
        Err(refusal) => {
            refuse(refusal);
        }
        Ok(counts) => {
            // Every count of a loaded card keeps within its limit.
            let g = counts.groups.min(ground::MOST_GROUPS) * 3;
            let t = counts.tracks.min(ground::MOST_TRACKS) * 6;
            let s = counts.segments.min(ground::MOST_SEGMENTS);
            let x = counts.text.min(ground::MOST_TEXT);
            check(
                counts,
                &groups[0..g],
                &tracks[0..t],
                &segments[0..s],
                &text[0..x],
            );
        }
    }
}

// One octet more than the longest card is read, so that a longer one is refused.
fn main() {
    let mut card = [0u8; 65537];
    let n = io::read_full(0, &mut card);
    inspect(&card[..n]);
}
