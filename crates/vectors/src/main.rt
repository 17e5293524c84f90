// Runs card load, the catalogue check, the text check, the reading of a cue sheet, card write, the writing and reading of objects and the check of an office's
// titles on framed cases from standard input, and writes a line for each. A frame: an octet for the kind (1 card, 2 catalogue, 3 text, 4 cue sheet, 5 catalogue to
// be written, 6 and 7 catalogue and group or track whose Group object or Track Segments object is to be written, 8 and 9 such an object that is to be read, 10
// catalogue with the office's titles), an octet for the length of the name, the name, the case.
#![tactic(auto)]

ghost use Rattle.std.specs.Prelude.{◌-◌, ◌≤◌, length};

use card_load::Counts;
use catalogue_objects::Kind;
use catalogue_titles::Loan;
use ground::{Carried, Refusal};

// The first n octets, or all where there are fewer.
fn front(s: &[u8], n: usize) -> &[u8] {
    let e = n.min(s.len());
    &s[0..e]
}

// What follows the first n octets.
fn rest(s: &[u8], n: usize) -> &[u8]
    ensures { length result.now ≤ length s.now - n }
{
    if s.len() < n {
        let e = s.len();
        return &s[e..];
    }
    &s[n..]
}

// The little endian word of the first four octets.
fn word(s: &[u8]) -> u32 {
    if s.len() < 4 {
        return 0;
    }
    ground::word_at(s, 0)
}

fn number(s: &[u8]) -> usize {
    ground::wide_word(word(s))
}

fn write_number(n: usize) {
    io::write_all(1, b" ");
    io::print_decimal(1, n as u64);
}

// The check number of a table: the sum of its running sums, modulo 2^32.
fn sum_of_words(s: &[u32]) -> u32 {
    let mut sum: u32 = 0;
    let mut sums: u32 = 0;
    for word in s {
        sum = std::num::wrapping_add_u32(sum, *word);
        sums = std::num::wrapping_add_u32(sums, sum);
    }
    sums
}

fn sum_of_octets(s: &[u8]) -> u32 {
    let mut sum: u32 = 0;
    let mut sums: u32 = 0;
    for octet in s {
        sum = std::num::wrapping_add_u32(sum, u32::from(*octet));
        sums = std::num::wrapping_add_u32(sums, sum);
    }
    sums
}

fn write_sum_of_words(s: &[u32]) {
    write_number(ground::wide_word(sum_of_words(s)));
}

fn write_sum_of_octets(s: &[u8]) {
    write_number(ground::wide_word(sum_of_octets(s)));
}

// What a table of words holds before a load: each word another.
fn prefill(s: &mut [u32]) {
    let mut next: u32 = 0xA5A50000;
    for word in s.iter_mut() {
        *word = next;
        next = std::num::wrapping_add_u32(next, 1);
    }
}

// A refusal: its number, and what it carries.
fn write_refusal(refusal: Refusal) {
    write_number(ground::wide_word(u32::from(refusal.reason)));
    match refusal.carried {
        Carried::Nothing => {}
        Carried::One(place) => {
            write_number(place);
        }
        Carried::Two(track, offset) => {
            write_number(track);
            write_number(offset);
        }
    }
}

fn write_answer(answer: Result<Counts, Refusal>) {
    match answer {
        Err(refusal) => {
            write_refusal(refusal);
        }
        Ok(counts) => {
            write_number(counts.groups);
            write_number(counts.tracks);
            write_number(counts.segments);
            write_number(counts.text);
        }
    }
}

// Writes the answer and the check numbers of the whole tables, so that what lies behind the loaded records is seen too.
fn load(
    card: &[u8],
    groups: &mut [u32],
    tracks: &mut [u32],
    segments: &mut [u32],
    text: &mut [u8],
) {
    prefill(groups);
    prefill(tracks);
    prefill(segments);
    write_answer(card_load::load(card, groups, tracks, segments, text));
    write_sum_of_words(groups);
    write_sum_of_words(tracks);
    write_sum_of_words(segments);
    write_sum_of_octets(text);
}

fn load_into(card: &[u8], groups: usize, tracks: usize, segments: usize, text: usize) {
    let mut group_table = [0u32; 2048];
    let mut track_table = [0u32; 2048];
    let mut segment_table = [0u32; 2048];
    let mut text_table = [0xA5u8; 40000];
    let g = groups.min(2048);
    let t = tracks.min(2048);
    let s = segments.min(2048);
    let x = text.min(40000);
    load(
        card,
        &mut group_table[0..g],
        &mut track_table[0..t],
        &mut segment_table[0..s],
        &mut text_table[0..x],
    );
}

// The length of the card, the card, and the room of the groups, tracks and segments in words and of the text in octets.
fn card_case(s: &[u8]) -> &[u8]
    ensures { length result.now ≤ length s.now }
{
    let len = number(s);
    let card = rest(s, 4);
    let rooms = rest(card, len);
    load_into(
        front(card, len),
        number(rooms),
        number(rest(rooms, 4)),
        number(rest(rooms, 8)),
        number(rest(rooms, 12)),
    );
    rest(rooms, 16)
}

// Fills the front of the table with the little endian words of s.
fn read_words(table: &mut [u32; 2048], s: &[u8]) {
    for i in 0..2048 {
        table[i] = word(rest(s, i * 4));
    }
}

// The first n words, or all where there are fewer.
fn front_of_words(table: &[u32; 2048], n: usize) -> &[u32] {
    let whole = &table[..];
    let e = n.min(whole.len());
    &whole[0..e]
}

// What follows the octets of n words.
fn rest_of_words(s: &[u8], n: usize) -> &[u8]
    ensures { length result.now ≤ length s.now }
{
    rest(s, n.min(2048) * 4)
}

fn write_checked(answer: Result<(), Refusal>) {
    match answer {
        Ok(()) => {
            io::write_all(1, b" fine");
        }
        Err(refusal) => {
            write_refusal(refusal);
        }
    }
}

// The entries in words, and behind them the office's text.
fn check_titles(groups: &[u32], tracks: &[u32], segments: &[u32], text: &[u8], behind: &[u8]) {
    let n = number(behind);
    let m = number(rest(behind, 4));
    let entries = rest(behind, 8);
    let mut renames = [0u32; 2048];
    read_words(&mut renames, entries);
    let loan = Loan {
        groups: groups,
        tracks: tracks,
        segments: segments,
        text: text,
        renames: front_of_words(&renames, n),
        office: front(rest_of_words(entries, n), m),
    };
    write_checked(catalogue_titles::check(&loan));
}

// The answer of what is written or read: how much of it, or the refusal.
fn write_count(answer: Result<usize, Refusal>) {
    match answer {
        Ok(count) => {
            write_number(count);
        }
        Err(refusal) => {
            write_refusal(refusal);
        }
    }
}

// Writes the answer and the check number of the whole lent card, so that what lies behind the last block is seen too.
fn write_card(groups: &[u32], tracks: &[u32], segments: &[u32], text: &[u8], card: &mut [u8]) {
    write_count(card_write::write(groups, tracks, segments, text, card));
    write_sum_of_octets(card);
}

fn write_card_into(groups: &[u32], tracks: &[u32], segments: &[u32], text: &[u8], room: usize) {
    let mut card = [0xA5u8; 66048];
    let n = room.min(66048);
    write_card(groups, tracks, segments, text, &mut card[0..n]);
}

// Writes the answer and the check number of all lent octets, so that those behind the object are seen too.
fn write_group(
    groups: &[u32],
    tracks: &[u32],
    segments: &[u32],
    text: &[u8],
    g: u32,
    out: &mut [u8],
) {
    let group = catalogue_tables::GroupNo(g);
    write_count(catalogue_objects::write_group(groups, tracks, segments, text, group, out));
    write_sum_of_octets(out);
}

fn write_group_into(
    groups: &[u32],
    tracks: &[u32],
    segments: &[u32],
    text: &[u8],
    g: u32,
    room: usize,
) {
    let mut out = [0xA5u8; 8192];
    let n = room.min(8192);
    write_group(groups, tracks, segments, text, g, &mut out[0..n]);
}

fn write_segments(
    groups: &[u32],
    tracks: &[u32],
    segments: &[u32],
    text: &[u8],
    t: u32,
    out: &mut [u8],
) {
    let track = catalogue_tables::TrackNo(t);
    write_count(catalogue_objects::write_segments(groups, tracks, segments, text, track, out));
    write_sum_of_octets(out);
}

fn write_segments_into(
    groups: &[u32],
    tracks: &[u32],
    segments: &[u32],
    text: &[u8],
    t: u32,
    room: usize,
) {
    let mut out = [0xA5u8; 8192];
    let n = room.min(8192);
    write_segments(groups, tracks, segments, text, t, &mut out[0..n]);
}

// What a kind does with a catalogue. Behind the catalogue its case has nothing; or the room for a card; or a group or a track, and the room for its object; or
// the office's titles.
fn with_catalogue(
    kind: u8,
    groups: &[u32],
    tracks: &[u32],
    segments: &[u32],
    text: &[u8],
    behind: &[u8],
) {
    match kind {
        2 => {
            write_checked(catalogue_check::check(groups, tracks, segments, text));
        }
        10 => {
            check_titles(groups, tracks, segments, text, behind);
        }
        5 => {
            write_card_into(groups, tracks, segments, text, number(behind));
        }
        6 => {
            let room = number(rest(behind, 4));
            write_group_into(groups, tracks, segments, text, word(behind), room);
        }
        _ => {
            let room = number(rest(behind, 4));
            write_segments_into(groups, tracks, segments, text, word(behind), room);
        }
    }
}

fn read_catalogue(kind: u8, groups: &[u8], g: usize, t: usize, n: usize, x: usize) -> &[u8]
    ensures { length result.now ≤ length groups.now }
{
    let mut group_table = [0u32; 2048];
    let mut track_table = [0u32; 2048];
    let mut segment_table = [0u32; 2048];
    let tracks = rest_of_words(groups, g);
    let segments = rest_of_words(tracks, t);
    let text = rest_of_words(segments, n);
    read_words(&mut group_table, groups);
    read_words(&mut track_table, tracks);
    read_words(&mut segment_table, segments);
    let behind = rest(text, x);
    with_catalogue(
        kind,
        front_of_words(&group_table, g),
        front_of_words(&track_table, t),
        front_of_words(&segment_table, n),
        front(text, x),
        behind,
    );
    behind
}

// The lengths of the groups, tracks and segments in words and of the text in octets, and then these.
fn catalogue_case(kind: u8, s: &[u8]) -> &[u8]
    ensures { length result.now ≤ length s.now }
{
    read_catalogue(
        kind,
        rest(s, 16),
        number(s),
        number(rest(s, 4)),
        number(rest(s, 8)),
        number(rest(s, 12)),
    )
}

// A catalogue, the number of words of the office's entries and of octets of its text, and then these.
fn titles_case(s: &[u8]) -> &[u8]
    ensures { length result.now ≤ length s.now }
{
    let behind = catalogue_case(10, s);
    let n = number(behind);
    let m = number(rest(behind, 4));
    rest(rest_of_words(rest(behind, 8), n), m)
}

// A catalogue, and the room for its card in octets.
fn write_case(s: &[u8]) -> &[u8]
    ensures { length result.now ≤ length s.now }
{
    let room = catalogue_case(5, s);
    rest(room, 4)
}

// A catalogue, the number of a group or track, and the room for its object in octets.
fn write_object_case(kind: u8, s: &[u8]) -> &[u8]
    ensures { length result.now ≤ length s.now }
{
    let which = catalogue_case(kind, s);
    rest(which, 8)
}

// The length of the text, and the text.
fn text_case(s: &[u8]) -> &[u8]
    ensures { length result.now ≤ length s.now }
{
    let len = number(s);
    let octets = rest(s, 4);
    match text::check(front(octets, len)) {
        Ok(()) => {
            io::write_all(1, b" fine");
        }
        Err(bad) => {
            io::write_all(1, b" bad at");
            write_number(bad.at);
        }
    }
    rest(octets, len)
}

fn read_sheet(sheet: &[u8], starts: &mut [u32]) {
    prefill(starts);
    write_count(catalogue_cue::read(sheet, starts));
    write_sum_of_words(starts);
}

fn read_sheet_into(sheet: &[u8], room: usize) {
    let mut table = [0u32; 4096];
    let n = room.min(4096);
    read_sheet(sheet, &mut table[0..n]);
}

// The length of the sheet, the sheet, and the room for its starts in words.
fn sheet_case(s: &[u8]) -> &[u8]
    ensures { length result.now ≤ length s.now }
{
    let len = number(s);
    let sheet = rest(s, 4);
    let room = rest(sheet, len);
    read_sheet_into(front(sheet, len), number(room));
    rest(room, 4)
}

fn read_group(octets: &[u8], words: &mut [u32]) {
    prefill(words);
    write_count(catalogue_objects::read(octets, Kind::Group, words));
    write_sum_of_words(words);
}

fn read_group_into(octets: &[u8], room: usize) {
    let mut table = [0u32; 4096];
    let n = room.min(4096);
    read_group(octets, &mut table[0..n]);
}

fn read_segments(octets: &[u8], positions: &mut [u32]) {
    prefill(positions);
    write_count(catalogue_objects::read(octets, Kind::Segments, positions));
    write_sum_of_words(positions);
}

fn read_segments_into(octets: &[u8], room: usize) {
    let mut table = [0u32; 4096];
    let n = room.min(4096);
    read_segments(octets, &mut table[0..n]);
}

// Reads an object of a kind, into as many words as there is room.
fn read_object(kind: u8, octets: &[u8], room: usize) {
    if kind == 8 {
        read_group_into(octets, room);
    } else {
        read_segments_into(octets, room);
    }
}

// The length of the object, the object, and the room for its entries in words.
fn object_case(kind: u8, s: &[u8]) -> &[u8]
    ensures { length result.now ≤ length s.now }
{
    let len = number(s);
    let octets = rest(s, 4);
    let room = rest(octets, len);
    read_object(kind, front(octets, len), number(room));
    rest(room, 4)
}

// Runs the case of a kind, and hands back what follows it. Any other kind ends the input.
fn case_of_kind(kind: u8, s: &[u8]) -> &[u8]
    ensures { length result.now ≤ length s.now }
{
    match kind {
        1 => card_case(s),
        2 => catalogue_case(2, s),
        3 => text_case(s),
        4 => sheet_case(s),
        5 => write_case(s),
        6..=7 => write_object_case(kind, s),
        8..=9 => object_case(kind, s),
        10 => titles_case(s),
        _ => rest(s, s.len()),
    }
}

// Runs the case of the first frame, and hands back what follows it.
fn frame(s: &[u8]) -> &[u8]
    ensures { length result.now ≤ length s.now - 2 }
{
    let kind = ground::octet_or_zero(s, 0);
    let len = ground::wide_word(ground::wide_octet(ground::octet_or_zero(s, 1)));
    let name = rest(s, 2);
    io::write_all(1, front(name, len));
    let left = case_of_kind(kind, rest(name, len));
    io::write_all(1, b"\n");
    left
}

fn frames(s: &[u8]) {
    let mut left = s;
    // Stays a while: a turn goes on by the length of a frame.
    while 0 < left.len() {
        let after = frame(left);
        left = &after[0..];
    }
}

fn main() {
    let mut input = [0u8; 4194304];
    let n = io::read_full(0, &mut input);
    frames(&input[..n]);
}
