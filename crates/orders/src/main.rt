// Reads a card from standard input, loads it into tables at the limits, and checks the catalogue that it holds. Writes, for each group with tracks, in
// number order, its number, a colon and its tracks in order 5, a space before each; or the refusal number alone (SCOPE 22.3).
#![tactic(auto)]

ghost use Rattle.std.specs.Prelude.{◌≤◌, length};
ghost use Rattle.ground.specs.Limits.{most_groups};
ghost use Rattle.player_orders.specs.Order.{Run};

use ground::Refusal;

fn refuse(refusal: Refusal) {
    io::print_decimal(1, u64::from(u32::from(refusal.reason)));
    io::write_all(1, b"\n");
}

// The track behind t in order 5; nothing stands behind what is no track of the run.
fn after(
    tracks: &[u32],
    first: catalogue_tables::TrackNo,
    count: u32,
    t: catalogue_tables::TrackNo,
) -> Option<catalogue_tables::TrackNo>
    requires { Run (length tracks.now) first.0 count }
{
    if t.0 < first.0 {
        return None;
    }
    if first.0 + count <= t.0 {
        return None;
    }
    player_orders::track_after(tracks, 5, first, count, t, player_walk::Step::Next)
}

// Writes what was found, and finds what comes behind it.
fn write_found(
    tracks: &[u32],
    first: catalogue_tables::TrackNo,
    count: u32,
    found: Option<catalogue_tables::TrackNo>,
) -> Option<catalogue_tables::TrackNo>
    requires { Run (length tracks.now) first.0 count }
{
    let t = found?;
    io::write_all(1, b" ");
    io::print_decimal(1, t.0 as u64);
    after(tracks, first, count, t)
}

// A run has no more tracks than its count.
fn write_run(tracks: &[u32], first: catalogue_tables::TrackNo, count: u32)
    requires { Run (length tracks.now) first.0 count }
{
    let mut found = player_orders::entry_track(tracks, 5, first, count);
    for _turn in 0..count {
        found = write_found(tracks, first, count, found);
    }
}

// A group without tracks is left out. The run of a checked catalogue's group lies in the tracks.
fn write_group(groups: &[u32], tracks: &[u32], g: u32) {
    let group = catalogue_tables::GroupNo(g);
    let first = catalogue_tables::first_track(groups, group);
    let count = catalogue_tables::tracks_in(groups, group);
    let end = ground::wide_word(first.0) + ground::wide_word(count);
    if count == 0 {
        return;
    }
    if ground::MOST_TRACKS < end {
        return;
    }
    if tracks.len() < end * 6 {
        return;
    }
    io::print_decimal(1, g as u64);
    io::write_all(1, b":");
    write_run(tracks, first, count);
    io::write_all(1, b"\n");
}

fn write_groups(groups: &[u32], tracks: &[u32], count: usize)
    requires { count ≤ most_groups }
{
    for g in 0..count {
        write_group(groups, tracks, g as u32);
    }
}

// The loaded records alone are the catalogue.
fn check(count: usize, groups: &[u32], tracks: &[u32], segments: &[u32], text: &[u8])
    requires { count ≤ most_groups }
{
    match catalogue_check::check(groups, tracks, segments, text) {
        Err(refusal) => {
            refuse(refusal);
        }
        Ok(()) => {
            write_groups(groups, tracks, count);
        }
    }
}

fn write_card(card: &[u8]) {
    let mut groups = [0u32; 192];
    let mut tracks = [0u32; 1536];
    let mut segments = [0u32; 1024];
    let mut text = [0u8; 32768];
    match card_load::load(card, &mut groups, &mut tracks, &mut segments, &mut text) {
        Err(refusal) => {
            refuse(refusal);
        }
        Ok(counts) => {
            // Every count of a loaded card keeps within its limit.
            let n = counts.groups.min(ground::MOST_GROUPS);
            let g = n * 3;
            let t = counts.tracks.min(ground::MOST_TRACKS) * 6;
            let s = counts.segments.min(ground::MOST_SEGMENTS);
            let x = counts.text.min(ground::MOST_TEXT);
            check(
                n,
                &groups[0..g],
                &tracks[0..t],
                &segments[0..s],
                &text[0..x],
            );
        }
    }
}

// One octet more than the longest card is read, so that a longer one is refused.
fn main() {
    let mut card = [0u8; 65537];
    let n = io::read_full(0, &mut card);
    write_card(&card[..n]);
}
