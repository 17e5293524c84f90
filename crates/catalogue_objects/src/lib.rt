// The Group object and the Track Segments object (SCOPE 7): written out of a catalogue into lent octets, and read back from octets into lent words.
#![tactic(auto)]

ghost use Rattle.std.specs.Prelude.{◌≡◌, true, ◌∷◌, [], map, ◌+◌, ◌*◌, ◌<◌, ◌≤◌, ltb, length, drop};
ghost use Rattle.ground.specs.Limits.{most_groups, most_tracks, most_segments};
ghost use Rattle.ground.specs.Refusals.{granted, refused, row, said_through, count_said};
ghost use Rattle.ground.specs.Lists.{span, laid, filled, table_after};
ghost use Rattle.catalogue_tables.specs.Tables.{tables, group_count, first_track_of, tracks_in};
ghost use Rattle.catalogue_objects.specs.declared.Kind.TheVariants.{Group};
ghost use Rattle.catalogue_objects.specs.Entries.{track_member, group_member, is_child, children_of, nameless, member_octets, label_octets, all_octets};
ghost use Rattle.catalogue_objects.specs.Objects.{group_octets, segments_octets, has_group, has_segments, write_said};
ghost use Rattle.catalogue_objects.specs.Reading.{label_head, label_sound, size_of, is_entry, words_of, width_of, entries_of, CountsEntries, read_said};

use ground::{Reason, Refusal};

// The types of a Group object's entries (SCOPE 7.2; the standard, Table 4.3).
const TRACK: u8 = 0;

const GROUP: u8 = 1;

// The octets of such an entry, and of an entry of a Track Segments object without a name, here called a label (SCOPE 7.4).
const MEMBER: usize = 7;

const LABEL: usize = 5;

// Writes an entry of a Group object over out, from a place on (SCOPE 7.2).
fn put_member(out: &mut [u8], at: usize, kind: u8, object: usize)
    requires { at + 7 ≤ length out.old }
    ensures { out.new ≡ laid out.old at (member_octets (record { kind = kind; object = object })) }
{
    let o = ground::six_octets(object);
    out[at] = kind;
    out[at + 1] = o[0];
    out[at + 2] = o[1];
    out[at + 3] = o[2];
    out[at + 4] = o[3];
    out[at + 5] = o[4];
    out[at + 6] = o[5];
}

// Whether a group is a child of g (SCOPE 7.3).
fn is_child(groups: &[u32], g: catalogue_tables::GroupNo, h: u32) -> bool
    ensures { result ≡ is_child groups.now g.0 h }
{
    let parent = catalogue_tables::parent(groups, catalogue_tables::GroupNo(h));
    (h != 0) & (parent.0 == g.0)
}

fn count_children(groups: &[u32], g: catalogue_tables::GroupNo) -> usize
    requires { group_count groups.now ≤ most_groups }
    ensures { (result ≡ length (children_of groups.now g.0)) × (result ≤ most_groups) }
{
    let mut n: usize = 0;
    for h in 0..catalogue_tables::group_count(groups) {
        if is_child(groups, g, h as u32) {
            n += 1;
        }
    }
    n
}

// Writes the entries of a group's children over the front of out.
fn put_children(out: &mut [u8], groups: &[u32], g: catalogue_tables::GroupNo)
    requires groups_bound { group_count groups.now ≤ most_groups }
    requires g_in_bounds { length (children_of groups.now g.0) * 7 ≤ length out.old }
    ensures { out.new ≡ filled (all_octets member_octets (map group_member (children_of groups.now g.0))) out.old }
{
    let mut n: usize = 0;
    for h in 0..catalogue_tables::group_count(groups) {
        if is_child(groups, g, h as u32) {
            let object = catalogue_tables::group_object(catalogue_tables::GroupNo(h as u32));
            put_member(out, n * MEMBER, GROUP, object);
            n += 1;
        }
    }
}

// Writes the entries of the tracks of a run over out, from a place on.
fn put_tracks(out: &mut [u8], at: usize, first: u32, count: u32)
    requires count_bound { first + count ≤ most_tracks }
    requires count_in_bounds { at + count * 7 ≤ length out.old }
    ensures { out.new ≡ laid out.old at (all_octets member_octets (map track_member (span first count))) }
{
    for i in 0..count {
        let object = catalogue_tables::track_object(catalogue_tables::TrackNo(first + i));
        put_member(out, at + ground::wide_word(i) * MEMBER, TRACK, object);
    }
}

// Writes the Group object of a group of a right catalogue (SCOPE 7.3).
fn fill_group(
    groups: &[u32],
    g: catalogue_tables::GroupNo,
    out: &mut [u8],
) -> Result<usize, Refusal>
    requires groups_bound { group_count groups.now ≤ most_groups }
    requires g_bound { first_track_of groups.now g.0 + tracks_in groups.now g.0 ≤ most_tracks }
    ensures result_value { count_said result ≡ said_through (row 223 (ltb (length out.old) (length (group_octets groups.now g.0))) ∷ []) (granted (length (group_octets groups.now g.0) ∷ [])) }
    ensures out_after { out.new ≡ table_after (count_said result) (group_octets groups.now g.0) out.old }
{
    let children = count_children(groups, g);
    let first = catalogue_tables::first_track(groups, g);
    let count = catalogue_tables::tracks_in(groups, g);
    let at = children * MEMBER;
    let n = at + ground::wide_word(count) * MEMBER;
    if out.len() < n {
        return Err(Refusal::from(Reason::NoObjectRoom));
    }
    put_children(out, groups, g);
    put_tracks(out, at, first.0, count);
    Ok(n)
}

// Writes the Group object of a group over the front of out, and answers how many octets it has; or refuses and leaves out as it was (SCOPE 7.5).
pub fn write_group(
    groups: &[u32],
    tracks: &[u32],
    segments: &[u32],
    text: &[u8],
    g: catalogue_tables::GroupNo,
    out: &mut [u8],
) -> Result<usize, Refusal>
    ensures result_value { count_said result ≡ write_said (tables groups.now tracks.now segments.now text.now) (has_group (tables groups.now tracks.now segments.now text.now) g.0) (group_octets groups.now g.0) (length out.old) }
    ensures out_after { out.new ≡ table_after (count_said result) (group_octets groups.now g.0) out.old }
{
    catalogue_check::check(groups, tracks, segments, text)?;
    if catalogue_tables::group_count(groups) <= ground::wide_word(g.0) {
        return Err(Refusal::from(Reason::NotAllowed));
    }
    fill_group(groups, g, out)
}

// Writes a label without a name over out, from a place on (SCOPE 7.4).
fn put_label(out: &mut [u8], at: usize, position: u32)
    requires { at + 5 ≤ length out.old }
    ensures { out.new ≡ laid out.old at (label_octets (nameless position)) }
{
    out[at] = 0;
    ground::put_word(out, at + 1, position);
}

// Writes the labels of segments with these starts over the front of out.
fn put_labels(out: &mut [u8], starts: &[u32])
    requires { length starts.now * 5 ≤ length out.old }
    ensures { out.new ≡ filled (all_octets label_octets (map nameless starts.now)) out.old }
{
    for (i, start) in starts.iter().enumerate() {
        put_label(out, i * LABEL, *start);
    }
}

// Writes the Track Segments object of a track over the front of out, and answers how many octets it has; or refuses and leaves out as it was (SCOPE 7.5).
pub fn write_segments(
    groups: &[u32],
    tracks: &[u32],
    segments: &[u32],
    text: &[u8],
    t: catalogue_tables::TrackNo,
    out: &mut [u8],
) -> Result<usize, Refusal>
    ensures result_value { count_said result ≡ write_said (tables groups.now tracks.now segments.now text.now) (has_segments (tables groups.now tracks.now segments.now text.now) t.0) (segments_octets tracks.now segments.now t.0) (length out.old) }
    ensures out_after { out.new ≡ table_after (count_said result) (segments_octets tracks.now segments.now t.0) out.old }
{
    catalogue_check::check(groups, tracks, segments, text)?;
    let there = ground::wide_word(t.0) < catalogue_tables::track_count(tracks);
    let cut = 0 < catalogue_tables::segments_in(tracks, t);
    if !(there & cut) {
        return Err(Refusal::from(Reason::NotAllowed));
    }
    let starts = catalogue_tables::starts(tracks, segments, t);
    fill_segments(starts, out)
}

// Writes the Track Segments object of segments with these starts, where there is room.
fn fill_segments(starts: &[u32], out: &mut [u8]) -> Result<usize, Refusal>
    requires { length starts.now ≤ most_segments }
    ensures result_value { count_said result ≡ said_through (row 223 (ltb (length out.old) (length (all_octets label_octets (map nameless starts.now)))) ∷ []) (granted (length (all_octets label_octets (map nameless starts.now)) ∷ [])) }
    ensures out_after { out.new ≡ table_after (count_said result) (all_octets label_octets (map nameless starts.now)) out.old }
{
    let size = starts.len() * LABEL;
    if out.len() < size {
        return Err(Refusal::from(Reason::NoObjectRoom));
    }
    put_labels(out, starts);
    Ok(size)
}

// Which object octets are read as.
#[derive(Clone, Copy)]
pub enum Kind {
    Group,
    Segments,
}

// The octets of the label at a place that stand before its start: the length of its name, and the name.
fn label_head(octets: &[u8], at: usize) -> usize
    requires { at < length octets.now }
    ensures { (result ≡ label_head (drop at octets.now)) × (result ≤ 256) }
{
    (octets[at] as usize) + 1
}

// How many octets the entry at a place has.
fn size_at(octets: &[u8], at: usize, kind: Kind) -> usize
    requires { at < length octets.now }
    ensures { (result ≡ size_of kind (drop at octets.now)) × (0 < result) × (result ≤ 260) }
{
    match kind {
        Kind::Group => MEMBER,
        Kind::Segments => label_head(octets, at) + 4,
    }
}

// Whether the name and the start of the label at a place are right (SCOPE 7.7). The label lies within the octets.
fn label_sound(octets: &[u8], at: usize) -> bool
    requires { (at < length octets.now) × (at + (label_head (drop at octets.now) + 4) ≤ length octets.now) }
    ensures { result ≡ label_sound (drop at octets.now) }
{
    let head = label_head(octets, at);
    let from = at + 1;
    let end = at + head;
    let named = text::is_text(&octets[from..end]);
    let position = ground::word_at(octets, end);
    named & (position < 0x8000_0000)
}

// Whether a whole entry stands at a place (SCOPE 7.7).
fn is_entry(octets: &[u8], at: usize, kind: Kind) -> bool
    requires { at < length octets.now }
    ensures { result ≡ is_entry kind (drop at octets.now) }
{
    let size = size_at(octets, at, kind);
    if octets.len() - at < size {
        return false;
    }
    match kind {
        Kind::Group => octets[at] <= GROUP,
        Kind::Segments => label_sound(octets, at),
    }
}

// Writes the words of the entry at a place over out, from the place `to` on (SCOPE 7.6).
fn put_entry(octets: &[u8], at: usize, kind: Kind, out: &mut [u32], to: usize)
    requires at_in_bounds { (at < length octets.now) × (at + size_of kind (drop at octets.now) ≤ length octets.now) }
    requires kind_in_bounds { to + width_of kind ≤ length out.old }
    ensures { out.new ≡ laid out.old to (words_of kind (drop at octets.now)) }
{
    match kind {
        Kind::Group => {
            out[to] = octets[at] as u32;
            out[to + 1] = ground::word_at(octets, at + 1);
            out[to + 2] = ground::half_at(octets, at + 5) as u32;
        }
        Kind::Segments => {
            let head = label_head(octets, at);
            out[to] = ground::word_at(octets, at + head);
        }
    }
}

// How many words an entry is read into.
fn width_of(kind: Kind) -> usize
    ensures { (result ≡ width_of kind) × (0 < result) × (result ≤ 3) }
{
    match kind {
        Kind::Group => 3,
        Kind::Segments => 1,
    }
}

// How many entries a Group object's octets are, or none where they are not whole entries. Its entries all have the same length, so that the end of none has to
// be looked for.
fn members_over(octets: &[u8]) -> Option<usize>
    ensures { CountsEntries Group octets.now result }
{
    let n = octets.len() / MEMBER;
    for i in 0..n {
        let at = i * MEMBER;
        if GROUP < octets[at] {
            return None;
        }
    }
    if octets.len() % MEMBER != 0 {
        return None;
    }
    Some(n)
}

// The same for either kind, entry by entry.
fn entries_over(octets: &[u8], kind: Kind) -> Option<usize>
    ensures { CountsEntries kind octets.now result }
{
    let mut at: usize = 0;
    let mut count: usize = 0;
    // Stays a while: a step is as long as its entry, which only the entry itself says.
    while at < octets.len() {
        if !is_entry(octets, at, kind) {
            return None;
        }
        at += size_at(octets, at, kind);
        count += 1;
    }
    Some(count)
}

fn look_over(octets: &[u8], kind: Kind) -> Option<usize>
    ensures { CountsEntries kind octets.now result }
{
    match kind {
        Kind::Group => members_over(octets),
        Kind::Segments => entries_over(octets, kind),
    }
}

// Writes the words of whole entries over the front of out.
fn put_entries(octets: &[u8], kind: Kind, out: &mut [u32])
    requires octets_value { (entries_of kind octets.now).whole ≡ true }
    requires kind_in_bounds { (entries_of kind octets.now).count * width_of kind ≤ length out.old }
    ensures { out.new ≡ filled (entries_of kind octets.now).words out.old }
{
    let width = width_of(kind);
    let mut at: usize = 0;
    let mut to: usize = 0;
    // Stays a while: a step is as long as its entry, which only the entry itself says.
    while at < octets.len() {
        put_entry(octets, at, kind, out, to);
        at += size_at(octets, at, kind);
        to += width;
    }
}

// Reads octets as an object: its entries' words go over the front of out, and the answer is how many entries there are;
// or it refuses, and out is as it was (SCOPE 7.6, 7.7).
pub fn read(octets: &[u8], kind: Kind, out: &mut [u32]) -> Result<usize, Refusal>
    ensures result_value { count_said result ≡ read_said kind octets.now (length out.old) }
    ensures out_after { out.new ≡ table_after (count_said result) (entries_of kind octets.now).words out.old }
{
    let Some(count) = look_over(octets, kind) else {
        return Err(Refusal::from(Reason::BadEntries));
    };
    let width = width_of(kind);
    if out.len() / width < count {
        return Err(Refusal::from(Reason::NoObjectRoom));
    }
    put_entries(octets, kind, out);
    Ok(count)
}
