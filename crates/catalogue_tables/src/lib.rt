// Views of a catalogue's tables (SCOPE 4.1, 4.3, 4.9), and object numbers (SCOPE 7.1). They take any words and any number: a word behind the end of a table
// counts as 0.
#![tactic(auto)]

ghost use Rattle.std.specs.Prelude.{◌≡◌, min, ◌+◌, ◌-◌, ◌≤◌, ◌<◌};
ghost use Rattle.catalogue_tables.specs.Objects.{track_object, group_object, segments_object};
ghost use Rattle.catalogue_tables.specs.Tables.{word_in, group_count, track_count, parent_of, first_track_of, tracks_in, duration_of, is_running, end_by, end_of, first_segment_of, segments_in, title_offset_of, title_length_of, starts_of};

// Group numbers, track numbers, segment numbers and positions are types of their own, so that none is taken for another (SCOPE 2.3).
#[derive(Clone, Copy)]
pub struct GroupNo(pub u32);

#[derive(Clone, Copy)]
pub struct TrackNo(pub u32);

#[derive(Clone, Copy)]
pub struct SegmentNo(pub u32);
// A position is in hundredths of a second, from the start of a track (SCOPE 2.4).
#[derive(Clone, Copy)]
pub struct Position(pub u32);

// The words of a record of a group and of a track, and the place of each in it (SCOPE 4.3).
pub const GROUP_WORDS: usize = 3;

pub const PARENT_AT: usize = 0;

pub const FIRST_TRACK_AT: usize = 1;

pub const TRACK_COUNT_AT: usize = 2;

pub const TRACK_WORDS: usize = 6;

pub const DURATION_AT: usize = 0;

pub const STAMP_AT: usize = 1;

pub const FIRST_SEGMENT_AT: usize = 2;

pub const SEGMENT_COUNT_AT: usize = 3;

pub const TITLE_OFFSET_AT: usize = 4;

pub const TITLE_LENGTH_AT: usize = 5;

// The duration of a recording that is still running (SCOPE 4.8).
pub const NOT_YET_KNOWN: u32 = 0xFFFF_FFFF;

// A word of record i.
pub fn word_in(table: &[u32], width: usize, i: u32, column: usize) -> u32
    requires { (width ≤ 6) × (column ≤ 6) }
    ensures { result ≡ word_in width table.now i column }
{
    let base = ground::wide_word(i) * width;
    ground::at_or(table, base + column, 0)
}

pub fn group_count(groups: &[u32]) -> usize
    ensures { result ≡ group_count groups.now }
{
    groups.len() / GROUP_WORDS
}

pub fn track_count(tracks: &[u32]) -> usize
    ensures { result ≡ track_count tracks.now }
{
    tracks.len() / TRACK_WORDS
}

pub fn parent(groups: &[u32], g: GroupNo) -> GroupNo
    ensures { result.0 ≡ parent_of groups.now g.0 }
{
    let x = word_in(groups, GROUP_WORDS, g.0, PARENT_AT);
    GroupNo(x)
}

pub fn first_track(groups: &[u32], g: GroupNo) -> TrackNo
    ensures { result.0 ≡ first_track_of groups.now g.0 }
{
    let x = word_in(groups, GROUP_WORDS, g.0, FIRST_TRACK_AT);
    TrackNo(x)
}

pub fn tracks_in(groups: &[u32], g: GroupNo) -> u32
    ensures { result ≡ tracks_in groups.now g.0 }
{
    word_in(groups, GROUP_WORDS, g.0, TRACK_COUNT_AT)
}

pub fn duration(tracks: &[u32], t: TrackNo) -> Position
    ensures { result.0 ≡ duration_of tracks.now t.0 }
{
    let x = word_in(tracks, TRACK_WORDS, t.0, DURATION_AT);
    Position(x)
}

// Whether a track's duration is not yet known.
pub fn is_running(tracks: &[u32], t: TrackNo) -> bool
    ensures { result ≡ is_running tracks.now t.0 }
{
    let d = duration(tracks, t);
    d.0 == NOT_YET_KNOWN
}

// D, by the word of a duration (SCOPE 4.9).
pub fn end_by(duration: u32) -> u32
    ensures { result ≡ end_by duration }
{
    if duration == NOT_YET_KNOWN {
        return ground::MOST_DURATION;
    }
    duration
}

// D, the last position that a track has (SCOPE 4.9).
pub fn end(tracks: &[u32], t: TrackNo) -> Position
    ensures { result.0 ≡ end_of tracks.now t.0 }
{
    let d = duration(tracks, t);
    let x = end_by(d.0);
    Position(x)
}

pub fn first_segment(tracks: &[u32], t: TrackNo) -> SegmentNo
    ensures { result.0 ≡ first_segment_of tracks.now t.0 }
{
    let x = word_in(tracks, TRACK_WORDS, t.0, FIRST_SEGMENT_AT);
    SegmentNo(x)
}

pub fn segments_in(tracks: &[u32], t: TrackNo) -> u32
    ensures { result ≡ segments_in tracks.now t.0 }
{
    word_in(tracks, TRACK_WORDS, t.0, SEGMENT_COUNT_AT)
}

pub fn title_offset(tracks: &[u32], t: TrackNo) -> u32
    ensures { result ≡ title_offset_of tracks.now t.0 }
{
    word_in(tracks, TRACK_WORDS, t.0, TITLE_OFFSET_AT)
}

pub fn title_length(tracks: &[u32], t: TrackNo) -> u32
    ensures { result ≡ title_length_of tracks.now t.0 }
{
    word_in(tracks, TRACK_WORDS, t.0, TITLE_LENGTH_AT)
}

// The start and the end of a run. Where the run goes on behind the end of its table, it is cut off there.
#[derive(Clone, Copy)]
pub struct Run {
    pub start: usize,
    pub end: usize,
}

pub fn run_within(first: u32, count: u32, len: usize) -> Run
    ensures { (result.start ≡ min first len) × (result.end ≡ result.start + min count (len - result.start)) }
{
    let start = ground::wide_word(first).min(len);
    let end = start + ground::wide_word(count).min(len - start);
    Run {
        start: start,
        end: end,
    }
}

// The starts of a track's segments, a part of the segments.
pub fn starts<'a>(tracks: &[u32], segments: &'a [u32], t: TrackNo) -> &'a [u32]
    ensures { result.now ≡ starts_of tracks.now segments.now t.0 }
{
    let first = first_segment(tracks, t);
    let count = segments_in(tracks, t);
    let run = run_within(first.0, count, segments.len());
    let a = run.start;
    let e = run.end;
    &segments[a..e]
}

// Where the object numbers of tracks, of groups and of tracks' segments begin (SCOPE 7.1).
pub const TRACK_OBJECTS: usize = 0x1000;

pub const GROUP_OBJECTS: usize = 0x2000;

pub const SEGMENTS_OBJECTS: usize = 0x3000;

// The object of a track, of a group and of a track's segments.
pub fn track_object(t: TrackNo) -> usize
    ensures { (result ≡ track_object t.0) × (result < 281474976710656) }
{
    TRACK_OBJECTS + ground::wide_word(t.0)
}

pub fn group_object(g: GroupNo) -> usize
    ensures { (result ≡ group_object g.0) × (result < 281474976710656) }
{
    GROUP_OBJECTS + ground::wide_word(g.0)
}

pub fn segments_object(t: TrackNo) -> usize
    ensures { (result ≡ segments_object t.0) × (result < 281474976710656) }
{
    SEGMENTS_OBJECTS + ground::wide_word(t.0)
}
