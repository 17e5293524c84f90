// The rules of a catalogue, a function for each (SCOPE 4.2 to 4.12). The loops are never left early: they become vector code, or at least have no branches.
#![tactic(auto)]

ghost use Rattle.std.specs.Prelude.{◌≡◌, ◌&&◌, ◌∷◌, [], ℕ, ◌+◌, ◌*◌, ◌<◌, ◌≤◌, length};
ghost use Rattle.ground.specs.Refusals.{refused_with, refusal_of};
ghost use Rattle.catalogue_tables.specs.Tables.{word_in, track_count};
ghost use Rattle.catalogue_rules.specs.Rules.{sizes_rule, parent_right, parents_rule, follow, segment_runs_rule, durations_rule, rise_rule, starts_right, starts_rule, titles_placed_rule, bad_title, titles_of, RunsInside, TitlesInside};

use ground::{Reason, Refusal};

// A title that is not UTF-8: the lowest such track, and the offset of the octet where its title is not.
#[derive(Clone, Copy, PartialEq, Eq)]
pub struct BadTitle {
    pub track: usize,
    pub offset: usize,
}

// It is refused as a catalogue that breaks a rule, and carries where (SCOPE 4.14).
impl From<BadTitle> for Refusal {
    ghost from_gives = { λ title refusal. refusal_of refusal ≡ refused_with 200 (title.track ∷ title.offset ∷ []) };

    fn from(title: BadTitle) -> Refusal
        ensures { refusal_of result ≡ refused_with 200 (title.track ∷ title.offset ∷ []) }
    {
        Reason::BadCatalogue.at_both(title.track, title.offset)
    }
}

pub fn sizes_right(groups: usize, tracks: usize, segments: usize, text: usize) -> bool
    ensures { result ≡ sizes_rule groups tracks segments text }
{
    (groups % catalogue_tables::GROUP_WORDS == 0)
        & (tracks % catalogue_tables::TRACK_WORDS == 0)
        & (groups / catalogue_tables::GROUP_WORDS <= ground::MOST_GROUPS)
        & (tracks / catalogue_tables::TRACK_WORDS <= ground::MOST_TRACKS)
        & (segments <= ground::MOST_SEGMENTS)
        & (text <= ground::MOST_TEXT)
}

fn parent_right(group: usize, parent: usize) -> bool
    ensures { result ≡ parent_right group parent }
{
    if group == 0 {
        return parent == 0;
    }
    parent < group
}

pub fn parents_right(groups: &[u32]) -> bool
    ensures { result ≡ parents_rule groups.now }
{
    let n = groups.len() / catalogue_tables::GROUP_WORDS;
    let mut good = true;
    for i in 0..n {
        let base = i * catalogue_tables::GROUP_WORDS;
        let parent = ground::wide_word(groups[base + catalogue_tables::PARENT_AT]);
        let right = parent_right(i, parent);
        good = good & right;
    }
    good
}

// Whether the runs of n records follow each other from 0 and use up all (SCOPE 4.6, 4.7). A record has `width` words. The first number of its run is at the
// place `at` in it, and the count of the run behind that.
pub fn runs_right(table: &[u32], n: usize, width: usize, at: usize, total: usize) -> bool
    requires width_in_bounds { n * width ≤ length table.now }
    requires at_bound { at + 2 ≤ width }
    requires n_bound { n ≤ 256 }
    ensures { result ≡ follow n (λ (i : ℕ). word_in width table.now i at) (λ (i : ℕ). word_in width table.now i (at + 1)) total }
{
    let mut good = true;
    let mut sum: usize = 0;
    for i in 0..n {
        let base = i * width;
        let first = ground::wide_word(table[base + at]);
        let count = ground::wide_word(table[base + (at + 1)]);
        good = good & (first == sum);
        sum += count;
    }
    good & (sum == total)
}

// Whether those rules of the tracks hold that ask of the other tables only how long they are: the segment runs follow each other from 0 and use up all, the
// durations are right, and the titles lie in the text and are short (SCOPE 4.7, 4.8, 4.11). One pass over the records, which are read from memory once.
pub fn tracks_right(tracks: &[u32], segments: usize, text: usize) -> bool
    requires { track_count tracks.now ≤ 256 }
    ensures { result ≡ (segment_runs_rule tracks.now segments && durations_rule tracks.now && titles_placed_rule tracks.now text) }
{
    let n = tracks.len() / catalogue_tables::TRACK_WORDS;
    let mut following = true;
    let mut known = true;
    let mut placed = true;
    let mut sum: usize = 0;
    for i in 0..n {
        let base = i * catalogue_tables::TRACK_WORDS;
        let duration = tracks[base + catalogue_tables::DURATION_AT];
        let first = ground::wide_word(tracks[base + catalogue_tables::FIRST_SEGMENT_AT]);
        let count = ground::wide_word(tracks[base + catalogue_tables::SEGMENT_COUNT_AT]);
        let offset = ground::wide_word(tracks[base + catalogue_tables::TITLE_OFFSET_AT]);
        let len = ground::wide_word(tracks[base + catalogue_tables::TITLE_LENGTH_AT]);
        let end = offset + len;
        following = following & (first == sum);
        known = known
            & ((duration <= ground::MOST_DURATION) | (duration == catalogue_tables::NOT_YET_KNOWN));
        placed = placed & ((end <= text) & (len <= ground::MOST_TITLE));
        sum += count;
    }
    following & (sum == segments) & known & placed
}

fn rises(starts: &[u32]) -> bool
    requires { 0 < length starts.now }
    ensures { result ≡ rise_rule starts.now }
{
    let mut good = true;
    for i in 0..starts.len() - 1 {
        good = good & (starts[i] < starts[i + 1]);
    }
    good
}

// Where starts rise, all lie below the end if the last one does (SCOPE 4.10).
fn starts_of_track_right(starts: &[u32], end: u32) -> bool
    ensures { result ≡ starts_right starts.now end }
{
    let n = starts.len();
    if n == 0 {
        return true;
    }
    let rising = rises(starts);
    (starts[0] == 0) & rising & (starts[n - 1] < end)
}

// Where there is no segment at all, no track is looked at.
pub fn starts_right(tracks: &[u32], segments: &[u32]) -> bool
    requires { RunsInside tracks.now (length segments.now) }
    ensures { result ≡ starts_rule tracks.now segments.now }
{
    if segments.len() == 0 {
        return true;
    }
    let n = tracks.len() / catalogue_tables::TRACK_WORDS;
    let mut good = true;
    for i in 0..n {
        let base = i * catalogue_tables::TRACK_WORDS;
        let first = ground::wide_word(tracks[base + catalogue_tables::FIRST_SEGMENT_AT]);
        let count = ground::wide_word(tracks[base + catalogue_tables::SEGMENT_COUNT_AT]);
        let end = first + count;
        let duration = tracks[base + catalogue_tables::DURATION_AT];
        let last = catalogue_tables::end_by(duration);
        let right = starts_of_track_right(&segments[first..end], last);
        good = good & right;
    }
    good
}

// Whether all titles are UTF-8, or else the lowest track whose title is not, and where it is not (SCOPE 4.12, 4.14). Going from the last track to the first,
// the one that is kept is the lowest. Where all of the text is plain, so is every title, and none is looked at by itself.
pub fn titles_text(tracks: &[u32], text: &[u8]) -> Result<(), BadTitle>
    requires { TitlesInside tracks.now (length text.now) }
    ensures { titles_of result ≡ bad_title tracks.now text.now }
{
    if text::is_plain(text) {
        return Ok(());
    }
    let mut found = Ok(());
    for track in (0..tracks.len() / catalogue_tables::TRACK_WORDS).rev() {
        let base = track * catalogue_tables::TRACK_WORDS;
        let offset = ground::wide_word(tracks[base + catalogue_tables::TITLE_OFFSET_AT]);
        let len = ground::wide_word(tracks[base + catalogue_tables::TITLE_LENGTH_AT]);
        let end = offset + len;
        found = match text::check(&text[offset..end]) {
            Ok(()) => found,
            Err(bad) => Err(BadTitle {
                track: track,
                offset: bad.at,
            }),
        };
    }
    found
}
