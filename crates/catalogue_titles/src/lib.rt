// The office's titles (SCOPE 5): the entries that rename tracks, and a title as a part of the card's text or of the office's, never a copy.
#![tactic(auto)]

ghost use Rattle.std.specs.Prelude.{◌≡◌, ℕ, ◌*◌, eqb, length, get_or};
ghost use Rattle.ground.specs.Refusals.{done_said};
ghost use Rattle.ground.specs.Cases.{pick};
ghost use Rattle.ground.specs.Limits.{rename_words};
ghost use Rattle.ground.specs.Lists.{all_below};
ghost use Rattle.catalogue_titles.specs.Titles.{entry_rule, entries_rule, renames_rule, part_of, front, octets_at, Inside, IsPart};
ghost use Rattle.catalogue_titles.specs.Lent.{lent, lent_said};

use catalogue_tables::TrackNo;
use ground::{Reason, Refusal};

// The words of an entry, and the place of each in it (SCOPE 5.1).
pub const RENAME_WORDS: usize = 2;

pub const RENAME_OFFSET_AT: usize = 0;

pub const RENAME_LENGTH_AT: usize = 1;

// A title: a part of the office's text where the track is renamed, and else of the card's (SCOPE 5.5).
#[derive(Clone, Copy)]
pub struct Part {
    pub renamed: bool,
    pub offset: u32,
    pub len: u32,
}

// What a call on the state is lent beside the state: the four tables of a catalogue, the entries that rename its tracks, and the office's text (SCOPE 5.1, 5.9,
// 17.5).
#[derive(Clone, Copy)]
pub struct Loan<'a> {
    pub groups: &'a [u32],
    pub tracks: &'a [u32],
    pub segments: &'a [u32],
    pub text: &'a [u8],
    pub renames: &'a [u32],
    pub office: &'a [u8],
}

// Whether one entry is right (SCOPE 5.3). An entry of length 0 renames nothing, and its offset is not looked at (SCOPE 5.2).
fn entry_right(offset: u32, len: u32, office: &[u8]) -> bool
    ensures { result ≡ entry_rule offset len office.now }
{
    let n = ground::wide_word(len);
    if n == 0 {
        return true;
    }
    if ground::MOST_TITLE < n {
        return false;
    }
    let start = ground::wide_word(offset);
    let end = start + n;
    if office.len() < end {
        return false;
    }
    text::is_text(&office[start..end])
}

// Whether each of so many entries is right.
fn entries_right(count: usize, renames: &[u32], office: &[u8]) -> bool
    requires { length renames.now ≡ count * rename_words }
    ensures { result ≡ entries_rule count renames.now office.now }
{
    let mut good = true;
    for i in 0..count {
        let base = i * RENAME_WORDS;
        let offset = renames[base + RENAME_OFFSET_AT];
        let len = renames[base + RENAME_LENGTH_AT];
        let right = entry_right(offset, len, office);
        good = good & right;
    }
    good
}

// Whether all words are 0. The loop is never left early, so that it becomes vector code.
fn all_zero(words: &[u32]) -> bool
    ensures { result ≡ all_below (length words.now) (λ (i : ℕ). eqb (get_or words.now i 0) 0) }
{
    let mut good = true;
    for word in words {
        good = good & (*word == 0);
    }
    good
}

// Whether there is an entry for each track, and each is right (SCOPE 5.3). An office that renames nothing lends zeros, which are seen at once.
fn renames_right(tracks: &[u32], renames: &[u32], office: &[u8]) -> bool
    ensures { result ≡ renames_rule tracks.now renames.now office.now }
{
    let count = catalogue_tables::track_count(tracks);
    if renames.len() != count * RENAME_WORDS {
        return false;
    }
    if all_zero(renames) {
        return true;
    }
    entries_right(count, renames, office)
}

// The check of all that is lent: fine, or 200, or 224 (SCOPE 4.14, 5.3).
pub fn check(loan: &Loan) -> Result<(), Refusal>
    ensures { done_said result ≡ lent_said (lent loan.now) }
{
    catalogue_check::check(loan.groups, loan.tracks, loan.segments, loan.text)?;
    if !renames_right(loan.tracks, loan.renames, loan.office) {
        return Err(Refusal::from(Reason::BadRenames));
    }
    Ok(())
}

// The empty front of the card's text (SCOPE 5.7).
pub fn front_part() -> Part
    ensures { result ≡ front }
{
    Part {
        renamed: false,
        offset: 0,
        len: 0,
    }
}

// Where the title of a track stands (SCOPE 5.5).
pub fn part_of(tracks: &[u32], renames: &[u32], t: TrackNo) -> Part
    ensures { result ≡ part_of tracks.now renames.now t.0 }
{
    let len = catalogue_tables::word_in(renames, RENAME_WORDS, t.0, RENAME_LENGTH_AT);
    if len == 0 {
        let at = catalogue_tables::title_offset(tracks, t);
        let own = catalogue_tables::title_length(tracks, t);
        return Part {
            renamed: false,
            offset: at,
            len: own,
        };
    }
    let offset = catalogue_tables::word_in(renames, RENAME_WORDS, t.0, RENAME_OFFSET_AT);
    Part {
        renamed: true,
        offset: offset,
        len: len,
    }
}

// One of the two texts, as it was lent.
fn text_for<'a>(renamed: bool, text: &'a [u8], office: &'a [u8]) -> &'a [u8]
    ensures { result ≡ pick renamed office.entry text.entry }
{
    if renamed {
        return office;
    }
    text
}

// The part itself, never a copy (SCOPE 5.6). Where its text ends, it is cut off.
pub fn cut<'a>(part: Part, text: &'a [u8], office: &'a [u8]) -> &'a [u8]
    ensures result_value { result.now ≡ octets_at part text.now office.now }
    ensures part { Inside part (length text.now) (length office.now) → IsPart part text.entry office.entry result }
{
    let whole = text_for(part.renamed, text, office);
    let run = catalogue_tables::run_within(part.offset, part.len, whole.len());
    let a = run.start;
    let e = run.end;
    &whole[a..e]
}
