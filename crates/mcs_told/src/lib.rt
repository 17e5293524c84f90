// What C is told of an answer, and how it is told: the words that a call has for it, and the octets of the state.
#![tactic(auto)]

ghost use Rattle.std.specs.Prelude.{◌≡◌, [], ◌∷◌, ◌≤◌, length as len, get_or};
ghost use Rattle.ground.specs.Cases.{pick};
ghost use Rattle.catalogue_titles.specs.Titles.{part_values};
ghost use Rattle.desk_replies.specs.Replies.{said_of};
ghost use Rattle.desk_goto.specs.Manual.{made_values, place_values};
ghost use Rattle.card_load.specs.Load.{said_of as loadSaidOf};
ghost use Rattle.ground.specs.Refusals.{refusal_of, granted as grantedWith, count_said};
ghost use Rattle.mcs_told.specs.Calls.{AllWords, shown_said, shown_after, told_of, told_after, words_after, track_after, offset_after};

use card_load::Counts;
use catalogue_titles::Part;
use desk_goto::Arrival;
use desk_replies::Reply;
use ground::{Carried, Refusal};

// The numbers of the texts that a title may be a part of.
const CARD_TEXT: u32 = 0;

const OFFICE_TEXT: u32 = 1;

// What C is told of an answer: whether the call is accepted, or else whether its refusal carries something, and whether that is a title's track and an offset;
// the number (SCOPE 20.2), 0 where the call is accepted; and the values as words, 0 where there is none.
// Stays as flags beside words: the C interface has words of its own for each of these, and what is said of an answer is written over them as it is.
#[derive(Clone, Copy)]
pub struct Told {
    pub granted: bool,
    pub carries: bool,
    pub titled: bool,
    pub number: u32,
    pub values: [u32; 4],
}

fn refused(r: Refusal) -> Told
    ensures { result ≡ told_of (refusal_of r) }
{
    let number = u32::from(r.reason);
    match r.carried {
        Carried::Nothing => Told {
            granted: false,
            carries: false,
            titled: false,
            number: number,
            values: [0; 4],
        },
        Carried::One(value) => Told {
            granted: false,
            carries: true,
            titled: false,
            number: number,
            values: [(value % 4294967296) as u32, 0, 0, 0],
        },
        Carried::Two(first, second) => Told {
            granted: false,
            carries: true,
            titled: true,
            number: number,
            values: [
                (first % 4294967296) as u32,
                (second % 4294967296) as u32,
                0,
                0,
            ],
        },
    }
}

fn granted(first: usize, second: usize, third: usize, fourth: usize) -> Told
    ensures { result ≡ told_of (grantedWith (first ∷ second ∷ third ∷ fourth ∷ [])) }
{
    Told {
        granted: true,
        carries: false,
        titled: false,
        number: 0,
        values: [
            (first % 4294967296) as u32,
            (second % 4294967296) as u32,
            (third % 4294967296) as u32,
            (fourth % 4294967296) as u32,
        ],
    }
}

// What is told of an answer of the calls on the state, of card load's, of one that is a count, and of one that has words of its own.
pub fn told_of(a: Result<Reply, Refusal>) -> Told
    ensures { result ≡ told_of (said_of a) }
{
    match a {
        Ok(Reply::Done) => granted(0, 0, 0, 0),
        Ok(Reply::Octets(n)) => granted(n, 0, 0, 0),
        Ok(Reply::Served(who, service, characteristic, n)) => {
            granted(
                ground::wide_word(who),
                ground::wide_word(service),
                ground::wide_word(characteristic),
                n,
            )
        }
        Ok(Reply::Handed(service, characteristic, n)) => {
            granted(
                ground::wide_word(service),
                ground::wide_word(characteristic),
                n,
                0,
            )
        }
        Err(r) => refused(r),
    }
}

pub fn told_of_load(answer: Result<Counts, Refusal>) -> Told
    ensures { result ≡ told_of (loadSaidOf answer) }
{
    match answer {
        Ok(c) => granted(c.groups, c.tracks, c.segments, c.text),
        Err(r) => refused(r),
    }
}

pub fn told_of_count(answer: Result<usize, Refusal>) -> Told
    ensures { result ≡ told_of (count_said answer) }
{
    match answer {
        Ok(count) => granted(count, 0, 0, 0),
        Err(r) => refused(r),
    }
}

pub fn told_of_shown<T: Copy>(answer: Result<T, Refusal>) -> Told
    ensures { result ≡ told_of (shown_said answer) }
{
    match answer {
        Ok(_) => granted(0, 0, 0, 0),
        Err(r) => refused(r),
    }
}

// The number of an object that was read, and its entries counted: octets may be so many that their entries are more than a word of 32 bits counts.
pub fn tell_count(answer: Result<usize, Refusal>, count: &mut [usize]) -> u32
    requires { len count.old ≡ 1 }
    ensures value { result ≡ (count_said answer).number }
    ensures count_after { count.new ≡ words_after (count_said answer) count.old }
{
    match answer {
        Ok(n) => {
            count[0] = n;
            0
        }
        Err(r) => u32::from(r.reason),
    }
}

// The values, over words that the caller has for them, where `on` says so.
pub fn tell(on: bool, values: [u32; 4], words: &mut [u32])
    requires { len words.old ≤ 4 }
    ensures { words.new ≡ told_after on values words.old }
{
    if on {
        ground::copy(words, &values[..words.len()]);
    }
}

// Where a text is wrong, over the words that the caller has for it: the track of a bad title, and the offset in the title or in the name.
pub fn tell_place(t: Told, track: &mut [u32], octet: &mut [u32])
    requires track_value { len track.old ≡ 1 }
    requires octet_value { len octet.old ≡ 1 }
    ensures track_after { track.new ≡ told_after t.titled t.values track.old }
    ensures octet_after { octet.new ≡ told_after t.carries (pick t.titled (get_or t.values 1 0) (get_or t.values 0 0) ∷ []) octet.old }
{
    let values = t.values;
    tell(t.titled, values, track);
    if t.carries {
        if t.titled {
            octet[0] = values[1];
        } else {
            octet[0] = values[0];
        }
    }
}

// The number of the text that a title is a part of.
fn text_number(renamed: bool) -> u32
    ensures { result ≡ pick renamed 1 0 }
{
    if renamed {
        return OFFICE_TEXT;
    }
    CARD_TEXT
}

// Of which text a title is a part, its offset and its length, over the words that the caller has for it.
pub fn tell_part(answer: Result<Part, Refusal>, part: &mut [u32])
    requires { len part.old ≡ 3 }
    ensures { part.new ≡ shown_after part_values answer part.old }
{
    if let Ok(title) = answer {
        ground::copy(part, &[text_number(title.renamed), title.offset, title.len]);
    }
}

// What a manual's Goto comes to, and where the player would be, over the words that the caller has for them.
pub fn tell_arrival(answer: Result<Arrival, Refusal>, made: &mut [u32], place: &mut [u32])
    requires made_value { len made.old ≡ 2 }
    requires place_value { len place.old ≡ 4 }
    ensures made_after { made.new ≡ shown_after made_values answer made.old }
    ensures place_after { place.new ≡ shown_after place_values answer place.old }
{
    if let Ok(a) = answer {
        ground::copy(made, &[u32::from(a.outcome), a.steps]);
        ground::copy(
            place,
            &[
                a.place.group.0,
                a.place.track.0,
                a.place.position.0,
                a.place.rest,
            ],
        );
    }
}

// What every call on the state does at its end.
pub fn finish(answer: Result<Reply, Refusal>, track: &mut [u32], octet: &mut [u32]) -> u32
    requires track_value { len track.old ≡ 1 }
    requires octet_value { len octet.old ≡ 1 }
    requires all_words { AllWords (said_of answer).values }
    ensures value { result ≡ (said_of answer).number }
    ensures track_after { track.new ≡ track_after (said_of answer) track.old }
    ensures octet_after { octet.new ≡ offset_after (said_of answer) octet.old }
{
    let t = told_of(answer);
    tell_place(t, track, octet);
    t.number
}
