// The playing orders: moves along the current group's tracks (SCOPE 11.1 to 11.6).
#![tactic(auto)]

ghost use Rattle.std.specs.Prelude.{◌≡◌, ◌+◌, ◌-◌, ◌*◌, ◌<◌, ◌≤◌, ltb, length};
ghost use Rattle.ground.specs.Cases.{pick};
ghost use Rattle.ground.specs.Limits.{track_words};
ghost use Rattle.ground.specs.Lists.{span};
ghost use Rattle.player_walk.specs.Steps.{at, before, place, first_of, or_else, move_in};
ghost use Rattle.player_orders.specs.Order.{ordered, by_of, repeats, tracks_in_order, near_track, Run, InRun};
ghost use Rattle.player_orders.specs.Keys.{key_of, below};

// What a group's tracks are ordered by (SCOPE 11.1). Of equal stamps the lower number comes first (SCOPE 11.2).
#[derive(Clone, Copy)]
pub enum By {
    Number,
    Rising,
    Falling,
}

impl From<u8> for By {
    ghost from_gives = { λ order by. by ≡ by_of order };

    fn from(order: u8) -> By {
        if order <= 4 {
            return By::Number;
        }
        if order <= 6 {
            return By::Rising;
        }
        By::Falling
    }
}

// The most that a key can be, since no number is 2 ^ 32 - 1.
const MOST_KEY: u64 = 18446744073709551614;

// A number above every key.
const NO_KEY: u64 = 18446744073709551615;

// The key of a track: of two tracks, the one that comes before has the lesser key.
fn key(tracks: &[u32], by: By, t: catalogue_tables::TrackNo) -> u64
    requires { (t.0 < 4294967295) × (t.0 * track_words + track_words ≤ length tracks.now) }
    ensures { (result ≡ key_of by tracks.now t.0) × (result < 18446744073709551615) }
{
    let base = (t.0 as usize) * catalogue_tables::TRACK_WORDS;
    let stamp = ground::wide_word(tracks[base + catalogue_tables::STAMP_AT]) as u64;
    let number = t.0 as u64;
    match by {
        By::Number => number,
        By::Rising => stamp * 4294967296 + number,
        By::Falling => (4294967295 - stamp) * 4294967296 + number,
    }
}

// How many of the run's tracks have a key below x.
fn count_below(
    tracks: &[u32],
    by: By,
    first: catalogue_tables::TrackNo,
    count: u32,
    x: u64,
) -> usize
    requires { Run (length tracks.now) first.0 count }
    ensures { result ≡ below (key_of by tracks.now) x (span first.0 count) }
{
    let end = first.0 + count;
    let mut n: usize = 0;
    for i in first.0..end {
        let t = catalogue_tables::TrackNo(i);
        let y = key(tracks, by, t);
        let less = y < x;
        if less {
            n += 1;
        }
    }
    n
}

// The place of t in the order, counted from 0: how many tracks come before it. By number it is how far t lies from the first, so that nothing is counted.
#[tactic(auto, using(crate::proofs::Span::rank_is, crate::proofs::Span::place_small, crate::proofs::Numbers::number_place))]
pub fn rank(
    tracks: &[u32],
    by: By,
    first: catalogue_tables::TrackNo,
    count: u32,
    t: catalogue_tables::TrackNo,
) -> usize
    requires { InRun (length tracks.now) first.0 count t.0 }
    ensures { (result ≡ place t.0 (ordered by tracks.now first.0 count)) × (result < count) }
{
    match by {
        By::Number => (t.0 - first.0) as usize,
        _ => {
            let x = key(tracks, by, t);
            count_below(tracks, by, first, count, x)
        }
    }
}

// x itself; or, going back, how far it lies below the top. So the greatest number becomes the least, and one scan serves both ways.
fn turned(back: bool, top: u64, x: u64) -> u64
    requires { x ≤ top }
    ensures { result ≡ pick back (top - x) x }
{
    if back {
        return top - x;
    }
    x
}

// The better of y and best: y where it is at or above x and below best.
fn nearer(x: u64, y: u64, best: u64) -> u64
    ensures { result ≡ pick (ltb y x) best (pick (ltb y best) y best) }
{
    let under = y < x;
    if under {
        return best;
    }
    let better = y < best;
    if better {
        return y;
    }
    best
}

// The track with the least key at or above x; or, going back, the one with the greatest key below x. These two stand on either side of x in the order, since as
// many tracks come before the first of them as have a key below x.
fn beside(
    tracks: &[u32],
    by: By,
    first: catalogue_tables::TrackNo,
    count: u32,
    back: bool,
    x: u64,
) -> Option<catalogue_tables::TrackNo>
    requires { Run (length tracks.now) first.0 count }
    ensures { near_track result ≡ pick back before at (ordered by tracks.now first.0 count) (below (key_of by tracks.now) x (span first.0 count)) }
{
    let end = first.0 + count;
    let from = turned(back, NO_KEY, x);
    let mut best = NO_KEY;
    for i in first.0..end {
        let t = catalogue_tables::TrackNo(i);
        let y = key(tracks, by, t);
        let z = turned(back, MOST_KEY, y);
        best = nearer(from, z, best);
    }
    if best == NO_KEY {
        return None;
    }
    let y = turned(back, MOST_KEY, best);
    let number = (y % 4294967296) as u32;
    let t = catalogue_tables::TrackNo(number);
    Some(t)
}

// The track at place k, where there are few: the one that k tracks come before. A scan is made for each track up to it.
#[tactic(auto, using(ground::proofs::Cases::le_or, crate::proofs::Few::placed, crate::proofs::Few::some_placed))]
fn nth_of_few(
    tracks: &[u32],
    by: By,
    first: catalogue_tables::TrackNo,
    count: u32,
    k: usize,
) -> Option<catalogue_tables::TrackNo>
    requires run { Run (length tracks.now) first.0 count }
    requires k_lt_count { k < count }
    ensures { near_track result ≡ at (ordered by tracks.now first.0 count) k }
{
    let end = first.0 + count;
    for i in first.0..end {
        let t = catalogue_tables::TrackNo(i);
        let before = rank(tracks, by, first, count, t);
        if before == k {
            return Some(t);
        }
    }
    None
}

// The track at place k, where there are many: the one with the least key at or above a number that k keys are below. Halving the range of keys finds such a
// number.
fn nth_of_many(
    tracks: &[u32],
    by: By,
    first: catalogue_tables::TrackNo,
    count: u32,
    k: usize,
) -> Option<catalogue_tables::TrackNo>
    requires run { Run (length tracks.now) first.0 count }
    requires k_lt_count { k < count }
    ensures { near_track result ≡ at (ordered by tracks.now first.0 count) k }
{
    let mut lo: u64 = 0;
    let mut hi = NO_KEY;
    // Stays a loop: it halves a range of keys of which there is no slice, so that no range counts its turns and `partition_point` has nothing to look at.
    loop {
        let x = lo + (hi - lo) / 2;
        let n = count_below(tracks, by, first, count, x);
        if n == k {
            return beside(tracks, by, first, count, false, x);
        }
        if n < k {
            lo = x + 1;
        } else {
            hi = x;
        }
    }
}

// The track at place k of the order. By number it is k from the first. Counting takes on average half as many scans as there are tracks. Halving takes about 10
// where the stamps are dates, 30 where they are numbers up to 1000, and 64 where all are equal; so up to 32 tracks are counted.
#[tactic(auto, using(crate::proofs::Span::below_zero, crate::proofs::Numbers::number_at_lem, crate::proofs::Halve::too_far))]
pub fn nth(
    tracks: &[u32],
    by: By,
    first: catalogue_tables::TrackNo,
    count: u32,
    k: usize,
) -> Option<catalogue_tables::TrackNo>
    requires { Run (length tracks.now) first.0 count }
    ensures { near_track result ≡ at (ordered by tracks.now first.0 count) k }
{
    if (count as usize) <= k {
        return None;
    }
    match by {
        By::Number => {
            let t = catalogue_tables::TrackNo(first.0 + k as u32);
            Some(t)
        }
        _ => {
            if k == 0 {
                return beside(tracks, by, first, count, false, 0);
            }
            if count <= 32 {
                return nth_of_few(tracks, by, first, count, k);
            }
            nth_of_many(tracks, by, first, count, k)
        }
    }
}

// A move from t along the run, put in order, by way of places.
fn moved_by_places(
    tracks: &[u32],
    by: By,
    repeat: bool,
    first: catalogue_tables::TrackNo,
    count: u32,
    t: catalogue_tables::TrackNo,
    step: player_walk::Step,
) -> Option<catalogue_tables::TrackNo>
    requires { InRun (length tracks.now) first.0 count t.0 }
    ensures { near_track result ≡ move_in step repeat (ordered by tracks.now first.0 count) t.0 }
{
    let k = rank(tracks, by, first, count, t);
    let j = player_walk::place_after(step, repeat, count as usize, k)?;
    nth(tracks, by, first, count, j)
}

// The track beside x; or, where there is none and the order repeats, the track beside the number at the other end.
fn beside_or_end(
    tracks: &[u32],
    by: By,
    repeat: bool,
    first: catalogue_tables::TrackNo,
    count: u32,
    back: bool,
    x: u64,
    end: u64,
) -> Option<catalogue_tables::TrackNo>
    requires { Run (length tracks.now) first.0 count }
    ensures { near_track result ≡ or_else (pick back before at (ordered by tracks.now first.0 count) (below (key_of by tracks.now) x (span first.0 count))) repeat (pick back before at (ordered by tracks.now first.0 count) (below (key_of by tracks.now) end (span first.0 count))) }
{
    let near = beside(tracks, by, first, count, back, x);
    match near {
        None if repeat => beside(tracks, by, first, count, back, end),
        _ => near,
    }
}

// The same move by way of keys. The neighbours of t and the ends of the order are beside a number that is known, and one scan finds them. Goto alone goes by
// places.
#[tactic(auto, using(crate::proofs::Moves::to_previous, crate::proofs::Moves::to_next, crate::proofs::Moves::to_first, crate::proofs::Moves::to_last))]
fn moved_by_keys(
    tracks: &[u32],
    by: By,
    repeat: bool,
    first: catalogue_tables::TrackNo,
    count: u32,
    t: catalogue_tables::TrackNo,
    step: player_walk::Step,
) -> Option<catalogue_tables::TrackNo>
    requires { InRun (length tracks.now) first.0 count t.0 }
    ensures { near_track result ≡ move_in step repeat (ordered by tracks.now first.0 count) t.0 }
{
    let x = key(tracks, by, t);
    match step {
        player_walk::Step::Previous => beside_or_end(
            tracks, by, repeat, first, count, true, x, NO_KEY,
        ),
        player_walk::Step::Next => beside_or_end(tracks, by, repeat, first, count, false, x + 1, 0),
        player_walk::Step::First => beside(tracks, by, first, count, false, 0),
        player_walk::Step::Last => beside(tracks, by, first, count, true, NO_KEY),
        player_walk::Step::Goto(_) => moved_by_places(tracks, by, repeat, first, count, t, step),
    }
}

// The move by the shorter way: in the orders by number, places take no scan.
fn moved(
    tracks: &[u32],
    by: By,
    repeat: bool,
    first: catalogue_tables::TrackNo,
    count: u32,
    t: catalogue_tables::TrackNo,
    step: player_walk::Step,
) -> Option<catalogue_tables::TrackNo>
    requires { InRun (length tracks.now) first.0 count t.0 }
    ensures { near_track result ≡ move_in step repeat (ordered by tracks.now first.0 count) t.0 }
{
    match by {
        By::Number => moved_by_places(tracks, by, repeat, first, count, t, step),
        _ => moved_by_keys(tracks, by, repeat, first, count, t, step),
    }
}

// A move from the current track t of the group whose run is given (SCOPE 11.5, 11.6).
#[tactic(auto, using(crate::proofs::Moves::along_one, crate::proofs::Moves::along_run))]
pub fn track_after(
    tracks: &[u32],
    order: u8,
    first: catalogue_tables::TrackNo,
    count: u32,
    t: catalogue_tables::TrackNo,
    step: player_walk::Step,
) -> Option<catalogue_tables::TrackNo>
    requires { InRun (length tracks.now) first.0 count t.0 }
    ensures { near_track result ≡ move_in step (repeats order) (tracks_in_order order tracks.now first.0 count t.0) t.0 }
{
    let by = By::from(order);
    let repeat = order % 2 == 0;
    if order <= 2 {
        return moved(tracks, by, repeat, t, 1, t, step);
    }
    moved(tracks, by, repeat, first, count, t, step)
}

// A group's first track, when it is activated or moved to (SCOPE 11.4).
#[tactic(auto, using(crate::proofs::Moves::many), unfolding(crate::specs::Order::tracks_in_order))]
pub fn entry_track(
    tracks: &[u32],
    order: u8,
    first: catalogue_tables::TrackNo,
    count: u32,
) -> Option<catalogue_tables::TrackNo>
    requires { Run (length tracks.now) first.0 count }
    ensures { near_track result ≡ first_of (tracks_in_order order tracks.now first.0 count first.0) }
{
    if order <= 2 {
        return Some(first);
    }
    let by = By::from(order);
    nth(tracks, by, first, count, 0)
}
