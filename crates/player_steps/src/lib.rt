// The manual's Goto along tracks, groups and segments (SCOPE 15). Tracks and groups are walked on their places, and what stands at the last place is looked up
// once. Segments are walked from position to position.
#![tactic(auto)]

ghost use Rattle.std.specs.Prelude.{◌≡◌, ◌-◌, ◌<◌, length};
ghost use Rattle.player_walk.specs.Steps.{at, place};
ghost use Rattle.player_manual.specs.Made.{more, steps, from_end, by_steps};
ghost use Rattle.player_manual.specs.Places.{on_places, onto};
ghost use Rattle.player_orders.specs.Order.{ordered, InRun};
ghost use Rattle.player_groups.specs.Family.{Current};
ghost use Rattle.player_segments.specs.Segments.{near_position, Rising, Past};
ghost use Rattle.player_steps.specs.Stepping.{along_tracks, along_groups, along_segments, tracks_made, groups_made, segments_made};

use player_manual::Made;

// From t along the run, put in order: on places, and then what stands there.
#[tactic(auto, using(player_manual::proofs::Along::landing))]
fn along_run(
    tracks: &[u32],
    by: player_orders::By,
    repeat: bool,
    first: catalogue_tables::TrackNo,
    count: u32,
    t: catalogue_tables::TrackNo,
    n: u32,
    allowed: u32,
) -> Made<catalogue_tables::TrackNo>
    requires { InRun (length tracks.now) first.0 count t.0 }
    ensures { tracks_made result ≡ onto (at (ordered by tracks.now first.0 count)) (by_steps (on_places repeat count) n allowed (place t.0 (ordered by tracks.now first.0 count))) }
{
    let k = player_orders::rank(tracks, by, first, count, t);
    let made = player_manual::goto_by_steps(n, allowed, repeat, count as usize, k);
    match made {
        Made::All(j, steps) => {
            let near = player_orders::nth(tracks, by, first, count, j);
            match near {
                Some(to) => Made::All(to, steps),
                None => Made::Stopped(steps),
            }
        }
        Made::Stopped(steps) => Made::Stopped(steps),
        Made::RanOut(steps) => Made::RanOut(steps),
    }
}

// Goto Track by single steps, from the current track t of the group whose run is given.
pub fn goto_track(
    tracks: &[u32],
    order: u8,
    first: catalogue_tables::TrackNo,
    count: u32,
    t: catalogue_tables::TrackNo,
    n: u32,
    allowed: u32,
) -> Made<catalogue_tables::TrackNo>
    requires { InRun (length tracks.now) first.0 count t.0 }
    ensures { tracks_made result ≡ by_steps (along_tracks order tracks.now first.0 count) n allowed t.0 }
{
    let by = player_orders::By::from(order);
    let repeat = order % 2 == 0;
    if order <= 2 {
        return along_run(tracks, by, repeat, t, 1, t, n, allowed);
    }
    along_run(tracks, by, repeat, first, count, t, n, allowed)
}

// Goto Group by single steps, from the current group.
#[tactic(auto, using(player_manual::proofs::Along::landing, player_groups::proofs::Moves::place_within, crate::proofs::Groups::walked_alone, crate::proofs::Groups::walked_line))]
pub fn goto_group(
    groups: &[u32],
    g: catalogue_tables::GroupNo,
    n: u32,
    allowed: u32,
) -> Made<catalogue_tables::GroupNo>
    requires { Current groups.now g.0 }
    ensures { groups_made result ≡ by_steps (along_groups groups.now) n allowed g.0 }
{
    if g.0 == 0 {
        let alone = player_manual::goto_by_steps(n, allowed, false, 1, 0);
        match alone {
            Made::All(_, steps) => {
                return Made::All(g, steps);
            }
            Made::Stopped(steps) => {
                return Made::Stopped(steps);
            }
            Made::RanOut(steps) => {
                return Made::RanOut(steps);
            }
        }
    }
    let count = catalogue_tables::group_count(groups) as u32;
    let bound = catalogue_tables::GroupNo(count);
    let k = player_groups::siblings_below(groups, g, g);
    let len = player_groups::siblings_below(groups, g, bound);
    let made = player_manual::goto_by_steps(n, allowed, false, len, k);
    match made {
        Made::All(j, steps) => {
            let near = player_groups::nth_sibling(groups, g, bound, j);
            match near {
                Some(to) => Made::All(to, steps),
                None => Made::Stopped(steps),
            }
        }
        Made::Stopped(steps) => Made::Stopped(steps),
        Made::RanOut(steps) => Made::RanOut(steps),
    }
}

// The steps behind the first one, which is counted already: `wanted` more, from a position.
fn segments_on(
    starts: &[u32],
    past: Option<catalogue_tables::Position>,
    step: player_walk::Step,
    from: catalogue_tables::Position,
    wanted: u32,
    allowed: u32,
) -> Made<catalogue_tables::Position>
    requires rising { Rising starts.now }
    requires past { Past starts.now (near_position past) }
    requires allowed_nonzero { 0 < allowed }
    ensures { segments_made result ≡ more 1 (steps (along_segments starts.now (near_position past) step) (allowed - 1) wanted from.0) }
{
    let mut at = from;
    let mut made: u32 = 1;
    for i in 0..wanted {
        if made == allowed {
            return Made::RanOut(made);
        }
        made += 1;
        let near = player_segments::segment_after(starts, past, at, step);
        let Some(next) = near else {
            return Made::Stopped(made);
        };
        at = next;
    }
    Made::All(at, made)
}

// First or Last, and then the steps.
#[tactic(auto, using(player_manual::proofs::Steps::none_allowed, player_manual::proofs::Steps::no_end, player_manual::proofs::Steps::at_end_lem))]
fn segments_from_end(
    starts: &[u32],
    past: Option<catalogue_tables::Position>,
    end: player_walk::Step,
    step: player_walk::Step,
    position: catalogue_tables::Position,
    wanted: u32,
    allowed: u32,
) -> Made<catalogue_tables::Position>
    requires rising { Rising starts.now }
    requires past { Past starts.now (near_position past) }
    ensures { segments_made result ≡ from_end (along_segments starts.now (near_position past) end position.0) (along_segments starts.now (near_position past) step) allowed wanted }
{
    if allowed == 0 {
        return Made::RanOut(0);
    }
    let near = player_segments::segment_after(starts, past, position, end);
    match near {
        Some(start) => { segments_on(starts, past, step, start, wanted, allowed) }
        None => Made::Stopped(1),
    }
}

// Goto Segment by single steps, from a position of a track. `past` is what Next Segment leads to past the last start: D, or nothing.
pub fn goto_segment(
    starts: &[u32],
    past: Option<catalogue_tables::Position>,
    position: catalogue_tables::Position,
    n: u32,
    allowed: u32,
) -> Made<catalogue_tables::Position>
    requires rising { Rising starts.now }
    requires past { Past starts.now (near_position past) }
    ensures { segments_made result ≡ by_steps (along_segments starts.now (near_position past)) n allowed position.0 }
{
    let way = player_walk::way_of(n);
    match way {
        player_walk::Way::Stay => Made::All(position, 0),
        player_walk::Way::Ahead(m) => {
            let first = player_walk::Step::First;
            let next = player_walk::Step::Next;
            segments_from_end(starts, past, first, next, position, m, allowed)
        }
        player_walk::Way::Back(m) => {
            let last = player_walk::Step::Last;
            let previous = player_walk::Step::Previous;
            segments_from_end(starts, past, last, previous, position, m, allowed)
        }
    }
}
