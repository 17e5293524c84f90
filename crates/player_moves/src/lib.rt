// What the opcodes, the clock and the writes do to the player (SCOPE 8 to 14), over a catalogue that passes its check and a state that stands in it.
#![tactic(auto)]

ghost use Rattle.std.specs.Prelude.{◌≡◌, true, ℕ, ◌<◌};
ghost use Rattle.player_state.specs.Player.{at_position};
ghost use Rattle.player_state.specs.Positions.{held_sum};
ghost use Rattle.player_walk.specs.Signed.{signed_word};
ghost use Rattle.player_orders.specs.Order.{near_track};
ghost use Rattle.player_state.specs.Modes.{moved_to};
ghost use Rattle.player_groups.specs.Family.{Current};
ghost use Rattle.player_segments.specs.Segments.{near_position, Rising, Below};
ghost use Rattle.player_check.specs.Standing.{player_rule};
ghost use Rattle.catalogue_tables.specs.Tables.{starts_of, end_of};
ghost use Rattle.player_moves.specs.Moves.{end_now, past_last, track_after, next_track, group_after, entry_of, Shaped, Seated, Sits, RunOf};
ghost use Rattle.player_moves.specs.Control.{success, failed, onward, entered, moves_nothing, segment_moved, track_moved, acted, controlled};
ghost use Rattle.player_moves.specs.Clock.{is_below, stays_below, played_on, sought_on, advanced, positioned, group_written, activated};

// The result codes of the control point (SCOPE 9.4).
pub const SUCCESS: u8 = 1;

pub const NOT_SUPPORTED: u8 = 2;

pub const PLAYER_INACTIVE: u8 = 3;

pub const CANNOT_COMPLETE: u8 = 4;

// A result code, and the player afterwards.
#[derive(Clone, Copy)]
pub struct Controlled {
    pub result: u8,
    pub player: player_state::Player,
}

fn done(p: player_state::Player) -> Controlled
    ensures { result ≡ success p }
{
    Controlled {
        result: SUCCESS,
        player: p,
    }
}

fn undone(p: player_state::Player, res: u8) -> Controlled
    ensures { result ≡ failed res p }
{
    Controlled {
        result: res,
        player: p,
    }
}

// What Next Segment leads to past the last start of a track (SCOPE 10.4).
#[tactic(auto, using(ground::proofs::Cases::past, ground::proofs::Cases::here))]
pub fn past_last(tracks: &[u32], t: catalogue_tables::TrackNo) -> Option<catalogue_tables::Position>
    ensures { near_position result ≡ past_last tracks.now t.0 }
{
    if catalogue_tables::is_running(tracks, t) {
        return None;
    }
    let end = catalogue_tables::end(tracks, t);
    Some(end)
}

// Goto Segment 0 sets no position (SCOPE 10.7).
fn moves_nothing(step: player_walk::Step) -> bool
    ensures { result ≡ moves_nothing step }
{
    match step {
        player_walk::Step::Previous => false,
        player_walk::Step::Next => false,
        player_walk::Step::First => false,
        player_walk::Step::Last => false,
        player_walk::Step::Goto(n) => n == 0,
    }
}

#[tactic(auto, using(ground::proofs::Cases::past, ground::proofs::Cases::here, crate::proofs::Past::past_starts), unfolding(crate::specs::Moves::segment_after))]
fn move_segment(
    tracks: &[u32],
    segments: &[u32],
    p: player_state::Player,
    step: player_walk::Step,
) -> Controlled
    requires rising { Rising (starts_of tracks.now segments.now p.place.track.0) }
    requires below { Below (starts_of tracks.now segments.now p.place.track.0) (end_of tracks.now p.place.track.0) }
    ensures { result ≡ segment_moved tracks.now segments.now step p }
{
    let nothing = moves_nothing(step);
    if nothing {
        return done(p);
    }
    let t = p.place.track;
    let from = p.place.position;
    let past = past_last(tracks, t);
    let starts = catalogue_tables::starts(tracks, segments, t);
    let near = player_segments::segment_after(starts, past, from, step);
    match near {
        Some(to) => {
            let q = player_state::at_position(p, to);
            done(q)
        }
        None => undone(p, CANNOT_COMPLETE),
    }
}

#[tactic(auto, unfolding(crate::specs::Moves::track_after))]
fn near_track(
    groups: &[u32],
    tracks: &[u32],
    p: player_state::Player,
    step: player_walk::Step,
) -> Option<catalogue_tables::TrackNo>
    requires { Seated groups.now tracks.now p }
    ensures { near_track result ≡ track_after groups.now tracks.now step p }
{
    let g = p.place.group;
    let t = p.place.track;
    let first = catalogue_tables::first_track(groups, g);
    let count = catalogue_tables::tracks_in(groups, g);
    player_orders::track_after(tracks, p.mode.order, first, count, t, step)
}

// The next track: the one that a client named, or else that of the order (SCOPE 14.5).
#[tactic(auto, using(crate::proofs::Named::next_named, crate::proofs::Named::next_ordered))]
pub fn next_track(
    groups: &[u32],
    tracks: &[u32],
    p: player_state::Player,
) -> Option<catalogue_tables::TrackNo>
    requires { Seated groups.now tracks.now p }
    ensures { near_track result ≡ next_track groups.now tracks.now p }
{
    if p.upcoming != 0 {
        let t = catalogue_tables::TrackNo(p.upcoming - 1);
        return Some(t);
    }
    near_track(groups, tracks, p, player_walk::Step::Next)
}

// The player `from` goes to the track that was found in a group. Where none was found, the result is 4 and the player is p.
fn go_to(
    near: Option<catalogue_tables::TrackNo>,
    g: catalogue_tables::GroupNo,
    from: player_state::Player,
    p: player_state::Player,
) -> Controlled
    ensures { result ≡ onward (near_track near) (λ (t : ℕ). success (moved_to g.0 t from)) p }
{
    match near {
        Some(t) => {
            let q = player_state::move_to(from, g, t);
            done(q)
        }
        None => undone(p, CANNOT_COMPLETE),
    }
}

// A track move that goes by the order alone.
fn along_order(
    groups: &[u32],
    tracks: &[u32],
    p: player_state::Player,
    step: player_walk::Step,
) -> Controlled
    requires { Seated groups.now tracks.now p }
    ensures { result ≡ onward (track_after groups.now tracks.now step p) (λ (t : ℕ). success (moved_to p.place.group.0 t p)) p }
{
    let near = near_track(groups, tracks, p, step);
    go_to(near, p.place.group, p, p)
}

// Next Track goes to the next track, which a client may have named, and no track is named afterwards (SCOPE 14.5). The others go by the order (SCOPE 11.8).
#[tactic(auto, unfolding(crate::specs::Control::track_moved))]
fn move_track(
    groups: &[u32],
    tracks: &[u32],
    p: player_state::Player,
    step: player_walk::Step,
) -> Controlled
    requires { Seated groups.now tracks.now p }
    ensures { result ≡ track_moved groups.now tracks.now step p }
{
    match step {
        player_walk::Step::Next => {
            let near = next_track(groups, tracks, p);
            let used = player_state::drop_named(p);
            go_to(near, p.place.group, used, p)
        }
        player_walk::Step::Previous => along_order(groups, tracks, p, step),
        player_walk::Step::First => along_order(groups, tracks, p, step),
        player_walk::Step::Last => along_order(groups, tracks, p, step),
        player_walk::Step::Goto(_) => along_order(groups, tracks, p, step),
    }
}

// A group's first track (SCOPE 11.4).
#[tactic(auto, unfolding(crate::specs::Moves::entry_of))]
fn entry(
    groups: &[u32],
    tracks: &[u32],
    order: u8,
    g: catalogue_tables::GroupNo,
) -> Option<catalogue_tables::TrackNo>
    requires { RunOf groups.now tracks.now g.0 }
    ensures { near_track result ≡ entry_of groups.now tracks.now order g.0 }
{
    let first = catalogue_tables::first_track(groups, g);
    let count = catalogue_tables::tracks_in(groups, g);
    player_orders::entry_track(tracks, order, first, count)
}

pub fn enter(
    groups: &[u32],
    tracks: &[u32],
    p: player_state::Player,
    g: catalogue_tables::GroupNo,
) -> Controlled
    requires { RunOf groups.now tracks.now g.0 }
    ensures { result ≡ entered groups.now tracks.now p g.0 }
{
    let near = entry(groups, tracks, p.mode.order, g);
    go_to(near, g, p, p)
}

#[tactic(auto, using(player_groups::proofs::Laws::stays_current), unfolding(crate::specs::Moves::group_after))]
fn move_group(
    groups: &[u32],
    tracks: &[u32],
    p: player_state::Player,
    step: player_walk::Step,
) -> Controlled
    requires current { Current groups.now p.place.group.0 }
    requires by_index { (g : ℕ) → Current groups.now g → RunOf groups.now tracks.now g }
    ensures { result ≡ onward (group_after groups.now step p) (entered groups.now tracks.now p) p }
{
    let g = p.place.group;
    let near = player_groups::group_after(groups, g, step);
    match near {
        Some(h) => enter(groups, tracks, p, h),
        None => undone(p, CANNOT_COMPLETE),
    }
}

fn move_relative(tracks: &[u32], p: player_state::Player, number: u32) -> player_state::Player
    ensures { result ≡ at_position (held_sum (end_now tracks.now p) p.place.position.0 (signed_word number)) p }
{
    let end = catalogue_tables::end(tracks, p.place.track);
    let to = player_state::held_sum(end, p.place.position, number);
    player_state::at_position(p, to)
}

// An action on a player that is not Inactive.
#[tactic(auto, using(crate::proofs::Ready::current_run, crate::proofs::Ready::below_now), unfolding(crate::specs::Control::acted))]
fn act(
    groups: &[u32],
    tracks: &[u32],
    segments: &[u32],
    p: player_state::Player,
    action: player_opcodes::Action,
) -> Controlled
    requires shaped { Shaped groups.now tracks.now segments.now }
    requires p_value { player_rule groups.now tracks.now p ≡ true }
    requires media_nonzero { 0 < p.mode.media }
    ensures { result ≡ acted groups.now tracks.now segments.now action p }
{
    match action {
        player_opcodes::Action::Play => {
            let q = player_state::in_mode(p, player_state::PLAYING, 0);
            done(q)
        }
        player_opcodes::Action::Pause => {
            let q = player_state::in_mode(p, player_state::PAUSED, 0);
            done(q)
        }
        player_opcodes::Action::Rewind => {
            let q = player_state::fast_rewind(p);
            done(q)
        }
        player_opcodes::Action::Forward => {
            let q = player_state::fast_forward(p);
            done(q)
        }
        player_opcodes::Action::Stop => {
            let q = player_state::in_mode(p, player_state::PAUSED, 0);
            let begin = catalogue_tables::Position(0);
            let s = player_state::at_position(q, begin);
            done(s)
        }
        player_opcodes::Action::Relative(n) => {
            let q = move_relative(tracks, p, n);
            done(q)
        }
        player_opcodes::Action::Segment(step) => move_segment(tracks, segments, p, step),
        player_opcodes::Action::Track(step) => move_track(groups, tracks, p, step),
        player_opcodes::Action::Group(step) => move_group(groups, tracks, p, step),
        player_opcodes::Action::Unknown => undone(p, NOT_SUPPORTED),
    }
}

// A write to the control point: an opcode, and the number that it may carry (SCOPE 9.4).
#[tactic(auto, using(ground::proofs::Cases::past, ground::proofs::Cases::here), unfolding(crate::specs::Control::controlled))]
pub fn control(
    groups: &[u32],
    tracks: &[u32],
    segments: &[u32],
    p: player_state::Player,
    opcode: u8,
    number: u32,
) -> Controlled
    requires shaped { Shaped groups.now tracks.now segments.now }
    requires p_value { player_rule groups.now tracks.now p ≡ true }
    ensures { result ≡ controlled groups.now tracks.now segments.now opcode number p }
{
    if !player_opcodes::is_offered(p.offer.mask, opcode) {
        return undone(p, NOT_SUPPORTED);
    }
    if p.mode.media == player_state::INACTIVE {
        return undone(p, PLAYER_INACTIVE);
    }
    let action = player_opcodes::action_of(opcode, number);
    act(groups, tracks, segments, p, action)
}

// Whether the position, so many hundredths further, is below the current track's end (SCOPE 13.4).
fn is_below(tracks: &[u32], p: player_state::Player, whole: u32) -> bool
    ensures { result ≡ is_below tracks.now whole p }
{
    let end = catalogue_tables::end(tracks, p.place.track);
    let to = (p.place.position.0 as u64) + (whole as u64);
    to < (end.0 as u64)
}

// Whether an advance by d stays below the current track's end.
pub fn stays_below(tracks: &[u32], p: player_state::Player, d: u32) -> bool
    ensures { result ≡ stays_below tracks.now d p }
{
    let on = player_clock::step(p.place.rest, d, p.mode.speed);
    is_below(tracks, p, on.whole)
}

// An advance in Playing: on by a step of the clock (SCOPE 13.3). At the end a running recording stays there (SCOPE 13.6). Any other track has ended: the player
// goes to the next track, which may be a named one, or is Paused at the end (SCOPE 13.5).
#[tactic(auto, using(ground::proofs::Cases::past, ground::proofs::Cases::here, crate::proofs::Past::end_le), unfolding(crate::specs::Clock::played_on))]
fn play_on(groups: &[u32], tracks: &[u32], p: player_state::Player, d: u32) -> player_state::Player
    requires { Seated groups.now tracks.now p }
    ensures { result ≡ played_on groups.now tracks.now d p }
{
    let step = player_clock::step(p.place.rest, d, p.mode.speed);
    let below = is_below(tracks, p, step.whole);
    if below {
        let sum = p.place.position.0 + step.whole;
        let to = catalogue_tables::Position(sum);
        return player_state::clocked_to(p, to, step.rest);
    }
    let t = p.place.track;
    let running = catalogue_tables::is_running(tracks, t);
    if running {
        let last = catalogue_tables::end(tracks, t);
        return player_state::clocked_to(p, last, p.place.rest);
    }
    let near = next_track(groups, tracks, p);
    match near {
        Some(t) => {
            let g = p.place.group;
            let begin = catalogue_tables::Position(0);
            let used = player_state::drop_named(p);
            player_state::at_place(used, g, t, begin)
        }
        None => {
            let q = player_state::in_mode(p, player_state::PAUSED, 0);
            let end = catalogue_tables::end(tracks, p.place.track);
            player_state::at_position(q, end)
        }
    }
}

#[tactic(auto, unfolding(crate::specs::Clock::sought_on))]
fn seek_on(tracks: &[u32], p: player_state::Player, d: u32) -> player_state::Player
    ensures { result ≡ sought_on tracks.now d p }
{
    let end = catalogue_tables::end(tracks, p.place.track);
    let to = player_state::sought_position(end, p.place.position, p.mode.seeking, d);
    player_state::at_position(p, to)
}

// An advance: a step of time (SCOPE 13.1).
#[tactic(auto, using(ground::proofs::Cases::past, ground::proofs::Cases::here), unfolding(crate::specs::Clock::advanced))]
pub fn advance(
    groups: &[u32],
    tracks: &[u32],
    p: player_state::Player,
    d: u32,
) -> player_state::Player
    requires { Sits groups.now tracks.now p }
    ensures { result ≡ advanced groups.now tracks.now d p }
{
    if p.mode.media == player_state::PLAYING {
        return play_on(groups, tracks, p, d);
    }
    if p.mode.media == player_state::SEEKING {
        return seek_on(tracks, p, d);
    }
    p
}

#[tactic(auto, using(ground::proofs::Cases::past, ground::proofs::Cases::here), unfolding(crate::specs::Clock::positioned))]
pub fn write_position(tracks: &[u32], p: player_state::Player, number: u32) -> player_state::Player
    ensures { result ≡ positioned tracks.now number p }
{
    if p.mode.media == player_state::INACTIVE {
        return p;
    }
    let t = p.place.track;
    let running = catalogue_tables::is_running(tracks, t);
    let negative = player_walk::is_negative(number);
    if running & negative {
        return p;
    }
    let end = catalogue_tables::end(tracks, t);
    let to = player_state::written_position(end, number);
    player_state::at_position(p, to)
}

// A write of 14 goes to a group that has tracks (SCOPE 14.3).
#[tactic(auto, unfolding(crate::specs::Clock::group_written))]
pub fn write_group(
    groups: &[u32],
    tracks: &[u32],
    p: player_state::Player,
    g: catalogue_tables::GroupNo,
) -> player_state::Player
    requires { RunOf groups.now tracks.now g.0 }
    ensures { result ≡ group_written groups.now tracks.now g.0 p }
{
    let gone = enter(groups, tracks, p, g);
    gone.player
}

// A group that has tracks is activated (SCOPE 8.9).
#[tactic(auto, unfolding(crate::specs::Clock::activated))]
pub fn activate(
    groups: &[u32],
    tracks: &[u32],
    p: player_state::Player,
    g: catalogue_tables::GroupNo,
) -> player_state::Player
    requires { RunOf groups.now tracks.now g.0 }
    ensures { result ≡ activated groups.now tracks.now g.0 p }
{
    let near = entry(groups, tracks, p.mode.order, g);
    match near {
        Some(t) => {
            let q = player_state::in_mode(p, player_state::PAUSED, 0);
            let begin = catalogue_tables::Position(0);
            player_state::at_place(q, g, t, begin)
        }
        None => p,
    }
}
