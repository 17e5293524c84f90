// The manual's Goto of a player (SCOPE 15), over a catalogue that passes its check and a state that stands in it: what the three Gotos come to by single steps.
#![tactic(auto)]

ghost use Rattle.std.specs.Prelude.{◌≡◌, true, ◌&&◌, ℕ};
ghost use Rattle.catalogue_tables.specs.Tables.{starts_of, end_of};
ghost use Rattle.player_groups.specs.Family.{Current};
ghost use Rattle.player_opcodes.specs.Opcodes.{offered};
ghost use Rattle.player_segments.specs.Segments.{Rising, Below};
ghost use Rattle.player_check.specs.Standing.{player_rule};
ghost use Rattle.player_moves.specs.Moves.{Shaped, Seated, RunOf};
ghost use Rattle.player_goto.specs.Goto.{is_goto, segment_gone, track_gone, group_gone, gone};

use player_manual::Made;

// The opcodes of the three Gotos (SCOPE 9.1).
const GOTO_SEGMENT: u32 = 0x24;

const GOTO_TRACK: u32 = 0x34;

const GOTO_GROUP: u32 = 0x44;

// What stands in place of a result code where the allowed steps ran out (SCOPE 15.5).
const RAN_OUT: u8 = 0;

// A result code, or that the allowed steps ran out; the steps that are counted, First or Last and a step that cannot be made among them (SCOPE 15.2, 15.4); and
// the player as it would be.
#[derive(Clone, Copy)]
pub struct Gone {
    pub outcome: u8,
    pub steps: u32,
    pub player: player_state::Player,
}

// Whether an opcode is one of the three, and in the mask.
fn is_offered_goto(mask: u32, opcode: u32) -> bool
    ensures { result ≡ (is_goto opcode && offered mask opcode) }
{
    match opcode {
        GOTO_SEGMENT => player_opcodes::is_offered(mask, 0x24),
        GOTO_TRACK => player_opcodes::is_offered(mask, 0x34),
        GOTO_GROUP => player_opcodes::is_offered(mask, 0x44),
        _ => false,
    }
}

#[tactic(auto, using(ground::proofs::Cases::past, ground::proofs::Cases::here, player_moves::proofs::Past::past_starts, crate::proofs::Reached::reached), unfolding(crate::specs::Goto::segment_gone, player_moves::specs::Moves::segment_after))]
fn goto_segment(
    tracks: &[u32],
    segments: &[u32],
    p: player_state::Player,
    n: u32,
    allowed: u32,
) -> Gone
    requires rising { Rising (starts_of tracks.now segments.now p.place.track.0) }
    requires below { Below (starts_of tracks.now segments.now p.place.track.0) (end_of tracks.now p.place.track.0) }
    ensures { result ≡ segment_gone tracks.now segments.now n allowed p }
{
    if n == 0 {
        return Gone {
            outcome: player_moves::SUCCESS,
            steps: 0,
            player: p,
        };
    }
    let t = p.place.track;
    let from = p.place.position;
    let past = player_moves::past_last(tracks, t);
    let starts = catalogue_tables::starts(tracks, segments, t);
    let made = player_steps::goto_segment(starts, past, from, n, allowed);
    match made {
        Made::All(to, steps) => {
            let q = player_state::at_position(p, to);
            Gone {
                outcome: player_moves::SUCCESS,
                steps: steps,
                player: q,
            }
        }
        Made::Stopped(steps) => Gone {
            outcome: player_moves::CANNOT_COMPLETE,
            steps: steps,
            player: p,
        },
        Made::RanOut(steps) => Gone {
            outcome: RAN_OUT,
            steps: steps,
            player: p,
        },
    }
}

#[tactic(auto, using(crate::proofs::Reached::reached), unfolding(player_moves::specs::Moves::track_after, crate::specs::Goto::track_gone))]
fn goto_track(groups: &[u32], tracks: &[u32], p: player_state::Player, n: u32, allowed: u32) -> Gone
    requires { Seated groups.now tracks.now p }
    ensures { result ≡ track_gone groups.now tracks.now n allowed p }
{
    let g = p.place.group;
    let t = p.place.track;
    let first = catalogue_tables::first_track(groups, g);
    let count = catalogue_tables::tracks_in(groups, g);
    let made = player_steps::goto_track(tracks, p.mode.order, first, count, t, n, allowed);
    match made {
        Made::All(to, steps) => {
            let q = player_state::move_to(p, g, to);
            Gone {
                outcome: player_moves::SUCCESS,
                steps: steps,
                player: q,
            }
        }
        Made::Stopped(steps) => Gone {
            outcome: player_moves::CANNOT_COMPLETE,
            steps: steps,
            player: p,
        },
        Made::RanOut(steps) => Gone {
            outcome: RAN_OUT,
            steps: steps,
            player: p,
        },
    }
}

#[tactic(auto, using(player_steps::proofs::Groups::leads_current, crate::proofs::Reached::reached), unfolding(player_moves::specs::Moves::group_after, crate::specs::Goto::group_gone))]
fn goto_group(groups: &[u32], tracks: &[u32], p: player_state::Player, n: u32, allowed: u32) -> Gone
    requires current { Current groups.now p.place.group.0 }
    requires by_index { (g : ℕ) → Current groups.now g → RunOf groups.now tracks.now g }
    ensures { result ≡ group_gone groups.now tracks.now n allowed p }
{
    let g = p.place.group;
    let made = player_steps::goto_group(groups, g, n, allowed);
    match made {
        Made::All(to, steps) => {
            let entered = player_moves::enter(groups, tracks, p, to);
            let q = entered.player;
            Gone {
                outcome: entered.result,
                steps: steps,
                player: q,
            }
        }
        Made::Stopped(steps) => Gone {
            outcome: player_moves::CANNOT_COMPLETE,
            steps: steps,
            player: p,
        },
        Made::RanOut(steps) => Gone {
            outcome: RAN_OUT,
            steps: steps,
            player: p,
        },
    }
}

// Goto a signed number, given as its word in two's complement, with so many steps allowed (SCOPE 15.1).
#[tactic(auto, using(player_moves::proofs::Ready::current_run, player_moves::proofs::Ready::below_now), unfolding(crate::specs::Goto::gone))]
pub fn goto_by_steps(
    groups: &[u32],
    tracks: &[u32],
    segments: &[u32],
    p: player_state::Player,
    opcode: u32,
    n: u32,
    allowed: u32,
) -> Gone
    requires shaped { Shaped groups.now tracks.now segments.now }
    requires p_value { player_rule groups.now tracks.now p ≡ true }
    ensures { result ≡ gone groups.now tracks.now segments.now opcode n allowed p }
{
    if !is_offered_goto(p.offer.mask, opcode) {
        return Gone {
            outcome: player_moves::NOT_SUPPORTED,
            steps: 0,
            player: p,
        };
    }
    if p.mode.media == player_state::INACTIVE {
        return Gone {
            outcome: player_moves::PLAYER_INACTIVE,
            steps: 0,
            player: p,
        };
    }
    if opcode == GOTO_SEGMENT {
        return goto_segment(tracks, segments, p, n, allowed);
    }
    if opcode == GOTO_TRACK {
        return goto_track(groups, tracks, p, n, allowed);
    }
    goto_group(groups, tracks, p, n, allowed)
}
