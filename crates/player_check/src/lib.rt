// Whether a state of the player stands in a catalogue (SCOPE 20.5). Any state and any tables are taken.
#![tactic(auto)]

ghost use Rattle.std.specs.Prelude.{◌≡◌, ◌∷◌, []};
ghost use Rattle.ground.specs.Refusals.{said_by};
ghost use Rattle.text.specs.Utf8.{said_of};
ghost use Rattle.player_check.specs.Standing.{name_row, group_rule, name_rule, member, mode_rule, in_group, place_rule, upcoming_rule, player_rule};
ghost use Rattle.player_state.specs.Modes.{rungs};

// A name that is handed in: at most 128 octets of UTF-8, or where it is wrong (SCOPE 8.3, 20.4).
#[tactic(auto, unfolding(crate::specs::Standing::text_rule, crate::specs::Standing::name_carries, text::specs::Utf8::text_said))]
pub fn check_name(name: &[u8]) -> Result<(), text::NotText>
    ensures { said_of result ≡ said_by (name_row name.now ∷ []) }
{
    if ground::MOST_TITLE < name.len() {
        return Err(text::NotText {
            at: ground::MOST_TITLE,
        });
    }
    text::check(name)
}

#[tactic(auto, unfolding(crate::specs::Standing::name_rule))]
fn name_right(name: player_state::Name) -> bool
    ensures { result ≡ name_rule name }
{
    let n = name.len as usize;
    if ground::MOST_TITLE < n {
        return false;
    }
    let octets = name.octets;
    text::is_text(&octets[0..n])
}

fn is_rung(s: u8) -> bool
    ensures { result ≡ member s rungs }
{
    match s {
        0xE0 => true,
        0xF0 => true,
        0xF8 => true,
        0xFC => true,
        4 => true,
        8 => true,
        16 => true,
        32 => true,
        _ => false,
    }
}

#[tactic(auto, using(ground::proofs::Cases::past, ground::proofs::Cases::here), unfolding(crate::specs::Standing::mode_rule))]
fn mode_right(m: player_state::Mode) -> bool
    ensures { result ≡ mode_rule m }
{
    let state = m.media <= player_state::SEEKING;
    let order = (1 <= m.order) & (m.order <= 8);
    if m.media == player_state::SEEKING {
        let rung = is_rung(m.seeking);
        return state & order & rung;
    }
    state & order & (m.seeking == 0)
}

// Whether a track is in a group; both may be any numbers.
pub fn in_group(groups: &[u32], g: catalogue_tables::GroupNo, track: usize) -> bool
    ensures { result ≡ in_group groups.now g.0 track }
{
    let first = catalogue_tables::first_track(groups, g);
    let start = ground::wide_word(first.0);
    let count = ground::wide_word(catalogue_tables::tracks_in(groups, g));
    let number = ground::wide_word(g.0);
    (number < catalogue_tables::group_count(groups)) & (start <= track) & (track < start + count)
}

#[tactic(auto, unfolding(crate::specs::Standing::place_rule))]
fn place_right(groups: &[u32], tracks: &[u32], active: bool, l: player_state::Place) -> bool
    ensures { result ≡ place_rule groups.now tracks.now active l }
{
    if active {
        let within = in_group(groups, l.group, ground::wide_word(l.track.0));
        let end = catalogue_tables::end(tracks, l.track);
        return within & (l.position.0 <= end.0);
    }
    (l.group.0 == 0) & (l.track.0 == 0) & (l.position.0 == 0)
}

// Whether the track that is named to come next, if one is, is one of the current group (SCOPE 14.4).
#[tactic(auto, using(ground::proofs::Cases::past, ground::proofs::Cases::here), unfolding(crate::specs::Standing::upcoming_rule))]
fn upcoming_right(groups: &[u32], active: bool, g: catalogue_tables::GroupNo, upcoming: u32) -> bool
    ensures { result ≡ upcoming_rule groups.now active g.0 upcoming }
{
    if upcoming == 0 {
        return true;
    }
    let within = in_group(groups, g, ground::wide_word(upcoming - 1));
    active & within
}

// Whether the state keeps the player's part of 201 (SCOPE 20.5).
#[tactic(auto, unfolding(crate::specs::Standing::player_rule))]
pub fn player_right(groups: &[u32], tracks: &[u32], p: player_state::Player) -> bool
    ensures { result ≡ player_rule groups.now tracks.now p }
{
    let active = player_state::INACTIVE < p.mode.media;
    let name = name_right(p.name);
    let mode = mode_right(p.mode);
    let place = place_right(groups, tracks, active, p.place);
    let named = upcoming_right(groups, active, p.place.group, p.upcoming);
    let rest = player_clock::rest_right(p.place.rest);
    name & mode & place & named & rest
}

// What 208 asks: whether a group is there and has tracks (SCOPE 8.9).
#[tactic(auto, unfolding(crate::specs::Standing::group_rule))]
pub fn group_right(groups: &[u32], g: catalogue_tables::GroupNo) -> bool
    ensures { result ≡ group_rule groups.now g.0 }
{
    let count = catalogue_tables::tracks_in(groups, g);
    let number = ground::wide_word(g.0);
    (number < catalogue_tables::group_count(groups)) & (0 < count)
}
