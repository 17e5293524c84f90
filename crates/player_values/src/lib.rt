// The values of the characteristics (SCOPE 16): a part of each, put over the front of lent octets; and how many octets each value has.
#![tactic(auto)]

ghost use Rattle.std.specs.Prelude.{◌≡◌, ◌≤◌, ◌<◌, ◌∷◌, [], length};
ghost use Rattle.ground.specs.Limits.{most_title};
ghost use Rattle.ground.specs.Lists.{filled, part_from};
ghost use Rattle.player_state.specs.Player.{name_of};
ghost use Rattle.player_values.specs.Values.{source, word_octets, title_part, title_value, duration_value, position_value, segments_now, track_now, next_now, parent_now, group_now, object_octets, value_of};
ghost use Rattle.player_moves.specs.Moves.{Sits};

// What the duration and the position are while there is no current track (SCOPE 16.4).
const MINUS_ONE: u32 = 0xFFFF_FFFF;

// Puts the octets of s, from a place on and at most so many, over the front of out; and answers how many they are.
pub fn put(out: &mut [u8], s: &[u8], from: usize, most: usize) -> usize
    requires s_in_bounds { length s.now ≤ length out.old }
    requires from_in_bounds { from ≤ length s.now }
    ensures value { result ≡ length (part_from from most s.now) }
    ensures out_after { out.new ≡ filled (part_from from most s.now) out.old }
{
    let n = most.min(s.len() - from);
    let to = from + n;
    ground::copy(&mut out[..n], &s[from..to]);
    n
}

fn put_octet(out: &mut [u8], x: u8, from: usize, most: usize) -> usize
    requires most_title_in_bounds { most_title ≤ length out.old }
    requires from_in_bounds { from ≤ length (x ∷ []) }
    ensures value { result ≡ length (part_from from most (x ∷ [])) }
    ensures out_after { out.new ≡ filled (part_from from most (x ∷ [])) out.old }
{
    let octets = [x];
    put(out, &octets, from, most)
}

#[tactic(auto, unfolding(crate::specs::Values::word_octets))]
fn put_word(out: &mut [u8], w: u32, from: usize, most: usize) -> usize
    requires most_title_in_bounds { most_title ≤ length out.old }
    requires from_in_bounds { from ≤ length (word_octets w) }
    ensures value { result ≡ length (part_from from most (word_octets w)) }
    ensures out_after { out.new ≡ filled (part_from from most (word_octets w)) out.old }
{
    let a = (w % 256) as u8;
    let b = (w / 256 % 256) as u8;
    let c = (w / 65536 % 256) as u8;
    let d = (w / 16777216 % 256) as u8;
    let octets = [a, b, c, d];
    put(out, &octets, from, most)
}

fn put_name(out: &mut [u8], p: player_state::Player, from: usize, most: usize) -> usize
    requires most_title_in_bounds { most_title ≤ length out.old }
    requires len_le_most_title { p.name.len ≤ most_title }
    requires from_in_bounds { from ≤ length (name_of p) }
    ensures value { result ≡ length (part_from from most (name_of p)) }
    ensures out_after { out.new ≡ filled (part_from from most (name_of p)) out.old }
{
    let octets = p.name.octets;
    let n = p.name.len as usize;
    put(out, &octets[0..n], from, most)
}

// Where the title stands. While there is no current track, it is the empty front of the card's text (SCOPE 5.7).
#[tactic(auto, unfolding(crate::specs::Values::title_part))]
pub fn title_part(
    tracks: &[u32],
    renames: &[u32],
    p: player_state::Player,
) -> catalogue_titles::Part
    ensures { result ≡ title_part tracks.now renames.now p }
{
    if p.mode.media == player_state::INACTIVE {
        return catalogue_titles::front_part();
    }
    catalogue_titles::part_of(tracks, renames, p.place.track)
}

// The title: a part of the card's text or of the office's (SCOPE 5.5).
#[tactic(auto, unfolding(crate::specs::Values::title_value))]
pub fn title_of<'a>(
    tracks: &[u32],
    text: &'a [u8],
    renames: &[u32],
    office: &'a [u8],
    p: player_state::Player,
) -> &'a [u8]
    ensures { result.now ≡ title_value tracks.now text.now renames.now office.now p }
{
    let part = title_part(tracks, renames, p);
    catalogue_titles::cut(part, text, office)
}

fn put_title<'a>(
    out: &mut [u8],
    tracks: &[u32],
    text: &'a [u8],
    renames: &[u32],
    office: &'a [u8],
    p: player_state::Player,
    from: usize,
    most: usize,
) -> usize
    requires most_title_in_bounds { most_title ≤ length out.old }
    requires p_len_bound { length (title_value tracks.now text.now renames.now office.now p) ≤ most_title }
    requires from_in_bounds { from ≤ length (title_value tracks.now text.now renames.now office.now p) }
    ensures value { result ≡ length (part_from from most (title_value tracks.now text.now renames.now office.now p)) }
    ensures out_after { out.new ≡ filled (part_from from most (title_value tracks.now text.now renames.now office.now p)) out.old }
{
    let title = title_of(tracks, text, renames, office, p);
    put(out, title, from, most)
}

// The word that says that a duration is not yet known is also the word of −1, so that it is handed out as it is kept (SCOPE 16.4).
#[tactic(auto, using(crate::proofs::Laws::read_as_kept), unfolding(crate::specs::Values::duration_value))]
pub fn duration_word(tracks: &[u32], p: player_state::Player) -> u32
    ensures { word_octets result ≡ duration_value tracks.now p }
{
    if p.mode.media == player_state::INACTIVE {
        return MINUS_ONE;
    }
    let d = catalogue_tables::duration(tracks, p.place.track);
    d.0
}

#[tactic(auto, unfolding(crate::specs::Values::position_value))]
pub fn position_word(p: player_state::Player) -> u32
    ensures { word_octets result ≡ position_value p }
{
    if p.mode.media == player_state::INACTIVE {
        return MINUS_ONE;
    }
    p.place.position.0
}

// The object number of the current track's segments; 0 where there is none (SCOPE 16.5).
#[tactic(auto, unfolding(crate::specs::Values::segments_now))]
pub fn segments_now(tracks: &[u32], p: player_state::Player) -> usize
    ensures { (result ≡ segments_now tracks.now p) × (result < 281474976710656) }
{
    if p.mode.media == player_state::INACTIVE {
        return 0;
    }
    let t = p.place.track;
    if catalogue_tables::segments_in(tracks, t) == 0 {
        return 0;
    }
    catalogue_tables::segments_object(t)
}

// The object number of the current track; 0 where there is none.
#[tactic(auto, unfolding(crate::specs::Values::track_now))]
pub fn track_now(p: player_state::Player) -> usize
    ensures { (result ≡ track_now p) × (result < 281474976710656) }
{
    if p.mode.media == player_state::INACTIVE {
        return 0;
    }
    catalogue_tables::track_object(p.place.track)
}

// The object number of the next track; 0 where there is none (SCOPE 16.6).
#[tactic(auto, unfolding(crate::specs::Values::next_now))]
pub fn next_now(groups: &[u32], tracks: &[u32], p: player_state::Player) -> usize
    requires { Sits groups.now tracks.now p }
    ensures { (result ≡ next_now groups.now tracks.now p) × (result < 281474976710656) }
{
    if p.mode.media == player_state::INACTIVE {
        return 0;
    }
    let near = player_moves::next_track(groups, tracks, p);
    match near {
        Some(t) => catalogue_tables::track_object(t),
        None => 0,
    }
}

// The object number of the current group's parent; 0 where there is none.
#[tactic(auto, unfolding(crate::specs::Values::parent_now))]
pub fn parent_now(groups: &[u32], p: player_state::Player) -> usize
    ensures { (result ≡ parent_now groups.now p) × (result < 281474976710656) }
{
    if p.mode.media == player_state::INACTIVE {
        return 0;
    }
    let above = catalogue_tables::parent(groups, p.place.group);
    catalogue_tables::group_object(above)
}

// The object number of the current group; 0 where there is none.
#[tactic(auto, unfolding(crate::specs::Values::group_now))]
pub fn group_now(p: player_state::Player) -> usize
    ensures { (result ≡ group_now p) × (result < 281474976710656) }
{
    if p.mode.media == player_state::INACTIVE {
        return 0;
    }
    catalogue_tables::group_object(p.place.group)
}

// The six octets of an object number; no octets for 0.
#[tactic(auto, using(crate::proofs::Parts::nothing_put), unfolding(crate::specs::Values::object_octets))]
fn put_object(out: &mut [u8], object: usize, from: usize, most: usize) -> usize
    requires most_title_in_bounds { most_title ≤ length out.old }
    requires from_in_bounds { from ≤ length (object_octets object) }
    ensures value { result ≡ length (part_from from most (object_octets object)) }
    ensures out_after { out.new ≡ filled (part_from from most (object_octets object)) out.old }
{
    if object == 0 {
        return 0;
    }
    let octets = ground::six_octets(object);
    put(out, &octets, from, most)
}

// Puts the octets of a characteristic's value, from a place on and at most so many, over the front of out; and answers how many they are. 4, 18 and every
// number that is no characteristic have no octets (SCOPE 16.1).
#[tactic(auto, using(crate::proofs::Laws::value_none), unfolding(crate::specs::Values::value_of, crate::specs::Values::opcodes_value, crate::specs::Values::word_octets))]
pub fn value<'a>(
    out: &mut [u8],
    groups: &[u32],
    tracks: &[u32],
    text: &'a [u8],
    renames: &[u32],
    office: &'a [u8],
    p: player_state::Player,
    c: u32,
    from: usize,
    most: usize,
) -> usize
    requires most_title_in_bounds { most_title ≤ length out.old }
    requires sits { Sits groups.now tracks.now p }
    requires len_le_most_title { p.name.len ≤ most_title }
    requires p_len_bound { length (title_value tracks.now text.now renames.now office.now p) ≤ most_title }
    requires from_in_bounds { from ≤ length (value_of (source groups.now tracks.now text.now renames.now office.now) p c) }
    ensures value { result ≡ length (part_from from most (value_of (source groups.now tracks.now text.now renames.now office.now) p c)) }
    ensures out_after { out.new ≡ filled (part_from from most (value_of (source groups.now tracks.now text.now renames.now office.now) p c)) out.old }
{
    match c {
        1 => put_name(out, p, from, most),
        5 => put_title(out, tracks, text, renames, office, p, from, most),
        6 => put_word(out, duration_word(tracks, p), from, most),
        7 => put_word(out, position_word(p), from, most),
        8 => put_octet(out, p.mode.speed, from, most),
        9 => put_octet(out, p.mode.seeking, from, most),
        10 => put_object(out, segments_now(tracks, p), from, most),
        11 => put_object(out, track_now(p), from, most),
        12 => put_object(out, next_now(groups, tracks, p), from, most),
        13 => put_object(out, parent_now(groups, p), from, most),
        14 => put_object(out, group_now(p), from, most),
        15 => put_octet(out, p.mode.order, from, most),
        16 => {
            let octets = [0xFF, 0x00];
            put(out, &octets, from, most)
        }
        17 => put_octet(out, p.mode.media, from, most),
        19 => put_word(out, p.offer.mask % 2097152, from, most),
        22 => put_octet(out, p.offer.ccid, from, most),
        _ => 0,
    }
}

// How many octets the title has.
fn title_length<'a>(
    tracks: &[u32],
    text: &'a [u8],
    renames: &[u32],
    office: &'a [u8],
    p: player_state::Player,
) -> usize
    ensures { result ≡ length (title_value tracks.now text.now renames.now office.now p) }
{
    let title = title_of(tracks, text, renames, office, p);
    title.len()
}

// How many octets the value of an object number has: six, and none for 0.
#[tactic(auto, unfolding(crate::specs::Values::object_octets, ground::specs::Words::six_octets))]
fn object_length(object: usize) -> usize
    ensures { result ≡ length (object_octets object) }
{
    if object == 0 {
        return 0;
    }
    6
}

// How many octets the value of a characteristic has.
#[tactic(auto, using(crate::proofs::Laws::value_none), unfolding(crate::specs::Values::value_of, crate::specs::Values::duration_value, crate::specs::Values::position_value, crate::specs::Values::opcodes_value, crate::specs::Values::word_octets))]
pub fn length_of<'a>(
    groups: &[u32],
    tracks: &[u32],
    text: &'a [u8],
    renames: &[u32],
    office: &'a [u8],
    p: player_state::Player,
    c: u32,
) -> usize
    requires sits { Sits groups.now tracks.now p }
    requires len_le_most_title { p.name.len ≤ most_title }
    ensures { result ≡ length (value_of (source groups.now tracks.now text.now renames.now office.now) p c) }
{
    match c {
        1 => p.name.len as usize,
        5 => title_length(tracks, text, renames, office, p),
        6 => 4,
        7 => 4,
        8 => 1,
        9 => 1,
        10 => object_length(segments_now(tracks, p)),
        11 => object_length(track_now(p)),
        12 => object_length(next_now(groups, tracks, p)),
        13 => object_length(parent_now(groups, p)),
        14 => object_length(group_now(p)),
        15 => 1,
        16 => 2,
        17 => 1,
        19 => 4,
        22 => 1,
        _ => 0,
    }
}
