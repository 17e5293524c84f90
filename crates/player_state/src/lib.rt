// The player's state, and what alters it without a look at the catalogue (SCOPE 8 and 9).
#![tactic(auto)]

ghost use Rattle.std.specs.Prelude.{◌≡◌, min, ◌-◌, ◌≤◌, ◌<◌, length};
ghost use Rattle.ground.specs.Limits.{most_title};
ghost use Rattle.ground.specs.Lists.{filled};
ghost use Rattle.player_walk.specs.Signed.{signed_word};
ghost use Rattle.player_state.specs.Player.{started_player, renamed, in_mode, kept_on, at_place, naming, unnamed, deactivated, clocked_to, at_position, with_order, with_speed};
ghost use Rattle.player_state.specs.Modes.{rung_up, rung_down, forwarded, rewound, moved_to};
ghost use Rattle.player_state.specs.Positions.{held_sum, written, sought};

// A name. The octets behind its length mean nothing (SCOPE 17.17).
#[derive(Clone, Copy)]
pub struct Name {
    pub octets: [u8; ground::MOST_TITLE],
    pub len: u8,
}

// What the player offers: the opcode mask and the Content Control ID.
#[derive(Clone, Copy)]
pub struct Offer {
    pub mask: u32,
    pub ccid: u8,
}

// The media states (SCOPE 8.1).
pub const INACTIVE: u8 = 0;

pub const PLAYING: u8 = 1;

pub const PAUSED: u8 = 2;

pub const SEEKING: u8 = 3;

// The media state, the playing order, the playback speed and the seeking speed; both speeds as octets in two's complement.
#[derive(Clone, Copy)]
pub struct Mode {
    pub media: u8,
    pub order: u8,
    pub speed: u8,
    pub seeking: u8,
}

// Where the player is. While Inactive the first three are 0 (SCOPE 8.7). `rest` is what the clock has left over of a hundredth of a second, in 65,536ths
// (SCOPE 13.3).
#[derive(Clone, Copy)]
pub struct Place {
    pub group: catalogue_tables::GroupNo,
    pub track: catalogue_tables::TrackNo,
    pub position: catalogue_tables::Position,
    pub rest: u32,
}

// `upcoming` is 0, or one more than the number of the track that a client named to come next (SCOPE 14.4).
#[derive(Clone, Copy)]
pub struct Player {
    pub name: Name,
    pub offer: Offer,
    pub mode: Mode,
    pub place: Place,
    pub upcoming: u32,
}

// Copies a name of at most 128 octets over the front of an array.
pub fn fill(octets: [u8; ground::MOST_TITLE], name: &[u8]) -> [u8; ground::MOST_TITLE]
    requires { length name.now ≤ most_title }
    ensures { result ≡ filled name.now octets }
{
    let mut out = octets;
    ground::copy(&mut out[..name.len()], name);
    out
}

#[tactic(auto, unfolding(crate::specs::Player::started_player))]
pub fn start(name: &[u8], mask: u32, ccid: u8) -> Player
    requires { length name.now ≤ most_title }
    ensures { result ≡ started_player name.now mask ccid }
{
    let octets = fill([0u8; ground::MOST_TITLE], name);
    let len = name.len() as u8;
    let name = Name {
        octets: octets,
        len: len,
    };
    let offer = Offer {
        mask: mask,
        ccid: ccid,
    };
    let mode = Mode {
        media: INACTIVE,
        order: 3,
        speed: 0,
        seeking: 0,
    };
    let group = catalogue_tables::GroupNo(0);
    let track = catalogue_tables::TrackNo(0);
    let position = catalogue_tables::Position(0);
    let place = Place {
        group: group,
        track: track,
        position: position,
        rest: 0,
    };
    Player {
        name: name,
        offer: offer,
        mode: mode,
        place: place,
        upcoming: 0,
    }
}

#[tactic(auto, unfolding(crate::specs::Player::renamed))]
pub fn set_name(p: Player, name: &[u8]) -> Player
    requires { length name.now ≤ most_title }
    ensures { result ≡ renamed name.now p }
{
    let old = p.name.octets;
    let octets = fill(old, name);
    let len = name.len() as u8;
    let fresh = Name {
        octets: octets,
        len: len,
    };
    let mut q = p;
    q.name = fresh;
    q
}

// A media state with its seeking speed.
pub fn in_mode(p: Player, media: u8, seeking: u8) -> Player
    ensures { result ≡ in_mode media seeking p }
{
    let mut q = p;
    q.mode.media = media;
    q.mode.seeking = seeking;
    q
}

// The name of a next track stays where a call ends on the track and group on which it began (SCOPE 14.6, 14.7).
#[tactic(auto, using(ground::proofs::Cases::past, ground::proofs::Cases::here))]
fn kept_on(p: Player, group: catalogue_tables::GroupNo, track: catalogue_tables::TrackNo) -> u32
    ensures { result ≡ kept_on group.0 track.0 p }
{
    if (p.place.group.0 == group.0) & (p.place.track.0 == track.0) {
        return p.upcoming;
    }
    0
}

pub fn at_place(
    p: Player,
    group: catalogue_tables::GroupNo,
    track: catalogue_tables::TrackNo,
    position: catalogue_tables::Position,
) -> Player
    ensures { result ≡ at_place group.0 track.0 position.0 p }
{
    let kept = kept_on(p, group, track);
    let mut q = p;
    q.place.group.0 = group.0;
    q.place.track.0 = track.0;
    q.place.position.0 = position.0;
    q.place.rest = 0;
    q.upcoming = kept;
    q
}

// A track is named to come next (SCOPE 14.4).
pub fn name_track(p: Player, track: catalogue_tables::TrackNo) -> Player
    requires { track.0 < 4294967295 }
    ensures { result ≡ naming track.0 p }
{
    let mut q = p;
    q.upcoming = track.0 + 1;
    q
}

// No track is named.
pub fn drop_named(p: Player) -> Player
    ensures { result ≡ unnamed p }
{
    let mut q = p;
    q.upcoming = 0;
    q
}

// Deactivate: no track is current, and none is named (SCOPE 8.10).
pub fn deactivate(p: Player) -> Player
    ensures { result ≡ deactivated p }
{
    let mut q = in_mode(p, INACTIVE, 0);
    q.place.group.0 = 0;
    q.place.track.0 = 0;
    q.place.position.0 = 0;
    q.place.rest = 0;
    q.upcoming = 0;
    q
}

// The clock has brought the position further in the current track, and leaves a rest (SCOPE 13.3, 13.4).
pub fn clocked_to(p: Player, position: catalogue_tables::Position, rest: u32) -> Player
    ensures { result ≡ clocked_to position.0 rest p }
{
    let mut q = p;
    q.place.position.0 = position.0;
    q.place.rest = rest;
    q
}

// Anything else that sets the position leaves no rest (SCOPE 13.9).
pub fn at_position(p: Player, position: catalogue_tables::Position) -> Player
    ensures { result ≡ at_position position.0 p }
{
    clocked_to(p, position, 0)
}

pub fn with_order(p: Player, order: u8) -> Player
    ensures { result ≡ with_order order p }
{
    let mut q = p;
    q.mode.order = order;
    q
}

pub fn with_speed(p: Player, speed: u8) -> Player
    ensures { result ≡ with_speed speed p }
{
    let mut q = p;
    q.mode.speed = speed;
    q
}

#[tactic(auto, using(crate::proofs::Rungs::top), unfolding(crate::specs::Modes::rung_up))]
fn rung_up(s: u8) -> u8
    ensures { result ≡ rung_up s }
{
    match s {
        0xE0 => 0xF0,
        0xF0 => 0xF8,
        0xF8 => 0xFC,
        0xFC => 4,
        4 => 8,
        8 => 16,
        16 => 32,
        _ => s,
    }
}

#[tactic(auto, using(crate::proofs::Rungs::bottom), unfolding(crate::specs::Modes::rung_down))]
fn rung_down(s: u8) -> u8
    ensures { result ≡ rung_down s }
{
    match s {
        32 => 16,
        16 => 8,
        8 => 4,
        4 => 0xFC,
        0xFC => 0xF8,
        0xF8 => 0xF0,
        0xF0 => 0xE0,
        _ => s,
    }
}

#[tactic(auto, unfolding(crate::specs::Modes::forwarded))]
pub fn fast_forward(p: Player) -> Player
    ensures { result ≡ forwarded p }
{
    if p.mode.media == SEEKING {
        let up = rung_up(p.mode.seeking);
        return in_mode(p, SEEKING, up);
    }
    in_mode(p, SEEKING, 4)
}

#[tactic(auto, unfolding(crate::specs::Modes::rewound))]
pub fn fast_rewind(p: Player) -> Player
    ensures { result ≡ rewound p }
{
    if p.mode.media == SEEKING {
        let down = rung_down(p.mode.seeking);
        return in_mode(p, SEEKING, down);
    }
    in_mode(p, SEEKING, 0xFC)
}

// The player goes to a track of a group, at position 0. Seeking becomes Playing (SCOPE 11.7, 12.3, 14.2).
#[tactic(auto, using(ground::proofs::Cases::past, ground::proofs::Cases::here), unfolding(crate::specs::Modes::moved_to))]
pub fn move_to(
    p: Player,
    group: catalogue_tables::GroupNo,
    track: catalogue_tables::TrackNo,
) -> Player
    ensures { result ≡ moved_to group.0 track.0 p }
{
    let begin = catalogue_tables::Position(0);
    if p.mode.media == SEEKING {
        let playing = in_mode(p, PLAYING, 0);
        return at_place(playing, group, track, begin);
    }
    at_place(p, group, track, begin)
}

fn held_to(a: u64, end: catalogue_tables::Position) -> catalogue_tables::Position
    ensures { result.0 ≡ min a end.0 }
{
    if a < (end.0 as u64) {
        return catalogue_tables::Position(a as u32);
    }
    end
}

fn less(a: u64, b: u64) -> u64
    ensures { result ≡ a - b }
{
    if a < b {
        return 0;
    }
    a - b
}

// The sum of a position and a signed number, held to 0 and the end (SCOPE 9.7).
#[tactic(auto, using(crate::proofs::Signs::held_up, crate::proofs::Signs::held_down))]
pub fn held_sum(
    end: catalogue_tables::Position,
    position: catalogue_tables::Position,
    number: u32,
) -> catalogue_tables::Position
    ensures { result.0 ≡ held_sum end.0 position.0 (signed_word number) }
{
    if number < 0x8000_0000 {
        return held_to((position.0 as u64) + (number as u64), end);
    }
    held_to(
        less(position.0 as u64, 0x1_0000_0000 - (number as u64)),
        end,
    )
}

// The position that a written number means (SCOPE 9.8).
#[tactic(auto, using(crate::proofs::Signs::written_up, crate::proofs::Signs::written_down))]
pub fn written_position(end: catalogue_tables::Position, number: u32) -> catalogue_tables::Position
    ensures { result.0 ≡ written end.0 (signed_word number) }
{
    if number < 0x8000_0000 {
        return held_to(number as u64, end);
    }
    held_to(less(end.0 as u64, 0x1_0000_0000 - (number as u64)), end)
}

// The position d times the seeking speed further, held to 0 and the end (SCOPE 13.7).
#[tactic(auto, using(crate::proofs::Signs::sought_up, crate::proofs::Signs::sought_down, crate::proofs::Signs::small_product))]
pub fn sought_position(
    end: catalogue_tables::Position,
    position: catalogue_tables::Position,
    speed: u8,
    d: u32,
) -> catalogue_tables::Position
    ensures { result.0 ≡ sought end.0 position.0 speed d }
{
    if speed < 0x80 {
        return held_to((position.0 as u64) + (d as u64) * (speed as u64), end);
    }
    held_to(
        less(position.0 as u64, (d as u64) * (0x100 - (speed as u64))),
        end,
    )
}
