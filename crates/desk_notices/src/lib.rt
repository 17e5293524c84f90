// What differs between two states of the player: the values of the characteristics, and the track number; and what falls due to whom when a call has
// changed the player.
#![tactic(auto)]

ghost use Rattle.std.specs.Prelude.{◌≡◌, true, not, ◌∷◌, [], min, ◌<◌};
ghost use Rattle.player_state.specs.Player.{name_of};
ghost use Rattle.player_values.specs.Values.{source, word_octets, title_value, duration_value, position_value, segments_now, track_now, next_now, parent_now, group_now, object_octets};
ghost use Rattle.player_moves.specs.Moves.{Sits};
ghost use Rattle.desk_notices.specs.Changes.{same_octets, SameNext, changed, track_number, track_changed};
ghost use Rattle.desk_slots.specs.Characteristics.{set_of};
ghost use Rattle.ground.specs.Lists.{map_from};
ghost use Rattle.desk_slots.specs.Slots.{slot_count};
ghost use Rattle.desk_notices.specs.Owed.{spared, falls, noticed, settled, no_writer, by_writer};

#[tactic(auto, unfolding(crate::specs::Changes::same_octets))]
pub fn same(a: &[u8], b: &[u8]) -> bool
    ensures { result ≡ same_octets a.now b.now }
{
    a == b
}

#[tactic(auto, unfolding(crate::specs::Changes::same_octets))]
fn octets_differ(a: u8, b: u8) -> bool
    ensures { result ≡ not (same_octets (a ∷ []) (b ∷ [])) }
{
    a != b
}

fn words_differ(a: u32, b: u32) -> bool
    ensures { result ≡ not (same_octets (word_octets a) (word_octets b)) }
{
    a != b
}

// The length of a name, held to the 128 octets that there are.
fn name_end(len: u8) -> usize
    ensures { result ≡ min len 128 }
{
    if len < 128 {
        return len as usize;
    }
    128
}

pub fn name_changed(p: player_state::Player, q: player_state::Player) -> bool
    ensures { result ≡ not (same_octets (name_of p) (name_of q)) }
{
    let a = p.name.octets;
    let b = q.name.octets;
    let m = name_end(p.name.len);
    let n = name_end(q.name.len);
    !same(&a[0..m], &b[0..n])
}

pub fn title_changed<'a>(
    tracks: &[u32],
    text: &'a [u8],
    renames: &[u32],
    office: &'a [u8],
    p: player_state::Player,
    q: player_state::Player,
) -> bool
    ensures { result ≡ not (same_octets (title_value tracks.now text.now renames.now office.now p) (title_value tracks.now text.now renames.now office.now q)) }
{
    let a = player_values::title_of(tracks, text, renames, office, p);
    let b = player_values::title_of(tracks, text, renames, office, q);
    !same(a, b)
}

pub fn duration_changed(tracks: &[u32], p: player_state::Player, q: player_state::Player) -> bool
    ensures { result ≡ not (same_octets (duration_value tracks.now p) (duration_value tracks.now q)) }
{
    let a = player_values::duration_word(tracks, p);
    let b = player_values::duration_word(tracks, q);
    words_differ(a, b)
}

pub fn position_changed(p: player_state::Player, q: player_state::Player) -> bool
    ensures { result ≡ not (same_octets (position_value p) (position_value q)) }
{
    let a = player_values::position_word(p);
    let b = player_values::position_word(q);
    words_differ(a, b)
}

// Whether two objects, by number, are read otherwise.
fn objects_differ(a: usize, b: usize) -> bool
    requires { (a < 281474976710656) × (b < 281474976710656) }
    ensures { result ≡ not (same_octets (object_octets a) (object_octets b)) }
{
    a != b
}

pub fn segments_changed(tracks: &[u32], p: player_state::Player, q: player_state::Player) -> bool
    ensures { result ≡ not (same_octets (object_octets (segments_now tracks.now p)) (object_octets (segments_now tracks.now q))) }
{
    let a = player_values::segments_now(tracks, p);
    let b = player_values::segments_now(tracks, q);
    objects_differ(a, b)
}

pub fn current_changed(p: player_state::Player, q: player_state::Player) -> bool
    ensures { result ≡ not (same_octets (object_octets (track_now p)) (object_octets (track_now q))) }
{
    let a = player_values::track_now(p);
    let b = player_values::track_now(q);
    objects_differ(a, b)
}

// Whether nothing differs that tells the next track: active or not, order, group, track, and the track that is named.
fn same_next(p: player_state::Player, q: player_state::Player) -> bool
    ensures { result ≡ true → SameNext p q }
{
    let active = (p.mode.media == player_state::INACTIVE)
        == (q.mode.media == player_state::INACTIVE);
    let place = (p.place.group.0 == q.place.group.0) & (p.place.track.0 == q.place.track.0);
    active & place & (p.mode.order == q.mode.order) & (p.upcoming == q.upcoming)
}

// The next track is looked for along the order, which takes its time: only where something that tells it differs.
pub fn next_changed(
    groups: &[u32],
    tracks: &[u32],
    p: player_state::Player,
    q: player_state::Player,
) -> bool
    requires sits { Sits groups.now tracks.now p }
    requires sits_2 { Sits groups.now tracks.now q }
    ensures { result ≡ not (same_octets (object_octets (next_now groups.now tracks.now p)) (object_octets (next_now groups.now tracks.now q))) }
{
    if same_next(p, q) {
        return false;
    }
    let a = player_values::next_now(groups, tracks, p);
    let b = player_values::next_now(groups, tracks, q);
    objects_differ(a, b)
}

pub fn parent_changed(groups: &[u32], p: player_state::Player, q: player_state::Player) -> bool
    ensures { result ≡ not (same_octets (object_octets (parent_now groups.now p)) (object_octets (parent_now groups.now q))) }
{
    let a = player_values::parent_now(groups, p);
    let b = player_values::parent_now(groups, q);
    objects_differ(a, b)
}

pub fn group_changed(p: player_state::Player, q: player_state::Player) -> bool
    ensures { result ≡ not (same_octets (object_octets (group_now p)) (object_octets (group_now q))) }
{
    let a = player_values::group_now(p);
    let b = player_values::group_now(q);
    objects_differ(a, b)
}

// The characteristics whose values differ: bit c is characteristic c. 16 is the same in every state.
pub fn changed_word<'a>(
    groups: &[u32],
    tracks: &[u32],
    text: &'a [u8],
    renames: &[u32],
    office: &'a [u8],
    p: player_state::Player,
    q: player_state::Player,
) -> u32
    requires sits { Sits groups.now tracks.now p }
    requires sits_2 { Sits groups.now tracks.now q }
    ensures { result ≡ set_of 32 (changed (source groups.now tracks.now text.now renames.now office.now) p q) }
{
    let title = title_changed(tracks, text, renames, office, p, q);
    let duration = duration_changed(tracks, p, q);
    let name = name_changed(p, q);
    let position = position_changed(p, q);
    let speed = octets_differ(p.mode.speed, q.mode.speed);
    let seeking = octets_differ(p.mode.seeking, q.mode.seeking);
    let segments = segments_changed(tracks, p, q);
    let current = current_changed(p, q);
    let next = next_changed(groups, tracks, p, q);
    let parent = parent_changed(groups, p, q);
    let group = group_changed(p, q);
    let order = octets_differ(p.mode.order, q.mode.order);
    let media = octets_differ(p.mode.media, q.mode.media);
    let opcodes = words_differ(p.offer.mask % 2097152, q.offer.mask % 2097152);
    let ccid = octets_differ(p.offer.ccid, q.offer.ccid);
    let w22 = desk_slots::with_if(0, 22, ccid);
    let w19 = desk_slots::with_if(w22, 19, opcodes);
    let w17 = desk_slots::with_if(w19, 17, media);
    let w15 = desk_slots::with_if(w17, 15, order);
    let w14 = desk_slots::with_if(w15, 14, group);
    let w13 = desk_slots::with_if(w14, 13, parent);
    let w12 = desk_slots::with_if(w13, 12, next);
    let w11 = desk_slots::with_if(w12, 11, current);
    let w10 = desk_slots::with_if(w11, 10, segments);
    let w9 = desk_slots::with_if(w10, 9, seeking);
    let w8 = desk_slots::with_if(w9, 8, speed);
    let w7 = desk_slots::with_if(w8, 7, position);
    let w6 = desk_slots::with_if(w7, 6, duration);
    let w5 = desk_slots::with_if(w6, 5, title);
    desk_slots::with_if(w5, 1, name)
}

// 0 where no track is current, else its number and one.
#[tactic(auto, unfolding(crate::specs::Changes::track_number))]
fn track_number(p: player_state::Player) -> u64
    ensures { result ≡ track_number p }
{
    if p.mode.media == player_state::INACTIVE {
        return 0;
    }
    (p.place.track.0 as u64) + 1
}

#[tactic(auto, unfolding(crate::specs::Changes::track_changed))]
pub fn track_changed(p: player_state::Player, q: player_state::Player) -> bool
    ensures { result ≡ track_changed p q }
{
    let a = track_number(p);
    let b = track_number(q);
    a != b
}

// What brought the change: whether an advance in Playing that stays below D, and which client wrote which characteristic (no client: CLIENTS).
#[derive(Clone, Copy)]
pub struct Cause {
    pub quiet: bool,
    pub writer: u32,
    pub wrote: u32,
}

// Whether a characteristic is not owed to a client, although it changed.
#[tactic(auto, unfolding(crate::specs::Owed::spared))]
fn is_spared(cause: Cause, who: u32, c: u32) -> bool
    ensures { result ≡ spared cause who c }
{
    let knows = desk_slots::writer_knows(c);
    (cause.quiet & (c == 7)) | ((who == cause.writer) & (c == cause.wrote) & knows)
}

// The slots that fall due to a client: `altered` are the characteristics that changed, `track` says whether the track did.
fn due_to(altered: u32, track: bool, cause: Cause, who: u32) -> u32
    ensures { result ≡ set_of slot_count (falls altered track cause who) }
{
    let mut due: u32 = 0;
    for s in 0..desk_slots::SLOTS {
        let c = desk_slots::characteristic_of(s);
        let spare = is_spared(cause, who, c);
        let changed = ground::has_bit(altered, c);
        let falls = (changed | (track & ((c == 4) | (c == 7)))) & !spare;
        due = desk_slots::with_if(due, s, falls);
    }
    due
}

fn note_all(
    accounts: [desk_client::Account; 4],
    altered: u32,
    track: bool,
    cause: Cause,
) -> [desk_client::Account; 4]
    ensures { result ≡ map_from (noticed altered track cause) 0 accounts }
{
    let mut out = accounts;
    for i in 0..4 {
        let who = i as u32;
        let due = due_to(altered, track, cause, who);
        let a = out[i];
        out[i] = desk_client::note(a, due, altered);
    }
    out
}

// The service with another player, and every client told what that owes it.
pub fn settle<'a>(
    groups: &[u32],
    tracks: &[u32],
    text: &'a [u8],
    renames: &[u32],
    office: &'a [u8],
    s: desk_state::Service,
    q: player_state::Player,
    cause: Cause,
) -> desk_state::Service
    requires sits { Sits groups.now tracks.now s.player }
    requires sits_2 { Sits groups.now tracks.now q }
    ensures { result ≡ settled (source groups.now tracks.now text.now renames.now office.now) cause q s }
{
    let p = s.player;
    let altered = changed_word(groups, tracks, text, renames, office, p, q);
    let track = track_changed(p, q);
    let accounts = s.accounts;
    let told = note_all(accounts, altered, track, cause);
    desk_state::Service {
        player: q,
        accounts: told,
    }
}

// A call by no client.
pub fn no_writer(quiet: bool) -> Cause
    ensures { result ≡ no_writer quiet }
{
    Cause {
        quiet: quiet,
        writer: desk_slots::CLIENTS,
        wrote: 0,
    }
}

// A write by a client.
pub fn by_writer(who: u32, characteristic: u32) -> Cause
    ensures { result ≡ by_writer who characteristic }
{
    Cause {
        quiet: false,
        writer: who,
        wrote: characteristic,
    }
}
