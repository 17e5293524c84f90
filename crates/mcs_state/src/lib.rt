// The state as octets at fixed places, lowest octet first: the octet that names the layout at 0, the turn at 1, the links at 5, 10 octets each, and the
// services at 45, 302 octets each; 649 in all. A state of another layout, and one with a yes-or-no octet that is neither 0 nor 1, is read as a state that
// 201 refuses.
#![tactic(auto)]

ghost use Rattle.std.specs.Prelude.{◌≡◌, ◌++◌, ◌+◌, ◌*◌, ◌≤◌, ◌<◌, length, drop};
ghost use Rattle.std.proofs.Math.Seq.{paste};
ghost use Rattle.ground.specs.Lists.{part};
ghost use Rattle.desk_slots.specs.Slots.{service_count, client_count};
ghost use Rattle.desk_state.specs.Desk.{link_at, service_at, account_in, client_at, accounts_fit, services_rule, links_rule, desk_rule, with_account, with_service, with_client};
ghost use Rattle.mcs_state.specs.Codec.{wide_at, Kept, turn_from, turn_octets, mtu_from, link_from, link_octets, account_from, account_octets, player_from, player_octets, service_from, service_octets, desk_of, desk_octets};
ghost use Rattle.mcs_state.specs.Stored.{Octets, Plain, Stored, with_link, with_turn};

use desk_client::{Account, Client, Entry, Link};
use desk_state::{Desk, Service};
use player_state::{Mode, Name, Offer, Place, Player};

// The octet that names the layout.
const LAYOUT: u8 = 0x84;

// The turn of a state of another layout: there is no client 4, and 201 refuses it.
const NO_TURN: u32 = desk_slots::CLIENTS;

// Where the links begin, and the octets of each.
const LINKS: usize = 5;

const LINK: usize = 10;

// In a service, where the player's other parts begin behind its name, and where the accounts begin; and the octets of each account.
const PLAYER: usize = 128;

const ACCOUNTS: usize = PLAYER + 30;

const ACCOUNT: usize = 36;

// Where the services begin, and the octets of each.
const SERVICES: usize = LINKS + 4 * LINK;

const SERVICE: usize = ACCOUNTS + 4 * ACCOUNT;

// The number of eight octets.
fn wide_at(s: &[u8], at: usize) -> usize
    requires { at + 8 ≤ length s.now }
    ensures { result ≡ wide_at s.now at }
{
    let low = ground::word_at(s, at);
    let high = ground::word_at(s, at + 4);
    (low as usize) + (high as usize) * 4294967296
}

// The turn; none that a state may have where the layout is another.
#[tactic(auto, unfolding(crate::specs::Codec::turn_from))]
fn turn_from(s: &[u8]) -> u32
    requires { 5 ≤ length s.now }
    ensures { result ≡ turn_from s.now }
{
    if s[0] == LAYOUT {
        return ground::word_at(s, 1);
    }
    NO_TURN
}

#[tactic(auto, unfolding(crate::specs::Codec::turn_octets))]
fn turn_octets(turn: u32) -> [u8; 5]
    ensures { result ≡ turn_octets turn }
{
    let [t0, t1, t2, t3] = turn.to_le_bytes();
    [LAYOUT, t0, t1, t2, t3]
}

// The ATT_MTU of a link; 0, which 201 refuses, where a yes-or-no octet is neither 0 nor 1.
#[tactic(auto, unfolding(crate::specs::Codec::mtu_from))]
fn mtu_from(s: &[u8]) -> u32
    requires { 10 ≤ length s.now }
    ensures { result ≡ mtu_from s.now }
{
    let plain = (s[0] <= 1) & (s[1] <= 1);
    if plain {
        return ground::word_at(s, 2);
    }
    0
}

// The link of a client, out of a state's octets.
fn link_from(s: &[u8], who: usize) -> Link
    requires { (who < 4) × (649 ≤ length s.now) }
    ensures { result ≡ link_from (part s.now (5 + who * 10) (5 + who * 10 + 10)) }
{
    let at = LINKS + who * LINK;
    let end = at + LINK;
    let o = &s[at..end];
    Link {
        connected: o[0] != 0,
        encrypted: o[1] != 0,
        mtu: mtu_from(o),
        mark: ground::word_at(o, 6),
    }
}

#[tactic(auto, unfolding(crate::specs::Codec::link_octets))]
fn link_octets(l: Link) -> [u8; 10]
    ensures { result ≡ link_octets l }
{
    let [m0, m1, m2, m3] = l.mtu.to_le_bytes();
    let [k0, k1, k2, k3] = l.mark.to_le_bytes();
    [
        u8::from(l.connected),
        u8::from(l.encrypted),
        m0,
        m1,
        m2,
        m3,
        k0,
        k1,
        k2,
        k3,
    ]
}

// The account of a client, out of a service's octets.
fn account_from(s: &[u8], who: usize) -> Account
    requires { (who < 4) × (302 ≤ length s.now) }
    ensures { result ≡ account_from (part s.now (158 + who * 36) (158 + who * 36 + 36)) }
{
    let at = ACCOUNTS + who * ACCOUNT;
    let end = at + ACCOUNT;
    let o = &s[at..end];
    let e0 = Entry {
        opcode: o[20],
        code: o[21],
    };
    let e1 = Entry {
        opcode: o[22],
        code: o[23],
    };
    let e2 = Entry {
        opcode: o[24],
        code: o[25],
    };
    let e3 = Entry {
        opcode: o[26],
        code: o[27],
    };
    let e4 = Entry {
        opcode: o[28],
        code: o[29],
    };
    let e5 = Entry {
        opcode: o[30],
        code: o[31],
    };
    let e6 = Entry {
        opcode: o[32],
        code: o[33],
    };
    let e7 = Entry {
        opcode: o[34],
        code: o[35],
    };
    Account {
        subscribed: ground::word_at(o, 0),
        owed: ground::word_at(o, 4),
        fresh: ground::word_at(o, 8),
        waiting: wide_at(o, 12),
        results: [e0, e1, e2, e3, e4, e5, e6, e7],
    }
}

#[tactic(auto, unfolding(crate::specs::Codec::account_octets))]
fn account_octets(a: Account) -> [u8; 36]
    ensures { result ≡ account_octets a }
{
    let [s0, s1, s2, s3] = a.subscribed.to_le_bytes();
    let [o0, o1, o2, o3] = a.owed.to_le_bytes();
    let [f0, f1, f2, f3] = a.fresh.to_le_bytes();
    let [w0, w1, w2, w3, w4, w5, w6, w7] = a.waiting.to_le_bytes();
    let rs = a.results;
    [
        s0,
        s1,
        s2,
        s3,
        o0,
        o1,
        o2,
        o3,
        f0,
        f1,
        f2,
        f3,
        w0,
        w1,
        w2,
        w3,
        w4,
        w5,
        w6,
        w7,
        rs[0].opcode,
        rs[0].code,
        rs[1].opcode,
        rs[1].code,
        rs[2].opcode,
        rs[2].code,
        rs[3].opcode,
        rs[3].code,
        rs[4].opcode,
        rs[4].code,
        rs[5].opcode,
        rs[5].code,
        rs[6].opcode,
        rs[6].code,
        rs[7].opcode,
        rs[7].code,
    ]
}

// The player, out of the octets of its name and the 30 octets behind them.
fn player_from(name: &[u8], s: &[u8]) -> Player
    requires { (length name.now ≡ 128) × (30 ≤ length s.now) }
    ensures { result ≡ player_from name.now s.now }
{
    let octets = player_state::fill([0u8; 128], name);
    let called = Name {
        octets: octets,
        len: s[0],
    };
    let offer = Offer {
        mask: ground::word_at(s, 6),
        ccid: s[1],
    };
    let mode = Mode {
        media: s[2],
        order: s[3],
        speed: s[4],
        seeking: s[5],
    };
    let group = catalogue_tables::GroupNo(ground::word_at(s, 10));
    let track = catalogue_tables::TrackNo(ground::word_at(s, 14));
    let position = catalogue_tables::Position(ground::word_at(s, 18));
    let place = Place {
        group: group,
        track: track,
        position: position,
        rest: ground::word_at(s, 26),
    };
    Player {
        name: called,
        offer: offer,
        mode: mode,
        place: place,
        upcoming: ground::word_at(s, 22),
    }
}

// The 30 octets behind the name's.
#[tactic(auto, unfolding(crate::specs::Codec::player_octets))]
fn player_octets(p: Player) -> [u8; 30]
    ensures { result ≡ player_octets p }
{
    let [m0, m1, m2, m3] = p.offer.mask.to_le_bytes();
    let [g0, g1, g2, g3] = p.place.group.0.to_le_bytes();
    let [t0, t1, t2, t3] = p.place.track.0.to_le_bytes();
    let [p0, p1, p2, p3] = p.place.position.0.to_le_bytes();
    let [u0, u1, u2, u3] = p.upcoming.to_le_bytes();
    let [r0, r1, r2, r3] = p.place.rest.to_le_bytes();
    [
        p.name.len,
        p.offer.ccid,
        p.mode.media,
        p.mode.order,
        p.mode.speed,
        p.mode.seeking,
        m0,
        m1,
        m2,
        m3,
        g0,
        g1,
        g2,
        g3,
        t0,
        t1,
        t2,
        t3,
        p0,
        p1,
        p2,
        p3,
        u0,
        u1,
        u2,
        u3,
        r0,
        r1,
        r2,
        r3,
    ]
}

// A service, out of a state's octets.
fn service_from(s: &[u8], service: usize) -> Service
    requires { (service < 2) × (649 ≤ length s.now) }
    ensures { result ≡ service_from (part s.now (45 + service * 302) (45 + service * 302 + 302)) }
{
    let at = SERVICES + service * SERVICE;
    let end = at + SERVICE;
    let o = &s[at..end];
    let player = player_from(&o[0..PLAYER], &o[PLAYER..ACCOUNTS]);
    let a = account_from(o, 0);
    let b = account_from(o, 1);
    let c = account_from(o, 2);
    let d = account_from(o, 3);
    let accounts = [a, b, c, d];
    Service {
        player: player,
        accounts: accounts,
    }
}

// The state of 649 octets or more.
pub fn decode(s: &[u8]) -> Desk
    requires { 649 ≤ length s.now }
    ensures { result ≡ desk_of s.now }
{
    let turn = turn_from(&s[0..LINKS]);
    let a = link_from(s, 0);
    let b = link_from(s, 1);
    let c = link_from(s, 2);
    let d = link_from(s, 3);
    let generic = service_from(s, 0);
    let named = service_from(s, 1);
    let services = [generic, named];
    Desk {
        services: services,
        links: [a, b, c, d],
        turn: turn,
    }
}

// src over s, from the place at on.
fn put(s: &mut [u8], at: usize, src: &[u8])
    requires { at + length src.now ≤ length s.old }
    ensures { s.new ≡ paste s.old at src.now (length src.now) }
{
    ground::copy(&mut s[at..at + src.len()], src);
}

#[tactic(auto, unfolding(crate::specs::Codec::turn_octets))]
fn lay_turn(s: &mut [u8], turn: u32)
    requires { 649 ≤ length s.old }
    ensures { s.new ≡ paste s.old 0 (turn_octets turn) 5 }
{
    let octets = turn_octets(turn);
    put(s, 0, &octets);
}

#[tactic(auto, unfolding(crate::specs::Codec::link_octets))]
fn lay_link(s: &mut [u8], who: usize, l: Link)
    requires { (who < 4) × (649 ≤ length s.old) }
    ensures { s.new ≡ paste s.old (5 + who * 10) (link_octets l) 10 }
{
    let octets = link_octets(l);
    put(s, LINKS + who * LINK, &octets);
}

// A player's name, and what is behind it, at a service's place.
fn lay_name(s: &mut [u8], at: usize, name: [u8; 128])
    requires { at + 302 ≤ length s.old }
    ensures { (s.new ≡ paste s.old at name 128) × (length name ≡ 128) }
{
    put(s, at, &name);
}

#[tactic(auto, unfolding(crate::specs::Codec::player_octets))]
fn lay_player(s: &mut [u8], at: usize, p: Player)
    requires { at + 302 ≤ length s.old }
    ensures { s.new ≡ paste s.old (at + 128) (player_octets p) 30 }
{
    let octets = player_octets(p);
    put(s, at + PLAYER, &octets);
}

// A client's account with the service at a place.
fn lay_account(s: &mut [u8], at: usize, who: usize, a: Account)
    requires { (who < 4) × (at + 302 ≤ length s.old) }
    ensures s_after { s.new ≡ paste s.old (at + (158 + who * 36)) (account_octets a) 36 }
    ensures kept { Kept account_from account_octets 36 a }
{
    let octets = account_octets(a);
    put(s, at + (ACCOUNTS + who * ACCOUNT), &octets);
}

fn lay_service(s: &mut [u8], service: usize, v: Service)
    requires { (service < 2) × (649 ≤ length s.old) }
    ensures s_after { s.new ≡ paste s.old (45 + service * 302) (service_octets v) 302 }
    ensures kept { Kept service_from service_octets 302 v }
{
    let at = SERVICES + service * SERVICE;
    let p = v.player;
    let name = p.name.octets;
    let accounts = v.accounts;
    lay_name(s, at, name);
    lay_player(s, at, p);
    lay_account(s, at, 0, accounts[0]);
    lay_account(s, at, 1, accounts[1]);
    lay_account(s, at, 2, accounts[2]);
    lay_account(s, at, 3, accounts[3]);
}

// The octets of a state over the front of s; read again they give the state back.
pub fn encode(d: Desk, s: &mut [u8])
    requires { 649 ≤ length s.old }
    ensures s_after { s.new ≡ desk_octets d ++ drop 649 s.old }
    ensures s_after_2 { desk_of s.new ≡ d }
{
    let links = d.links;
    let services = d.services;
    lay_turn(s, d.turn);
    lay_link(s, 0, links[0]);
    lay_link(s, 1, links[1]);
    lay_link(s, 2, links[2]);
    lay_link(s, 3, links[3]);
    lay_service(s, 0, services[0]);
    lay_service(s, 1, services[1]);
}

// A part of a state, read out of its octets: the client that was served last.
pub fn turn_of(s: &[u8]) -> u32
    requires { 649 ≤ length s.now }
    ensures { result ≡ (desk_of s.now).turn }
{
    turn_from(&s[0..LINKS])
}

// The link of a client.
pub fn link_at(s: &[u8], who: u32) -> Link
    requires in_bounds { 649 ≤ length s.now }
    requires who_lt_client_count { who < client_count }
    ensures { result ≡ link_at (desk_of s.now).links who }
{
    link_from(s, who as usize)
}

// The account of a client with a service.
pub fn account_at(s: &[u8], service: u32, who: u32) -> Account
    requires in_bounds { 649 ≤ length s.now }
    requires service_lt_service_count { service < service_count }
    requires who_lt_client_count { who < client_count }
    ensures { result ≡ account_in (service_at (desk_of s.now) service) who }
{
    let at = SERVICES + (service as usize) * SERVICE;
    let end = at + SERVICE;
    let o = &s[at..end];
    account_from(o, who as usize)
}

// The player of a service.
pub fn player_at(s: &[u8], service: u32) -> Player
    requires in_bounds { 649 ≤ length s.now }
    requires service_lt_service_count { service < service_count }
    ensures { result ≡ (service_at (desk_of s.now) service).player }
{
    let at = SERVICES + (service as usize) * SERVICE;
    let end = at + SERVICE;
    let o = &s[at..end];
    player_from(&o[0..PLAYER], &o[PLAYER..ACCOUNTS])
}

// A service.
pub fn service_at(s: &[u8], service: u32) -> Service
    requires in_bounds { 649 ≤ length s.now }
    requires service_lt_service_count { service < service_count }
    ensures { result ≡ service_at (desk_of s.now) service }
{
    service_from(s, service as usize)
}

// A client's own record.
pub fn client_at(s: &[u8], who: u32) -> Client
    requires in_bounds { 649 ≤ length s.now }
    requires who_lt_client_count { who < client_count }
    ensures { result ≡ client_at (desk_of s.now) who }
{
    let link = link_at(s, who);
    let a = account_at(s, 0, who);
    let b = account_at(s, 1, who);
    Client {
        link: link,
        accounts: [a, b],
    }
}

// 201, over the octets. Of a service, whether each client's account fits its link.
fn accounts_fit(s: &[u8], service: u32) -> bool
    requires in_bounds { 649 ≤ length s.now }
    requires service_lt_service_count { service < service_count }
    ensures { result ≡ accounts_fit (desk_of s.now).links (service_at (desk_of s.now) service).accounts }
{
    let mut good = true;
    for i in 0..desk_slots::CLIENTS {
        let l = link_at(s, i);
        let a = account_at(s, service, i);
        let fits = desk_client::account_fits(l, a);
        good = good & fits;
    }
    good
}

fn services_right(groups: &[u32], tracks: &[u32], s: &[u8]) -> bool
    requires { 649 ≤ length s.now }
    ensures { result ≡ services_rule groups.now tracks.now (desk_of s.now).links (desk_of s.now).services }
{
    let mut good = true;
    for v in 0..desk_slots::SERVICES {
        let p = player_at(s, v);
        let player = player_check::player_right(groups, tracks, p);
        let fit = accounts_fit(s, v);
        good = good & (player & fit);
    }
    good
}

fn links_right(s: &[u8]) -> bool
    requires { 649 ≤ length s.now }
    ensures { result ≡ links_rule (desk_of s.now).links }
{
    let mut good = true;
    for i in 0..desk_slots::CLIENTS {
        let l = link_at(s, i);
        let right = desk_client::link_right(l);
        good = good & right;
    }
    good
}

// Whether a state keeps 201. It stands apart from its callers, so that on a chip its stack does not lie below that of the check of the catalogue.
#[inline(never)]
pub fn desk_right(groups: &[u32], tracks: &[u32], s: &[u8]) -> bool
    requires { 649 ≤ length s.now }
    ensures { result ≡ desk_rule groups.now tracks.now (desk_of s.now) }
{
    let players = services_right(groups, tracks, s);
    let clients = links_right(s);
    let turn = turn_of(s);
    players & clients & (turn < desk_slots::CLIENTS)
}

// What being lent octets tells, for the proof of a caller: no code comes of it.
pub fn are_octets(s: &[u8])
    ensures { Octets s.now }
{}

// One part of the state written back, where the octets are those that their state is written as: the octets of the other parts stay. Over what one of
// these leaves the next may write.
fn put_turn(s: &mut [u8], turn: u32)
    requires in_bounds { 649 ≤ length s.old }
    requires plain { Plain s.old }
    ensures { Stored (with_turn turn (desk_of s.old)) s.old s.new }
{
    lay_turn(s, turn);
}

fn put_link(s: &mut [u8], who: u32, l: Link)
    requires in_bounds { 649 ≤ length s.old }
    requires plain { Plain s.old }
    requires who_lt_client_count { who < client_count }
    ensures { Stored (with_link who l (desk_of s.old)) s.old s.new }
{
    lay_link(s, who as usize, l);
}

// A client's account with a service.
pub fn put_account(s: &mut [u8], service: u32, who: u32, a: Account)
    requires in_bounds { 649 ≤ length s.old }
    requires plain { Plain s.old }
    requires service_lt_service_count { service < service_count }
    requires who_lt_client_count { who < client_count }
    ensures { Stored (with_service service (with_account who a (service_at (desk_of s.old) service)) (desk_of s.old)) s.old s.new }
{
    let at = SERVICES + (service as usize) * SERVICE;
    lay_account(s, at, who as usize, a);
}

// A service: its player and its accounts.
pub fn put_service(s: &mut [u8], service: u32, v: Service)
    requires in_bounds { 649 ≤ length s.old }
    requires plain { Plain s.old }
    requires service_lt_service_count { service < service_count }
    ensures { Stored (with_service service v (desk_of s.old)) s.old s.new }
{
    lay_service(s, service as usize, v);
}

// A client's own record: its link, and its account with each service.
pub fn put_client(s: &mut [u8], who: u32, c: Client)
    requires in_bounds { 649 ≤ length s.old }
    requires plain { Plain s.old }
    requires who_lt_client_count { who < client_count }
    ensures { Stored (with_client who c (desk_of s.old)) s.old s.new }
{
    let link = c.link;
    let accounts = c.accounts;
    put_link(s, who, link);
    put_account(s, 0, who, accounts[0]);
    put_account(s, 1, who, accounts[1]);
}

// The record of the client that was served last: the turn is this client's.
pub fn put_served(s: &mut [u8], who: u32, c: Client)
    requires in_bounds { 649 ≤ length s.old }
    requires plain { Plain s.old }
    requires who_lt_client_count { who < client_count }
    ensures { Stored (with_turn who (with_client who c (desk_of s.old))) s.old s.new }
{
    put_client(s, who, c);
    put_turn(s, who);
}
