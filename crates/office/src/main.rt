// Plays a script of the fourteen calls on the whole from standard input, over the sample catalogue (SCOPE 22.1), and writes a line for each call: its answer;
// and for each of the two services the media state, order and both speeds; the group, track and position, with + and the rest of the clock where there is one,
// and the named next track, or - where none is named; and each of the four clients, as ATT_MTU: subscribed; owed; waiting results, or - while it is
// unconnected. A ! ends the line where lent octets behind the answer did not stay.
// A frame of the script: an octet for the catalogue (0 the sample, 1 the sample with long titles, 2 and 3 wrong ones, 4 the sample with segments close to each
// other, 5 the sample with recordings that are still running, 6 the sample with two titles that are not UTF-8, 7 the same with wrong groups, 8 the sample with
// folders, 9 one of 64 groups and 256 tracks), one for the call (0 a note, 1 to 12 in the order of SCOPE 17.5 from start to take, 13 damage to the state, 14 other
// titles, 15 the title, 16 the manual's Goto), one for the client, one for the service and one for the characteristic, a little endian word that the call
// takes, an octet for the room of the lent output, two, little endian, for the length of the text, the text. The text of a start: an octet with the length of
// service 0's name, that name, a little endian word with service 1's mask, an octet with its Content Control ID, and service 1's name; what is missing counts
// as 0, and names as what is there. Other titles are lent from their frame on, and have a line without a state: where the octet of the characteristic is 1,
// nothing is renamed, as in the beginning; else the word is how many words the entries have, and the text is these, little endian, and then the office's text.
// The text of a manual's Goto: little endian words, the allowed steps and the opcode.
#![tactic(auto)]

ghost use Rattle.std.specs.Prelude.{◌-◌, ◌<◌, ◌≤◌, length};
ghost use Rattle.desk_slots.specs.Slots.{slot_count};

use catalogue_titles::{Loan, Part};
use desk_goto::Arrival;
use desk_replies::Reply;
use ground::{Carried, Refusal};

// "Groups: 0 (no tracks), 1 (tracks 0–2), 2 (none), 3 (track 3); parents 0."
const GROUPS: [u32; 12] = [0, 0, 0, 0, 0, 3, 0, 3, 0, 0, 3, 1];
// Group 3 is its own parent.
const WRONG_GROUPS: [u32; 12] = [0, 0, 0, 0, 0, 3, 0, 3, 0, 3, 3, 1];
// The last record of the groups lacks its count.
const CUT_GROUPS: [u32; 11] = [0, 0, 0, 0, 0, 3, 0, 3, 0, 0, 3];
// Group 0 has track 0, group 1 in it tracks 1 and 2, and in that one are group 2, without tracks, and group 3, with track 3.
const FOLDER_GROUPS: [u32; 12] = [0, 0, 1, 0, 1, 2, 1, 3, 0, 1, 3, 1];
// "Track, duration, stamp: 0, 6000, 30 with starts 0, 1500, 4000; 1, 300, 10; 2, 0, 10; 3, 900, 5." The titles are Überfahrt, Rast, an empty one, Ziel.
const TRACKS: [u32; 24] = [
    6000, 30, 0, 3, 0, 10, 300, 10, 3, 0, 10, 4, 0, 10, 3, 0, 14, 0, 900, 5, 3, 0, 14, 4,
];
// The same tracks. Two of them have equal titles of 64 octets in two places of the text; that of track 3 has the 128 octets of both.
const LONG_TRACKS: [u32; 24] = [
    6000, 30, 0, 3, 0, 64, 300, 10, 3, 0, 64, 64, 0, 10, 3, 0, 128, 0, 900, 5, 3, 0, 0, 128,
];

const SEGMENTS: [u32; 3] = [0, 1500, 4000];
// The same tracks, and in track 0 four segments, of which the first two and the last are shorter than 300.
const CLOSE_TRACKS: [u32; 24] = [
    6000, 30, 0, 4, 0, 10, 300, 10, 4, 0, 10, 4, 0, 10, 4, 0, 14, 0, 900, 5, 4, 0, 14, 4,
];

const CLOSE_SEGMENTS: [u32; 4] = [0, 200, 450, 5800];
// The same tracks, of which all but the first are still running, track 1 with segments.
const RUNNING_TRACKS: [u32; 24] = [
    6000,
    30,
    0,
    3,
    0,
    10,
    catalogue_tables::NOT_YET_KNOWN,
    10,
    3,
    3,
    10,
    4,
    catalogue_tables::NOT_YET_KNOWN,
    10,
    6,
    0,
    14,
    0,
    catalogue_tables::NOT_YET_KNOWN,
    5,
    6,
    0,
    14,
    4,
];

const RUNNING_SEGMENTS: [u32; 6] = [0, 1500, 4000, 0, 1500, 8639999];

// The same tracks, with titles in a text of which the second and the fourth are not UTF-8.
const BAD_TRACKS: [u32; 24] = [
    6000, 30, 0, 3, 0, 8, 300, 10, 3, 0, 8, 10, 0, 10, 3, 0, 18, 0, 900, 5, 3, 0, 18, 4,
];

// More than the 128 octets of the longest value, so that octets behind it are seen too.
const MOST_ROOM: usize = 160;
// What the lent octets hold before a call.
const LENT: u8 = 0xA5;
// The frame that lends other titles, and the most words that its entries have.
const TITLES: u8 = 14;

const MOST_RENAMES: usize = 64;

// What a frame asks, but for its text. The octet is the characteristic; of a start service 0's Content Control ID, of a connect whether it is encrypted,
// of damage the part of the state.
#[derive(Clone, Copy)]
struct Ask {
    kind: u8,
    who: u32,
    service: u32,
    octet: u8,
    number: u32,
    room: usize,
    // How many words of the titles are entries; none where nothing is renamed.
    entries: Option<usize>,
}

// The first n octets, or all where there are fewer.
fn front(s: &[u8], n: usize) -> &[u8] {
    let e = n.min(s.len());
    &s[0..e]
}

// What follows the first n octets.
fn rest(s: &[u8], n: usize) -> &[u8]
    ensures { length result.now ≤ length s.now - n }
{
    if s.len() < n {
        let e = s.len();
        return &s[e..];
    }
    &s[n..]
}

// The octet of a word's lowest eight bits.
fn low(n: u32) -> u8 {
    (n % 256) as u8
}

fn write_number(n: u32) {
    io::write_all(1, b" ");
    io::print_decimal(1, n as u64);
}

fn write_place(n: usize) {
    io::write_all(1, b" ");
    io::print_decimal(1, n as u64);
}

// An octet in two's complement.
fn write_signed(x: u8) {
    if x < 0x80 {
        write_number(ground::wide_octet(x));
        return;
    }
    io::write_all(1, b" -");
    io::print_decimal(1, 0x100 - (x as u64));
}

fn write_octet(x: u8) {
    io::write_all(1, b" ");
    io::print_hex(1, x as u64, 2);
}

fn write_octets(s: &[u8]) {
    for octet in s {
        write_octet(*octet);
    }
}

fn write_media(media: u8) {
    match media {
        0 => {
            io::write_all(1, b" | Inactive");
        }
        1 => {
            io::write_all(1, b" | Playing");
        }
        2 => {
            io::write_all(1, b" | Paused");
        }
        3 => {
            io::write_all(1, b" | Seeking");
        }
        _ => {
            io::write_all(1, b" |");
            write_number(ground::wide_octet(media));
        }
    }
}

// The named next track by its number; the state holds it plus 1, and 0 where none is named.
fn write_upcoming(upcoming: u32) {
    if upcoming == 0 {
        io::write_all(1, b" -");
        return;
    }
    write_number(upcoming - 1);
}

// What the clock has kept of a hundredth of a second, directly behind the position.
fn write_rest(rest: u32) {
    if rest != 0 {
        io::write_all(1, b"+");
        io::print_decimal(1, rest as u64);
    }
}

fn write_player(p: player_state::Player) {
    write_media(p.mode.media);
    write_number(ground::wide_octet(p.mode.order));
    write_signed(p.mode.speed);
    write_signed(p.mode.seeking);
    io::write_all(1, b" |");
    write_number(p.place.group.0);
    write_number(p.place.track.0);
    write_number(p.place.position.0);
    write_rest(p.place.rest);
    write_upcoming(p.upcoming);
}

fn write_slot(w: u32, s: u32)
    requires { s < slot_count }
{
    if ground::has_bit(w, s) {
        write_number(desk_slots::characteristic_of(s));
    }
}

// The characteristics of a word of slots.
fn write_slots(w: u32) {
    for s in 0..desk_slots::SLOTS {
        write_slot(w, s);
    }
}

// The same, and a + for bits outside the slots.
fn write_set(w: u32) {
    write_slots(w);
    if !desk_slots::only_slots(w) {
        io::write_all(1, b" +");
    }
}

// What is seen of a client in a service.
fn write_client(l: desk_client::Link, a: desk_client::Account) {
    io::write_all(1, b" |");
    if !l.connected {
        io::write_all(1, b" -");
        return;
    }
    write_number(l.mtu);
    io::write_all(1, b":");
    write_set(a.subscribed);
    io::write_all(1, b";");
    write_set(a.owed);
    io::write_all(1, b"; ");
    io::print_decimal(1, a.waiting as u64);
}

fn write_service(d: desk_state::Desk, s: desk_state::Service) {
    let p = s.player;
    write_player(p);
    write_client(desk_state::link_at(d, 0), desk_state::account_in(s, 0));
    write_client(desk_state::link_at(d, 1), desk_state::account_in(s, 1));
    write_client(desk_state::link_at(d, 2), desk_state::account_in(s, 2));
    write_client(desk_state::link_at(d, 3), desk_state::account_in(s, 3));
}

fn write_state(state: &[u8; 649]) {
    let d = mcs_state::decode(state);
    write_service(d, desk_state::service_at(d, 0));
    write_service(d, desk_state::service_at(d, 1));
}

// A digit of a code of ATT, as SCOPE 20.2 writes it.
fn write_digit(x: u32) {
    let digit = (x % 16) as u8;
    if digit < 10 {
        let text = [digit + 48];
        io::write_all(1, &text);
        return;
    }
    let text = [digit + 55];
    io::write_all(1, &text);
}

// A refusal: a number of this project, or below 200 a code of ATT.
fn write_refused(number: u32) {
    io::write_all(1, b"refused ");
    if number < 200 {
        io::write_all(1, b"0x");
        write_digit(number / 16);
        write_digit(number);
        return;
    }
    io::print_decimal(1, number as u64);
}

// A refusal: its number, and what it carries.
fn refuse(refusal: Refusal) {
    write_refused(u32::from(refusal.reason));
    match refusal.carried {
        Carried::Nothing => {}
        Carried::One(offset) => {
            write_place(offset);
        }
        Carried::Two(track, offset) => {
            write_place(track);
            write_place(offset);
        }
    }
}

fn write_reply(reply: Reply) {
    match reply {
        Reply::Done => {
            io::write_all(1, b"done");
        }
        Reply::Octets(_) => {
            io::write_all(1, b"read");
        }
        Reply::Served(who, service, characteristic, _) => {
            io::write_all(1, b"take");
            write_number(who);
            write_number(service);
            write_number(characteristic);
        }
        Reply::Handed(service, characteristic, _) => {
            io::write_all(1, b"own take");
            write_number(service);
            write_number(characteristic);
        }
    }
}

fn write_answer(answer: Result<Reply, Refusal>) {
    match answer {
        Ok(reply) => {
            write_reply(reply);
        }
        Err(refusal) => {
            refuse(refusal);
        }
    }
}

// "Nothing owed: the answer says so and nothing changes."
fn write_taken(answer: Result<Reply, Refusal>) {
    match answer {
        Ok(Reply::Done) => {
            io::write_all(1, b"nothing");
        }
        _ => {
            write_answer(answer);
        }
    }
}

// Which text the title is a part of, where it stands in it and how long it is; or the refusal.
fn write_title(title: Result<Part, Refusal>) {
    match title {
        Ok(part) => {
            if part.renamed {
                io::write_all(1, b"title office");
            } else {
                io::write_all(1, b"title card");
            }
            write_number(part.offset);
            write_number(part.len);
        }
        Err(refusal) => {
            refuse(refusal);
        }
    }
}

// Writes the line of a call, with the state that it left.
fn report(answer: Result<Reply, Refusal>, state: &[u8; 649]) {
    write_answer(answer);
    write_state(state);
    io::write_all(1, b"\n");
}

// How many octets an answer says were handed out.
fn handed(answer: Result<Reply, Refusal>) -> usize {
    match answer {
        Ok(Reply::Octets(n)) => n,
        Ok(Reply::Served(_, _, _, n)) => n,
        _ => 0,
    }
}

// Whether all octets are as they were lent.
fn is_untouched(s: &[u8]) -> bool {
    s.iter().all(|octet| *octet == LENT)
}

// The rest of the line of a read or a take, from the octets on. "lent octets behind the answer stay"
fn report_lent(answer: Result<Reply, Refusal>, state: &[u8; 649], out: &[u8; MOST_ROOM]) {
    let whole = &out[..];
    let n = handed(answer);
    write_octets(front(whole, n));
    write_state(state);
    if !is_untouched(rest(whole, n)) {
        io::write_all(1, b" !");
    }
    io::write_all(1, b"\n");
}

fn read(loan: &Loan, state: &mut [u8; 649], c: Ask) {
    let mut out = [LENT; MOST_ROOM];
    let room = c.room.min(MOST_ROOM);
    let answer = desk_exchange::read(
        loan,
        state,
        c.who,
        c.service,
        ground::wide_octet(c.octet),
        c.number,
        &mut out[0..room],
    );
    write_answer(answer);
    report_lent(answer, state, &out);
}

fn take(loan: &Loan, state: &mut [u8; 649], c: Ask) {
    let mut out = [LENT; MOST_ROOM];
    let room = c.room.min(MOST_ROOM);
    let answer = desk_take::take(loan, state, &mut out[0..room]);
    write_taken(answer);
    report_lent(answer, state, &out);
}

// The title itself, as the one call hands it back, behind what the other says of it.
fn title(loan: &Loan, state: &[u8; 649], c: Ask) {
    write_title(desk_title::which(loan, state, c.service));
    write_octets(desk_title::title(
        loan.groups,
        loan.tracks,
        loan.segments,
        loan.text,
        loan.renames,
        loan.office,
        state,
        c.service,
    ));
    write_state(state);
    io::write_all(1, b"\n");
}

// What the manual's Goto comes to, the steps made, and where the player would be; or the refusal.
fn write_arrival(arrival: Result<Arrival, Refusal>) {
    match arrival {
        Ok(a) => {
            io::write_all(1, b"goto");
            write_number(u32::from(a.outcome));
            write_number(a.steps);
            io::write_all(1, b" at");
            write_number(a.place.group.0);
            write_number(a.place.track.0);
            write_number(a.place.position.0);
            write_rest(a.place.rest);
        }
        Err(refusal) => {
            refuse(refusal);
        }
    }
}

// The manual's Goto: the number stands in the frame, the allowed steps and the opcode in the text.
fn manual_goto(loan: &Loan, state: &[u8; 649], c: Ask, words: &[u8]) {
    write_arrival(desk_goto::manual_goto(
        loan,
        state,
        c.service,
        word(rest(words, 4)),
        c.number,
        word(words),
    ));
    write_state(state);
    io::write_all(1, b"\n");
}

// The player elsewhere, and nothing else of it altered.
fn with_place(
    p: player_state::Player,
    group: u32,
    track: u32,
    position: u32,
) -> player_state::Player {
    let place = player_state::Place {
        group: catalogue_tables::GroupNo(group),
        track: catalogue_tables::TrackNo(track),
        position: catalogue_tables::Position(position),
        rest: p.place.rest,
    };
    let mut q = p;
    q.place = place;
    q
}

fn with_rest(p: player_state::Player, rest: u32) -> player_state::Player {
    let mut q = p;
    q.place.rest = rest;
    q
}

fn with_upcoming(p: player_state::Player, upcoming: u32) -> player_state::Player {
    let mut q = p;
    q.upcoming = upcoming;
    q
}

fn with_name_length(p: player_state::Player, len: u8) -> player_state::Player {
    let octets = p.name.octets;
    let name = player_state::Name {
        octets: octets,
        len: len,
    };
    let mut q = p;
    q.name = name;
    q
}

fn with_first_octet(p: player_state::Player, first: u8) -> player_state::Player {
    let mut octets = p.name.octets;
    octets[0] = first;
    let name = player_state::Name {
        octets: octets,
        len: p.name.len,
    };
    let mut q = p;
    q.name = name;
    q
}

// Sets one part of the player to anything.
fn damage_player(p: player_state::Player, part: u8, number: u32) -> player_state::Player {
    match part {
        0 => with_rest(p, number),
        1 => player_state::in_mode(p, low(number), p.mode.seeking),
        2 => player_state::with_order(p, low(number)),
        3 => player_state::in_mode(p, p.mode.media, low(number)),
        4 => with_place(p, number, p.place.track.0, p.place.position.0),
        5 => with_place(p, p.place.group.0, number, p.place.position.0),
        6 => with_place(p, p.place.group.0, p.place.track.0, number),
        7 => with_upcoming(p, number),
        8 => with_name_length(p, low(number)),
        9 => with_first_octet(p, low(number)),
        _ => p,
    }
}

// The code of the result at a place: the place is the second octet of the number, the code its first.
fn with_code(a: desk_client::Account, number: u32) -> desk_client::Account {
    let mut results = a.results;
    let at = ground::wide_word(number / 256 % 8);
    let e = results[at];
    results[at] = desk_client::Entry {
        opcode: e.opcode,
        code: low(number),
    };
    let mut b = a;
    b.results = results;
    b
}

// Sets one part of a client's link to anything.
fn damage_link(l: desk_client::Link, part: u8, number: u32) -> desk_client::Link {
    let mut m = l;
    match part {
        11 => {
            m.connected = number != 0;
        }
        12 => {
            m.encrypted = number != 0;
        }
        13 => {
            m.mtu = number;
        }
        17 => {
            m.mark = number;
        }
        _ => {}
    }
    m
}

// Sets one part of a client's account to anything.
fn damage_account(a: desk_client::Account, part: u8, number: u32) -> desk_client::Account {
    let mut b = a;
    match part {
        14 => {
            b.subscribed = number;
        }
        15 => {
            b.owed = number;
        }
        16 => {
            b.fresh = number;
        }
        18 => {
            b.waiting = ground::wide_word(number);
        }
        19 => {
            return with_code(a, number);
        }
        _ => {}
    }
    b
}

// The parts up to 9 are those of the service's player, from 11 on of the client's account in it.
fn damage_service(s: desk_state::Service, who: u32, part: u8, number: u32) -> desk_state::Service {
    if part < 10 {
        let p = s.player;
        let mut t = s;
        t.player = damage_player(p, part, number);
        return t;
    }
    if who < desk_slots::CLIENTS {
        let a = desk_state::account_in(s, who);
        let next = damage_account(a, part, number);
        return desk_state::with_account(s, who, next);
    }
    s
}

// The parts that are of no service: 10 is the round of the clients, from 11 on those of the client's link.
fn damage_shared(d: desk_state::Desk, who: u32, part: u8, number: u32) -> desk_state::Desk {
    if part == 10 {
        let mut e = d;
        e.turn = number;
        return e;
    }
    if who < desk_slots::CLIENTS {
        let at = who as usize;
        let l = desk_state::link_at(d, who);
        let next = damage_link(l, part, number);
        let mut e = d;
        e.links[at] = next;
        return e;
    }
    d
}

fn damage(d: desk_state::Desk, who: u32, service: u32, part: u8, number: u32) -> desk_state::Desk {
    let e = damage_shared(d, who, part, number);
    if service < desk_slots::SERVICES {
        let s = desk_state::service_at(e, service);
        let next = damage_service(s, who, part, number);
        return desk_state::with_service(e, service, next);
    }
    e
}

fn damaged(state: &mut [u8; 649], c: Ask) {
    let d = mcs_state::decode(state);
    let e = damage(d, c.who, c.service, c.octet, c.number);
    mcs_state::encode(e, state);
    io::write_all(1, b"damaged");
    write_state(state);
    io::write_all(1, b"\n");
}

fn note(words: &[u8]) {
    io::write_all(1, b"# ");
    io::write_all(1, words);
    io::write_all(1, b"\n");
}

// An octet of a text as a count, 0 where the text ends before it.
fn count_at(s: &[u8], at: usize) -> usize
    ensures { result < 256 }
{
    ground::wide_word(ground::wide_octet(ground::octet_or_zero(s, at)))
}

// The little endian word of the first four octets; 0 where there are fewer.
fn word(s: &[u8]) -> u32 {
    if s.len() < 4 {
        return 0;
    }
    ground::word_at(s, 0)
}

// "Start names both players at once": service 0's mask and Content Control ID stand in the frame, its name and all of service 1 in the text.
fn start(loan: &Loan, state: &mut [u8; 649], c: Ask, words: &[u8]) {
    let n = count_at(words, 0);
    let name = front(rest(words, 1), n);
    let other = rest(words, 1 + n);
    let answer = desk_console::start(
        loan,
        name,
        c.number,
        c.octet,
        rest(other, 5),
        word(other),
        ground::octet_or_zero(other, 4),
        state,
    );
    report(answer, state);
}

// The calls of the desk itself, and notes.
fn call_desk(loan: &Loan, state: &mut [u8; 649], c: Ask, words: &[u8]) {
    let kind = c.kind;
    match kind {
        1 => {
            start(loan, state, c, words);
        }
        2 => {
            let answer = desk_console::set_name(loan, state, c.service, words);
            report(answer, state);
        }
        3 => {
            let answer = desk_console::activate(
                loan,
                state,
                c.service,
                catalogue_tables::GroupNo(c.number),
            );
            report(answer, state);
        }
        4 => {
            let answer = desk_console::deactivate(loan, state, c.service);
            report(answer, state);
        }
        5 => {
            let answer = desk_console::advance(loan, state, c.service, c.number);
            report(answer, state);
        }
        _ => {
            note(words);
        }
    }
}

// The calls of the clients, and damage.
fn call_client(loan: &Loan, state: &mut [u8; 649], c: Ask, words: &[u8]) {
    let kind = c.kind;
    let characteristic = ground::wide_octet(c.octet);
    match kind {
        6 => {
            let answer = desk_links::connect(loan, state, c.who, c.number, c.octet != 0);
            report(answer, state);
        }
        7 => {
            let answer = desk_links::disconnect(loan, state, c.who);
            report(answer, state);
        }
        8 => {
            let answer = desk_links::subscribe(loan, state, c.who, c.service, characteristic);
            report(answer, state);
        }
        9 => {
            let answer = desk_links::unsubscribe(loan, state, c.who, c.service, characteristic);
            report(answer, state);
        }
        10 => {
            read(loan, state, c);
        }
        11 => {
            let answer = desk_exchange::write(loan, state, c.who, c.service, characteristic, words);
            report(answer, state);
        }
        12 => {
            take(loan, state, c);
        }
        15 => {
            title(loan, state, c);
        }
        16 => {
            manual_goto(loan, state, c, words);
        }
        _ => {
            damaged(state, c);
        }
    }
}

// The state that a call left. It is lent as the whole array, of which the length is known however the call went.
fn left(state: &[u8; 649]) -> desk_state::Desk {
    mcs_state::decode(state)
}

// Makes a call on the octets of the state, as a caller from C does.
fn call_with(loan: &Loan, d: desk_state::Desk, c: Ask, words: &[u8]) -> desk_state::Desk {
    let mut state = [0u8; 649];
    mcs_state::encode(d, &mut state);
    if c.kind < 6 {
        call_desk(loan, &mut state, c, words);
    } else {
        call_client(loan, &mut state, c, words);
    }
    left(&state)
}

// Fills the table with the little endian words of s.
fn read_words(table: &mut [u32; MOST_RENAMES], s: &[u8]) {
    for i in 0..MOST_RENAMES {
        table[i] = word(rest(s, i * 4));
    }
}

// The first n words, or all where there are fewer.
fn front_of_words(table: &[u32; MOST_RENAMES], n: usize) -> &[u32] {
    let whole = &table[..];
    let e = n.min(whole.len());
    &whole[0..e]
}

// The office's text, behind the words of the entries.
fn office_of(titles: &[u8], entries: usize) -> &[u8] {
    rest(titles, entries.min(MOST_RENAMES) * 4)
}

// Makes a call with the titles that are lent by now.
fn call(
    groups: &[u32],
    tracks: &[u32],
    segments: &[u32],
    text: &[u8],
    titles: &[u8],
    d: desk_state::Desk,
    c: Ask,
    words: &[u8],
) -> desk_state::Desk {
    match c.entries {
        None => {
            let zeros = [0u32; 512];
            let n = catalogue_tables::track_count(tracks).min(256) * 2;
            let loan = Loan {
                groups: groups,
                tracks: tracks,
                segments: segments,
                text: text,
                renames: &zeros[0..n],
                office: front(titles, 0),
            };
            call_with(&loan, d, c, words)
        }
        Some(entries) => {
            let mut renames = [0u32; MOST_RENAMES];
            read_words(&mut renames, titles);
            let loan = Loan {
                groups: groups,
                tracks: tracks,
                segments: segments,
                text: text,
                renames: front_of_words(&renames, entries),
                office: office_of(titles, entries),
            };
            call_with(&loan, d, c, words)
        }
    }
}

// 64 groups, of which the last has all tracks, and 256 tracks of duration 0, without segments and with empty titles.
fn call_over_many(titles: &[u8], d: desk_state::Desk, c: Ask, words: &[u8]) -> desk_state::Desk {
    let mut groups = [0u32; 192];
    groups[191] = 256;
    let tracks = [0u32; 1536];
    let segments: [u32; 0] = [];
    let text: [u8; 0] = [];
    call(&groups, &tracks, &segments, &text, titles, d, c, words)
}

fn call_over(
    catalogue: u8,
    titles: &[u8],
    d: desk_state::Desk,
    c: Ask,
    words: &[u8],
) -> desk_state::Desk {
    let text = b"\xC3\x9CberfahrtRastZiel";
    let bad = b"Pr\xC3\xA9ludeInter\xC3ezzoCod\xFF";
    match catalogue {
        0 => call(&GROUPS, &TRACKS, &SEGMENTS, text, titles, d, c, words),
        1 => call(
            &GROUPS,
            &LONG_TRACKS,
            &SEGMENTS,
            b"Gespr\xC3\xA4ch \xC3\xBCber die \xC3\x9Cberfahrt, aufgenommen im Hafen, erste SpurGespr\xC3\xA4ch \xC3\xBCber die \xC3\x9Cberfahrt, aufgenommen im Hafen, erste Spur",
            titles,
            d,
            c,
            words,
        ),
        2 => call(&WRONG_GROUPS, &TRACKS, &SEGMENTS, text, titles, d, c, words),
        3 => call(&CUT_GROUPS, &TRACKS, &SEGMENTS, text, titles, d, c, words),
        4 => call(
            &GROUPS,
            &CLOSE_TRACKS,
            &CLOSE_SEGMENTS,
            text,
            titles,
            d,
            c,
            words,
        ),
        5 => call(
            &GROUPS,
            &RUNNING_TRACKS,
            &RUNNING_SEGMENTS,
            text,
            titles,
            d,
            c,
            words,
        ),
        6 => call(&GROUPS, &BAD_TRACKS, &SEGMENTS, bad, titles, d, c, words),
        7 => call(
            &WRONG_GROUPS,
            &BAD_TRACKS,
            &SEGMENTS,
            bad,
            titles,
            d,
            c,
            words,
        ),
        8 => call(
            &FOLDER_GROUPS,
            &TRACKS,
            &SEGMENTS,
            text,
            titles,
            d,
            c,
            words,
        ),
        _ => call_over_many(titles, d, c, words),
    }
}

// The length of the first frame's text.
fn text_length(s: &[u8]) -> usize
    ensures { result < 65536 }
{
    count_at(s, 10) + 256 * count_at(s, 11)
}

// Whether the first frame lends other titles.
fn lends(s: &[u8]) -> bool {
    ground::octet_or_zero(s, 1) == TITLES
}

// The titles that are lent from the first frame on.
fn titles_of(s: &[u8]) -> &[u8] {
    front(rest(s, 12), text_length(s))
}

fn report_titles(titles: &[u8], lent: Option<usize>) {
    let Some(entries) = lent else {
        io::write_all(1, b"titles none\n");
        return;
    };
    let office = office_of(titles, entries);
    io::write_all(1, b"titles");
    write_place(entries);
    write_place(office.len());
    io::write_all(1, b"\n");
}

// Makes the call of the first frame, with these titles, of which so many words are entries.
fn frame(s: &[u8], titles: &[u8], entries: Option<usize>, d: desk_state::Desk) -> desk_state::Desk {
    if s.len() < 12 {
        return d;
    }
    if lends(s) {
        report_titles(titles, entries);
        return d;
    }
    let catalogue = s[0];
    let kind = s[1];
    let who = ground::wide_octet(s[2]);
    let service = ground::wide_octet(s[3]);
    let octet = s[4];
    let number = ground::word_at(s, 5);
    let room = ground::wide_word(ground::wide_octet(s[9]));
    let c = Ask {
        kind: kind,
        who: who,
        service: service,
        octet: octet,
        number: number,
        room: room,
        entries: entries,
    };
    let words = front(rest(s, 12), text_length(s));
    call_over(catalogue, titles, d, c, words)
}

// What follows the first frame.
fn behind(s: &[u8]) -> &[u8]
    ensures { length result.now ≤ length s.now - 12 }
{
    rest(s, 12 + text_length(s))
}

fn frames(s: &[u8]) {
    let none: [u8; 0] = [];
    let p = player_state::start(&none, 0, 0);
    let mut d = desk_state::fresh_desk(p, p);
    let mut left = s;
    let mut titles = s;
    let mut entries: Option<usize> = None;
    // Stays a while: a turn goes on by the length of a frame.
    while 0 < left.len() {
        if lends(left) {
            let lent = titles_of(left);
            titles = &lent[0..];
            let words = ground::wide_word(word(rest(left, 5)));
            entries = if count_at(left, 4) == 1 {
                None
            } else {
                Some(words)
            };
        }
        d = frame(left, titles, entries, d);
        let after = behind(left);
        left = &after[0..];
    }
}

fn main() {
    let mut input = [0u8; 524288];
    let n = io::read_full(0, &mut input);
    frames(&input[..n]);
}
