// The characteristics, the slots of a client, sets of them as words of bits, and the round.
#![tactic(auto)]

ghost use Rattle.std.specs.Prelude.{◌≡◌, ◌∷◌, [], ◌≤◌, ◌<◌, ◌^◌, ◌&&◌, ltb};
ghost use Rattle.ground.specs.Cases.{pick, has};
ghost use Rattle.desk_slots.specs.Characteristics.{every_one, readables, writables, writer_knows, is_in};
ghost use Rattle.desk_slots.specs.Table.{size_of};
ghost use Rattle.desk_slots.specs.Round.{next};
ghost use Rattle.desk_slots.specs.Slots.{slot_count, service_count, place_count, client_count, slot_of, characteristic_of, service_of, slot_at, places_of, only_slots, insert, remove, union, inter, minus, owing};

// The same numbers stand in specs/Slots.antt.
pub const SLOTS: u32 = 14;

pub const SERVICES: u32 = 2;

pub const PLACES: u32 = SERVICES * SLOTS;

pub const CLIENTS: u32 = 4;

// The characteristics as words of bits: all, those that may be read, those that may be written, those not owed to their writer.
const EVERY_ONE: u32 = 0x004FFFF2;

pub const READABLE: u32 = 0x004BFFE2;

const WRITABLE: u32 = 0x0004D980;

const SPARED: u32 = 0x0000D900;

fn in_word(word: u32, c: u32) -> bool
    ensures { result ≡ (ltb c 32 && has word c) }
{
    if c < 32 {
        return ground::has_bit(word, c);
    }
    false
}

pub fn is_characteristic(c: u32) -> bool
    ensures { result ≡ is_in every_one c }
{
    in_word(EVERY_ONE, c)
}

pub fn may_read(c: u32) -> bool
    ensures { result ≡ is_in readables c }
{
    in_word(READABLE, c)
}

pub fn may_write(c: u32) -> bool
    ensures { result ≡ is_in writables c }
{
    in_word(WRITABLE, c)
}

// Whether a change of a characteristic is not owed to the client that wrote it.
pub fn writer_knows(c: u32) -> bool
    ensures { result ≡ is_in writer_knows c }
{
    in_word(SPARED, c)
}

// How many octets are written to a characteristic; 0 where there is not one such number.
#[tactic(auto, unfolding(crate::specs::Table::size_of))]
pub fn size_of(c: u32) -> usize
    ensures { result ≡ size_of c }
{
    match c {
        7 => 4,
        8 => 1,
        11 => 6,
        12 => 6,
        14 => 6,
        15 => 1,
        _ => 0,
    }
}

// The slot of a characteristic; SLOTS where it has none.
#[tactic(auto, unfolding(crate::specs::Slots::slot_of))]
pub fn slot_of(characteristic: u32) -> u32
    ensures { (result ≤ slot_count) × (result ≡ slot_of characteristic) }
{
    match characteristic {
        1 => 0,
        4 => 1,
        5 => 2,
        6 => 3,
        7 => 4,
        8 => 5,
        9 => 6,
        11 => 7,
        12 => 8,
        13 => 9,
        14 => 10,
        15 => 11,
        17 => 12,
        18 => 13,
        _ => SLOTS,
    }
}

#[tactic(auto, unfolding(crate::specs::Slots::characteristic_of))]
pub fn characteristic_of(slot: u32) -> u32
    requires { slot < slot_count }
    ensures { (result < 32) × (result ≡ characteristic_of slot) }
{
    match slot {
        0 => 1,
        1 => 4,
        2 => 5,
        3 => 6,
        4 => 7,
        5 => 8,
        6 => 9,
        7 => 11,
        8 => 12,
        9 => 13,
        10 => 14,
        11 => 15,
        12 => 17,
        _ => 18,
    }
}

// Whether no bit outside the slots is set.
#[tactic(auto, unfolding(crate::specs::Slots::only_slots))]
pub fn only_slots(w: u32) -> bool
    ensures { result ≡ only_slots w }
{
    w < 1 << SLOTS
}

// The set w with the number s.
pub fn with(w: u32, s: u32) -> u32
    requires { s < 32 }
    ensures { result ≡ insert w s }
{
    w | (1 << s)
}

// The set w, with the number s where `on` says so.
pub fn with_if(w: u32, s: u32, on: bool) -> u32
    requires { s < 32 }
    ensures { result ≡ pick on (insert w s) w }
{
    if on {
        return with(w, s);
    }
    w
}

// The set w without the number s.
pub fn without(w: u32, s: u32) -> u32
    requires { s < 32 }
    ensures { result ≡ remove w s }
{
    w & !(1 << s)
}

// What is in w or in v.
#[tactic(auto, unfolding(crate::specs::Slots::union))]
pub fn union_of(w: u32, v: u32) -> u32
    ensures { result ≡ union w v }
{
    w | v
}

// What is in w and in v.
#[tactic(auto, unfolding(crate::specs::Slots::inter))]
pub fn intersection(w: u32, v: u32) -> u32
    ensures { result ≡ inter w v }
{
    w & v
}

// What is in w and not in v.
pub fn difference(w: u32, v: u32) -> u32
    ensures { result ≡ minus w v }
{
    w & !v
}

// The service of a place, and its slot there.
#[tactic(auto, unfolding(crate::specs::Slots::service_of))]
pub fn service_of(place: u32) -> u32
    requires { place < place_count }
    ensures { (result < service_count) × (result ≡ service_of place) }
{
    place / SLOTS
}

#[tactic(auto, unfolding(crate::specs::Slots::slot_at))]
pub fn slot_at(place: u32) -> u32
    ensures { (result < slot_count) × (result ≡ slot_at place) }
{
    place % SLOTS
}

// The sets of slots of both services as one set of places.
pub fn places_of(generic: u32, named: u32) -> u32
    requires { (generic < 2 ^ slot_count) × (named < 2 ^ slot_count) }
    ensures { (result < 2 ^ place_count) × (result ≡ places_of (generic ∷ named ∷ [])) }
{
    generic | (named << SLOTS)
}

// The first place of the set w after the place `after`, round the places: the trailing zeros of the word turned so that it begins behind `after`.
pub fn next_place(w: u32, after: u32) -> u32
    requires { (0 < w) × (w < 2 ^ place_count) × (after < place_count) }
    ensures { (result < place_count) × (result ≡ next place_count (has w) after) }
{
    let start = (after + 1) % PLACES;
    let turned = (w >> start) | (w << (PLACES - start));
    (start + u32::trailing_zeros(turned)) % PLACES
}

// The first client after the client `after`, round them, that is owed something; CLIENTS where none is.
pub fn next_client(owed: [u32; 4], after: u32) -> u32
    requires { after < client_count }
    ensures { (result ≤ client_count) × (result ≡ next client_count (owing owed) after) }
{
    for d in 1..=CLIENTS {
        let c = (after + d) % CLIENTS;
        let i = c as usize;
        if owed[i] != 0 {
            return c;
        }
    }
    CLIENTS
}
