// The five moves along a list of any kind, on the places of its elements (SCOPE 10.6, 11.5, 11.6).
#![tactic(auto)]

ghost use Rattle.std.specs.Prelude.{◌≡◌, ◌<◌};
ghost use Rattle.player_walk.specs.Signed.{signed_word, is_negative};
ghost use Rattle.player_walk.specs.Places.{way_of, wrap, mirror, goto_place, place_after};

// The five moves. Goto carries a signed number, as its word in two's complement.
#[derive(Clone, Copy)]
pub enum Step {
    Previous,
    Next,
    First,
    Last,
    Goto(u32),
}

// A signed number taken apart: Ahead(m) is m + 1, and Back(m) is -(m + 1). So |n| is never made in signed 32 bits (SCOPE 22.4).
#[derive(Clone, Copy)]
pub enum Way {
    Stay,
    Ahead(u32),
    Back(u32),
}

// Whether the number of a word is below 0.
#[tactic(auto, using(crate::proofs::Ways::negative))]
pub fn is_negative(word: u32) -> bool
    ensures { result ≡ is_negative (signed_word word) }
{
    0x8000_0000 <= word
}

#[tactic(auto, using(crate::proofs::Ways::stays, crate::proofs::Ways::ahead, crate::proofs::Ways::back))]
pub fn way_of(word: u32) -> Way
    ensures { result ≡ way_of (signed_word word) }
{
    if word == 0 {
        return Way::Stay;
    }
    if word < 0x8000_0000 {
        return Way::Ahead(word - 1);
    }
    Way::Back(0xFFFF_FFFF - word)
}

// The place that m steps lead to from the first of len places. Only where the list repeats is m folded by len.
fn wrapped(repeat: bool, len: usize, m: usize) -> Option<usize>
    requires { 0 < len }
    ensures { result ≡ wrap repeat len m }
{
    if repeat {
        return Some(m % len);
    }
    if m < len {
        return Some(m);
    }
    None
}

// The same place counted from the other end.
fn mirrored(len: usize, p: Option<usize>) -> Option<usize>
    ensures { result ≡ mirror len p }
{
    let k = p?;
    if k < len {
        return Some(len - 1 - k);
    }
    None
}

fn goto_place(repeat: bool, len: usize, k: usize, way: Way) -> Option<usize>
    requires { 0 < len }
    ensures { result ≡ goto_place repeat len k way }
{
    match way {
        Way::Stay => Some(k),
        Way::Ahead(m) => wrapped(repeat, len, ground::wide_word(m)),
        Way::Back(m) => {
            let p = wrapped(repeat, len, ground::wide_word(m));
            mirrored(len, p)
        }
    }
}

// The place that a move leads to from place k of len.
#[tactic(auto, unfolding(crate::specs::Places::place_after))]
pub fn place_after(step: Step, repeat: bool, len: usize, k: usize) -> Option<usize>
    requires { k < len }
    ensures { result ≡ place_after step repeat len k }
{
    match step {
        Step::Previous => {
            if 0 < k {
                return Some(k - 1);
            }
            if repeat {
                return Some(len - 1);
            }
            None
        }
        Step::Next => {
            if k + 1 < len {
                return Some(k + 1);
            }
            if repeat {
                return Some(0);
            }
            None
        }
        Step::First => Some(0),
        Step::Last => Some(len - 1),
        Step::Goto(n) => {
            let w = way_of(n);
            goto_place(repeat, len, k, w)
        }
    }
}
