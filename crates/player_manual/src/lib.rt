// The manual's Goto on the places of a list (SCOPE 15): First or Last and then each step, as many as are allowed. A turn of the loop makes and counts one.
#![tactic(auto)]

ghost use Rattle.std.specs.Prelude.{◌≡◌, ◌-◌, ◌<◌};
ghost use Rattle.player_walk.specs.Places.{place_after};
ghost use Rattle.player_manual.specs.Made.{more, steps, from_end, by_steps};
ghost use Rattle.player_manual.specs.Places.{on_places};

// How a Goto by single steps ends. Steps are counted, First or Last among them (SCOPE 15.2).
#[derive(Clone, Copy)]
pub enum Made<P> {
    // All steps were made: where they led, and how many they were.
    All(P, u32),
    // So many steps, of which the last could not be made (SCOPE 15.4).
    Stopped(u32),
    // So many steps as were allowed, and there was one more to make (SCOPE 15.5).
    RanOut(u32),
}

// The steps behind the first one, which is counted already: `wanted` more, from the place k.
fn steps_on(
    step: player_walk::Step,
    repeat: bool,
    len: usize,
    k: usize,
    wanted: u32,
    allowed: u32,
) -> Made<usize>
    requires k_lt_len { k < len }
    requires allowed_nonzero { 0 < allowed }
    ensures { result ≡ more 1 (steps (place_after step repeat len) (allowed - 1) wanted k) }
{
    let mut at = k;
    let mut made: u32 = 1;
    for i in 0..wanted {
        if made == allowed {
            return Made::RanOut(made);
        }
        made += 1;
        let p = player_walk::place_after(step, repeat, len, at);
        let Some(next) = p else {
            return Made::Stopped(made);
        };
        at = next;
    }
    Made::All(at, made)
}

// First or Last, and then the steps.
#[tactic(auto, using(crate::proofs::Steps::none_allowed, crate::proofs::Steps::no_end, crate::proofs::Steps::at_end_lem, crate::proofs::Places::stays))]
fn from_end(
    end: player_walk::Step,
    step: player_walk::Step,
    repeat: bool,
    len: usize,
    k: usize,
    wanted: u32,
    allowed: u32,
) -> Made<usize>
    requires { k < len }
    ensures { result ≡ from_end (place_after end repeat len k) (place_after step repeat len) allowed wanted }
{
    if allowed == 0 {
        return Made::RanOut(0);
    }
    let p = player_walk::place_after(end, repeat, len, k);
    match p {
        Some(start) => steps_on(step, repeat, len, start, wanted, allowed),
        None => Made::Stopped(1),
    }
}

// Goto a signed number, as its word in two's complement, from place k of len.
pub fn goto_by_steps(n: u32, allowed: u32, repeat: bool, len: usize, k: usize) -> Made<usize>
    requires { k < len }
    ensures { result ≡ by_steps (on_places repeat len) n allowed k }
{
    let way = player_walk::way_of(n);
    match way {
        player_walk::Way::Stay => Made::All(k, 0),
        player_walk::Way::Ahead(m) => {
            let first = player_walk::Step::First;
            let next = player_walk::Step::Next;
            from_end(first, next, repeat, len, k, m, allowed)
        }
        player_walk::Way::Back(m) => {
            let last = player_walk::Step::Last;
            let previous = player_walk::Step::Previous;
            from_end(last, previous, repeat, len, k, m, allowed)
        }
    }
}
