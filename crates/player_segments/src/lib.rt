// Moves along the segments of a track (SCOPE 10).
#![tactic(auto)]

ghost use Rattle.std.specs.Prelude.{◌≡◌};
ghost use Rattle.player_walk.specs.declared.Step.TheVariants.{Goto};
ghost use Rattle.player_segments.specs.Segments.{previous_start, next_start, segment_starts, segment_move, near_position, Rising, Past, Cut};
ghost use Rattle.player_segments.specs.Closed.{start_ahead, start_back};

// Less than this past the start of its segment, Previous Segment goes from a position to the segment before (SCOPE 10.3).
const PREVIOUS_MARGIN: u32 = 300;

// How many starts are not above x. They rise, so that halving finds it. A Goto by single steps that has come past the last start, or back to the first, stays there
// step for step: whether x lies there is asked before the search.
fn not_above(starts: &[u32], x: catalogue_tables::Position) -> usize
    requires { Rising starts.now }
    ensures { Cut starts.now x.0 result }
{
    let n = starts.len();
    if n == 0 || starts[n - 1] <= x.0 {
        return n;
    }
    if 1 < n && x.0 < starts[1] {
        return 1;
    }
    starts.partition_point(|start| *start <= x.0)
}

// Where Previous Segment goes: the start of the segment before, or of the segment that the position lies in (SCOPE 10.3).
fn previous_start(starts: &[u32], p: catalogue_tables::Position) -> catalogue_tables::Position
    requires { Rising starts.now }
    ensures { result.0 ≡ previous_start (segment_starts starts.now) p.0 }
{
    let k = not_above(starts, p);
    // The first segment has none before it, and starts at 0.
    if k < 2 {
        let first = catalogue_tables::Position(0);
        return first;
    }
    let own = starts[k - 1];
    if p.0 - own < PREVIOUS_MARGIN {
        let x = starts[k - 2];
        return catalogue_tables::Position(x);
    }
    catalogue_tables::Position(own)
}

// Where Next Segment goes: the least start above the position, or what stands past the last (SCOPE 10.4).
fn next_start(
    starts: &[u32],
    past: Option<catalogue_tables::Position>,
    p: catalogue_tables::Position,
) -> Option<catalogue_tables::Position>
    requires { Rising starts.now }
    ensures { near_position result ≡ next_start (segment_starts starts.now) (near_position past) p.0 }
{
    let k = not_above(starts, p);
    if starts.len() <= k {
        return past;
    }
    let x = starts[k];
    Some(catalogue_tables::Position(x))
}

// The start that m steps ahead lead to from the first, or what stands past the last.
#[tactic(auto, using(crate::proofs::Whole::ahead_in, crate::proofs::Whole::ahead_none, crate::proofs::Whole::ahead_past))]
fn start_ahead(
    starts: &[u32],
    past: Option<catalogue_tables::Position>,
    m: usize,
) -> Option<catalogue_tables::Position>
    ensures { near_position result ≡ start_ahead (segment_starts starts.now) (near_position past) m }
{
    if m < starts.len() {
        let x = starts[m];
        return Some(catalogue_tables::Position(x));
    }
    if m == 0 {
        return Some(catalogue_tables::Position(0));
    }
    past
}

// The start that m steps back lead to from the last, or 0.
#[tactic(auto, using(crate::proofs::Whole::back_in, crate::proofs::Whole::back_past))]
fn start_back(starts: &[u32], m: usize) -> catalogue_tables::Position
    ensures { result.0 ≡ start_back (segment_starts starts.now) m }
{
    let n = starts.len();
    if m < n {
        let x = starts[n - 1 - m];
        return catalogue_tables::Position(x);
    }
    catalogue_tables::Position(0)
}

// Where Goto Segment leads from a position (SCOPE 10.6).
fn goto_start(
    starts: &[u32],
    past: Option<catalogue_tables::Position>,
    p: catalogue_tables::Position,
    number: u32,
) -> Option<catalogue_tables::Position>
    requires rising { Rising starts.now }
    requires past { Past starts.now (near_position past) }
    ensures { near_position result ≡ segment_move (Goto number) starts.now (near_position past) p.0 }
{
    let way = player_walk::way_of(number);
    match way {
        player_walk::Way::Stay => Some(p),
        player_walk::Way::Ahead(m) => start_ahead(starts, past, ground::wide_word(m)),
        player_walk::Way::Back(m) => {
            let x = start_back(starts, ground::wide_word(m));
            Some(x)
        }
    }
}

// A segment move from a position of a track. `past` is what Next Segment leads to past the last start: D, or nothing.
#[tactic(auto, using(crate::proofs::Whole::some, crate::proofs::Whole::from_zero, crate::proofs::Steps::last_is), unfolding(crate::specs::Segments::move_along))]
pub fn segment_after(
    starts: &[u32],
    past: Option<catalogue_tables::Position>,
    position: catalogue_tables::Position,
    step: player_walk::Step,
) -> Option<catalogue_tables::Position>
    requires rising { Rising starts.now }
    requires past { Past starts.now (near_position past) }
    ensures { near_position result ≡ segment_move step starts.now (near_position past) position.0 }
{
    match step {
        player_walk::Step::Previous => {
            let x = previous_start(starts, position);
            Some(x)
        }
        player_walk::Step::Next => next_start(starts, past, position),
        player_walk::Step::First => {
            let x = catalogue_tables::Position(0);
            Some(x)
        }
        player_walk::Step::Last => {
            let x = start_back(starts, 0);
            Some(x)
        }
        player_walk::Step::Goto(n) => goto_start(starts, past, position, n),
    }
}
