// The clock: how far a step of wall time goes at a playback speed (SCOPE 13.2, 13.3).
#![tactic(auto)]

ghost use Rattle.std.specs.Prelude.{◌≡◌, true, min, ◌<◌, length};
ghost use Rattle.ground.specs.Limits.{most_duration};
ghost use Rattle.player_clock.specs.Clock.{table_rule, factor_of, rest_rule, stepped_by, stepped};

// 65,536 times 2 to the power p/64, rounded, for each playback speed p from -128 to 127 (SCOPE 13.2). `factors.py`, in this crate, prints the table.
const FACTORS: [u32; 256] = [
    16384, 16562, 16743, 16925, 17109, 17296, 17484, 17674, 17867, 18061, 18258, 18457, 18658,
    18861, 19066, 19274, 19484, 19696, 19911, 20127, 20347, 20568, 20792, 21019, 21247, 21479,
    21713, 21949, 22188, 22430, 22674, 22921, 23170, 23423, 23678, 23936, 24196, 24460, 24726,
    24995, 25268, 25543, 25821, 26102, 26386, 26674, 26964, 27258, 27554, 27855, 28158, 28464,
    28774, 29088, 29405, 29725, 30048, 30376, 30706, 31041, 31379, 31720, 32066, 32415, 32768,
    33125, 33486, 33850, 34219, 34591, 34968, 35349, 35734, 36123, 36516, 36914, 37316, 37722,
    38133, 38548, 38968, 39392, 39821, 40255, 40693, 41136, 41584, 42037, 42495, 42958, 43425,
    43898, 44376, 44859, 45348, 45842, 46341, 46846, 47356, 47871, 48393, 48920, 49452, 49991,
    50535, 51085, 51642, 52204, 52773, 53347, 53928, 54515, 55109, 55709, 56316, 56929, 57549,
    58176, 58809, 59449, 60097, 60751, 61413, 62081, 62757, 63441, 64132, 64830, 65536, 66250,
    66971, 67700, 68438, 69183, 69936, 70698, 71468, 72246, 73032, 73828, 74632, 75444, 76266,
    77096, 77936, 78785, 79642, 80510, 81386, 82273, 83169, 84074, 84990, 85915, 86851, 87796,
    88752, 89719, 90696, 91684, 92682, 93691, 94711, 95743, 96785, 97839, 98905, 99982, 101070,
    102171, 103283, 104408, 105545, 106694, 107856, 109031, 110218, 111418, 112631, 113858, 115098,
    116351, 117618, 118899, 120194, 121502, 122825, 124163, 125515, 126882, 128263, 129660, 131072,
    132499, 133942, 135401, 136875, 138366, 139872, 141395, 142935, 144491, 146065, 147655, 149263,
    150889, 152532, 154193, 155872, 157569, 159285, 161019, 162773, 164545, 166337, 168148, 169979,
    171830, 173701, 175593, 177505, 179438, 181392, 183367, 185364, 187382, 189423, 191485, 193571,
    195678, 197809, 199963, 202141, 204342, 206567, 208816, 211090, 213389, 215712, 218061, 220436,
    222836, 225263, 227716, 230195, 232702, 235236, 237798, 240387, 243005, 245651, 248326, 251030,
    253763, 256527, 259320,
];

// A hundredth of a second is so many parts.
const PARTS: u64 = 65536;

// How many hundredths a step goes on, and the parts that are left over for the next one.
#[derive(Clone, Copy)]
pub struct Stepped {
    pub whole: u32,
    pub rest: u32,
}

// The entry of a table of factors at a place.
fn entry(table: &[u32; 256], place: usize) -> u32
    requires table_value { table_rule table.now ≡ true }
    requires place_in_bounds { place < length table.now }
    requires place_bound { place < 256 }
    ensures { result ≡ factor_of place }
{
    table[place]
}

// The factor of the speed p, which is at the place p + 128 of the table.
#[tactic(auto, unfolding(crate::specs::Clock::factors_from, crate::specs::Clock::table_rule))]
fn factor(place: usize) -> u32
    requires { place < 256 }
    ensures { result ≡ factor_of place }
{
    let table = FACTORS;
    entry(&table, place)
}

// More than 8,640,000 counts as 8,640,000 (SCOPE 13.3).
fn at_most_a_day(whole: u64) -> u32
    ensures { result ≡ min whole most_duration }
{
    if (ground::MOST_DURATION as u64) < whole {
        return ground::MOST_DURATION;
    }
    whole as u32
}

// The sum fits in 64 bits, whatever the three are.
#[tactic(auto, using(crate::proofs::Steps::product_fits, crate::proofs::Steps::sum_fits))]
fn step_by(factor: u32, rest: u32, d: u32) -> Stepped
    ensures { result ≡ stepped_by factor rest d }
{
    let sum = (rest as u64) + (d as u64) * (factor as u64);
    let whole = at_most_a_day(sum / PARTS);
    let kept = (sum % PARTS) as u32;
    Stepped {
        whole: whole,
        rest: kept,
    }
}

// A step of d hundredths of wall time, on from a rest, at a playback speed: an octet in two's complement.
#[tactic(auto, unfolding(crate::specs::Clock::stepped))]
pub fn step(rest: u32, d: u32, speed: u8) -> Stepped
    ensures { result ≡ stepped rest d speed }
{
    let place = ((speed as usize) + 128) % 256;
    let e = factor(place);
    step_by(e, rest, d)
}

// Whether a rest is one that a step may leave (SCOPE 8.6).
pub fn rest_right(rest: u32) -> bool
    ensures { result ≡ rest_rule rest }
{
    (rest as u64) < PARTS
}
