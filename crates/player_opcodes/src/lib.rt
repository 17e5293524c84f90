// The opcodes of the control point (SCOPE 9.1 to 9.3).
#![tactic(auto)]

ghost use Rattle.std.specs.Prelude.{◌≡◌, ◌≤◌};
ghost use Rattle.player_opcodes.specs.Opcodes.{mask_bit, offered, parameter_length, step_of, action_of};

// What an opcode asks of the player. Numbers are words in two's complement.
#[derive(Clone, Copy)]
pub enum Action {
    Play,
    Pause,
    Rewind,
    Forward,
    Stop,
    Relative(u32),
    Segment(player_walk::Step),
    Track(player_walk::Step),
    Group(player_walk::Step),
    Unknown,
}

#[tactic(auto, using(ground::proofs::Cases::past, ground::proofs::Cases::here), unfolding(crate::specs::Opcodes::mask_bit))]
pub fn mask_bit(opcode: u8) -> u32
    ensures { (result ≡ mask_bit opcode) × (result ≤ 32) }
{
    match opcode {
        0x01..=0x05 => (opcode as u32) - 0x01,
        0x10 => 5,
        0x20..=0x24 => (opcode as u32) - 0x20 + 6,
        0x30..=0x34 => (opcode as u32) - 0x30 + 11,
        0x40..=0x44 => (opcode as u32) - 0x40 + 16,
        _ => 32,
    }
}

// Whether an opcode is known and in the mask.
#[tactic(auto, unfolding(crate::specs::Opcodes::offered))]
pub fn is_offered(mask: u32, opcode: u8) -> bool
    ensures { result ≡ offered mask opcode }
{
    let bit = mask_bit(opcode);
    if 21 <= bit {
        return false;
    }
    ground::has_bit(mask, bit)
}

// How many octets a write of an opcode has, with the number that it may carry; 0 for what is no opcode (SCOPE 9.3, 20.6).
#[tactic(auto, using(crate::proofs::Rows::length_five, crate::proofs::Rows::length_none), unfolding(crate::specs::Opcodes::parameter_length))]
pub fn parameter_length(opcode: u8) -> usize
    ensures { result ≡ parameter_length opcode }
{
    match opcode {
        0x10 | 0x24 | 0x34 | 0x44 => 5,
        0x01..=0x05 => 1,
        0x20..=0x23 => 1,
        0x30..=0x33 => 1,
        0x40..=0x43 => 1,
        _ => 0,
    }
}

#[tactic(auto, unfolding(crate::specs::Opcodes::step_of))]
fn step_of(place: u8, number: u32) -> player_walk::Step
    ensures { result ≡ step_of place number }
{
    match place {
        0 => player_walk::Step::Previous,
        1 => player_walk::Step::Next,
        2 => player_walk::Step::First,
        3 => player_walk::Step::Last,
        _ => player_walk::Step::Goto(number),
    }
}

#[tactic(auto, using(crate::proofs::Rows::action_segment, crate::proofs::Rows::action_track, crate::proofs::Rows::action_group, crate::proofs::Rows::action_none), unfolding(crate::specs::Opcodes::action_of))]
pub fn action_of(opcode: u8, number: u32) -> Action
    ensures { result ≡ action_of opcode number }
{
    match opcode {
        0x01 => Action::Play,
        0x02 => Action::Pause,
        0x03 => Action::Rewind,
        0x04 => Action::Forward,
        0x05 => Action::Stop,
        0x10 => Action::Relative(number),
        0x20..=0x24 => {
            let s = step_of(opcode - 0x20, number);
            Action::Segment(s)
        }
        0x30..=0x34 => {
            let s = step_of(opcode - 0x30, number);
            Action::Track(s)
        }
        0x40..=0x44 => {
            let s = step_of(opcode - 0x40, number);
            Action::Group(s)
        }
        _ => Action::Unknown,
    }
}
