ghost use Rattle.std.specs.Prelude.{◌^◌, ◌<◌, ◌≤◌, vec_len, vec_capacity};

pub mod methods;

// Bytes that never grow past the room that was taken at the opening. Ghost fields and no model, with
// which each call would have to promise the bound in a clause.
#[derive(Drop)]
pub struct Buffer {
    bytes: Vec<u8>,
    // What was asked for; the capacity may be more.
    room: usize,
    ghost within: { vec_len bytes ≤ room },
    ghost reserved: { room ≤ vec_capacity bytes },
    ghost bounded: { room < 2 ^ 63 },
}
