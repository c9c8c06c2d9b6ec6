// What a stop leaves of a disk in memory, chosen by a number.
ghost use Rattle.std.specs.Prelude.{◌≡◌, ◌+◌, ◌-◌, ◌%◌, ◌<◌, ◌≤◌, ◌^◌, length, slice_index, IfOk};
ghost use Rattle.gno_disk.specs.Images.{IsImage};
ghost use Rattle.gno_disk.specs.Inside.{state_of};
ghost use Rattle.gno_disk.specs.Stop.{next_draw, drawn, one_of_four, after_place, byte_drawn, IsDrawn};

use crate::since::Since;
use std::alloc::{AllocError, Global};

const MULTIPLIER: u64 = 6364136223846793005;

const INCREMENT: u64 = 1442695040888963407;

// Draws of a linear congruential generator.
#[derive(Drop)]
struct Draws {
    state: u64,
}

impl Draws {
    // The next draw: all but the last 33 bits of the state.
    fn next(&mut self) -> u64
        ensures draw { result ≡ drawn (next_draw self.old.state) }
        ensures state { self.new.state ≡ next_draw self.old.state }
    {
        self.state = self.state.wrapping_mul(MULTIPLIER).wrapping_add(INCREMENT);
        self.state >> 33
    }

    // A length from the least to the greatest.
    fn length(&mut self, least: u64, greatest: u64) -> u64
        requires order { least ≤ greatest }
        requires limit { greatest ≤ 2 ^ 60 }
        ensures draw { result ≡ least + drawn (next_draw self.old.state) % (greatest - least + 1) }
        ensures state { self.new.state ≡ next_draw self.old.state }
        ensures least { least ≤ result }
        ensures greatest { result ≤ greatest }
    {
        least + self.next() % (greatest - least + 1)
    }

    // A loose byte: what a read gives, 0, 1, or a byte of the draw.
    fn byte(&mut self, read: u8) -> u8
        ensures draw { result ≡ one_of_four read (drawn (next_draw self.old.state)) }
        ensures state { self.new.state ≡ next_draw self.old.state }
    {
        let draw = self.next();
        match draw % 4 {
            0 => read,
            1 => 0,
            2 => 1,
            _ => (draw / 4 % 256) as u8,
        }
    }
}

// What a read gives at a place, and 0 past the end.
fn read_byte(bytes: &[u8], place: usize) -> u8
    ensures { result ≡ slice_index bytes.now place }
{
    bytes.get(place).copied().unwrap_or(0)
}

// The byte of an image at a place: only where it is loose, another one than a read gives.
fn image_byte(since: &Since, bytes: &[u8], draws: &mut Draws, place: usize) -> u8
    ensures draw { result ≡ byte_drawn (state_of bytes.now since.now) draws.old.state place }
    ensures state { draws.new.state ≡ after_place (state_of bytes.now since.now) draws.old.state place }
{
    let read = read_byte(bytes, place);
    if since.is_loose(place as u64) {
        draws.byte(read)
    } else {
        read
    }
}

/// An image that a stop may leave. The number seeds the draws: the first gives the length, and each
/// loose place takes one.
pub fn draw_image(
    alloc: Global,
    since: &Since,
    bytes: &[u8],
    choice: u64,
) -> Result<Vec<u8>, AllocError>
    requires order { since.now.least ≤ since.now.greatest }
    requires limit { since.now.greatest ≤ 2 ^ 60 }
    ensures image { IfOk result (λ image. IsImage (state_of bytes.now since.now) image.items) }
    ensures drawn { IfOk result (λ image. IsDrawn (state_of bytes.now since.now) choice image.items) }
{
    let mut draws = Draws { state: choice };
    let len = draws.length(since.least, since.greatest) as usize;
    let mut image = Vec::with_capacity(alloc, len)?;
    for place in 0..len {
        image.push(image_byte(since, bytes, &mut draws, place))?;
    }
    Ok(image)
}
